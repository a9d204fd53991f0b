// What the programs that check many cases draw their filters from: a small kind, a generator, and memory full of misleading content.
#![tactic(auto)]

pub mod address;
pub mod generate;
pub mod junk;
pub mod tally;
pub mod tiny;
