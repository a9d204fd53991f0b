// Tests of reading and writing tables.
#![tactic(auto)]

pub mod cases;
pub mod groups;
pub mod run;
pub mod sample;
