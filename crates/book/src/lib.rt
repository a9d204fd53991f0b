// The filter book, in memory that is handed in.
#![tactic(auto)]

pub mod book;
pub mod fault;
mod memory;
