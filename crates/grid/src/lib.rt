// The grid in memory that is handed in: its nodes, its making, and the searches of it.
#![tactic(auto)]

pub mod build;
mod edit;
mod fill;
mod finish;
pub mod grid;
mod insert;
pub mod node;
pub mod search;
pub mod trail;
