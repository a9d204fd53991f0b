// The gateway: a book and a grid in two lent memories, and what every history of calls leaves of them.
#![tactic(auto)]

pub mod decide;
pub mod fault;
pub mod gateway;
pub mod history;
