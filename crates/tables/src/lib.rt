// The byte format of filter tables: reading, checking and writing, once for every kinds.
#![tactic(auto)]

pub mod check;
pub mod fault;
pub mod field;
pub mod laws;
pub mod load;
pub mod number;
pub mod record;
pub mod turn;
pub mod write;
