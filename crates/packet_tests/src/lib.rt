// Tests of reading packets, of items and of lines.
#![tactic(auto)]

pub mod cases;
pub mod drip;
pub mod tables;
pub mod whole;
pub mod written;
