// Filters: what they mean, when they are refused, which of them match, and which match is the best.
#![tactic(auto)]

pub mod check;
pub mod convert;
pub mod directive;
pub mod fault;
pub mod filter;
pub mod matching;
pub mod search;
