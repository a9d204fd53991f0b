// Address kinds and cost kinds: what they mean, how they are written as patterns, and how costs compare.
#![tactic(auto)]

pub mod address;
pub mod bits;
pub mod cost;
pub mod ipv4;
pub mod ipv6;
pub mod number;
pub mod plain;
pub mod prefix;
pub mod rank;
pub mod socket;
pub mod tariff;
pub mod written;
