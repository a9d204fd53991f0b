#![tactic(auto)]

// Tests of the kinds: what their values are written as, which bits they have, how costs compare, and prefixes.
#[cfg(test)]
mod bits;
#[cfg(test)]
mod costs;
#[cfg(test)]
mod patterns;
#[cfg(test)]
mod prefixes;
