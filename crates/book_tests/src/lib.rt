#![tactic(auto)]

// Tests of the filter book, of the refusals of filters and of linear search.
#[cfg(test)]
mod capacities;
#[cfg(test)]
mod kept;
#[cfg(test)]
mod places;
#[cfg(test)]
mod refusals;
#[cfg(test)]
mod searches;
#[cfg(test)]
mod steps;
