// The grid: a destination trie, a source trie for each destination prefix of a filter, and switches between the source tries.
#![tactic(auto)]

pub mod laws;
