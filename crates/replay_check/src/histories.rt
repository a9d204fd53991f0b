// The two histories: a long table and then a short one, and the short one alone.
use filters::filter::Record;
use gateway::history::{Call, replay_two};
use grid::node::Node;
use kinds::address::Address;
use kinds::cost::Cost;
use samples::address::address;
use samples::tally::Tally;
use std::alloc::Global;

// A history of tables that are installed one after another.
fn install_all<'t, D: Address, S: Address, C: Cost>(
    heap: Global,
    tables: &[&'t [u8]],
) -> anyhow::Result<Vec<Call<'t, D, S, C>>> {
    let mut calls = Vec::new(heap);
    for table in tables {
        calls.push(Call::Install(*table))?;
    }
    Ok(calls)
}

// Compares the lookups of all pairs of addresses by their first 8 bits, each in the memory that the last one left. The memories are lent
// one by one, as `replay_two` takes them.
fn compare<D: Address, S: Address, C: Cost>(
    places: &mut [Record<D, S, C>],
    nodes: &mut [Node],
    trail: &mut [u32],
    calls: &[Call<D, S, C>],
    other_places: &mut [Record<D, S, C>],
    other_nodes: &mut [Node],
    other_trail: &mut [u32],
    other_calls: &[Call<D, S, C>],
) -> Tally {
    let mut tally = Tally::new();
    for pair in 0..=u16::MAX {
        let destination: D = address((pair as u32) << 16);
        let source: S = address((pair as u32) << 24);
        let (first, second) = replay_two::<D, S, C>(
            places,
            nodes,
            trail,
            calls,
            other_places,
            other_nodes,
            other_trail,
            other_calls,
            &destination,
            &source,
        );
        tally.count(first.found, first == second);
    }
    tally
}

// Compares the lookups behind a long table and then a short one with those behind the short one alone.
pub(crate) fn compare_tables<D: Address, S: Address, C: Cost>(
    heap: Global,
    places: &mut [Record<D, S, C>],
    nodes: &mut [Node],
    trail: &mut [u32],
    other_places: &mut [Record<D, S, C>],
    other_nodes: &mut [Node],
    other_trail: &mut [u32],
    long: &[u8],
    short: &[u8],
) -> anyhow::Result<Tally> {
    let calls = install_all::<D, S, C>(heap, &[long, short])?;
    let other_calls = install_all::<D, S, C>(heap, &[short])?;
    Ok(compare(
        places,
        nodes,
        trail,
        &calls,
        other_places,
        other_nodes,
        other_trail,
        &other_calls,
    ))
}
