// The test of a long table followed by a short one. In one memory a long table is installed and then a short one, in another the short
// one alone; every pair of addresses of a kind of 8 bits is looked up behind both histories, and each lookup is compared.
#![tactic(auto)]

mod histories;

use crate::histories::compare_tables;
use book::book::Book;
use kinds::rank::Rank;
use samples::generate::{Generator, draw_filter};
use samples::junk;
use samples::tally::Tally;
use samples::tiny::Tiny;
use std::alloc::Global;

// How many filters the tables have.
const LONG: u16 = 24;

const SHORT: u16 = 6;

// The filter places of a gateway, and the node places that so many filters may need.
const PLACES: usize = 24;

const NODES: usize = 409;

// A trail of two addresses of 8 bits has at most 18 places.
const TRAIL: usize = 18;

// Compares the lookups of all pairs of addresses behind two tables and behind the second alone, each in memory of its own.
fn compare_all(heap: Global, long: &[u8], short: &[u8]) -> anyhow::Result<Tally> {
    let mut places = [junk::record(0u8); PLACES];
    let mut nodes = [junk::node(); NODES];
    let mut trail = [0u32; TRAIL];
    let mut other_places = places;
    let mut other_nodes = nodes;
    let mut other_trail = trail;
    compare_tables::<Tiny, Tiny, Rank>(
        heap,
        &mut places,
        &mut nodes,
        &mut trail,
        &mut other_places,
        &mut other_nodes,
        &mut other_trail,
        long,
        short,
    )
}

// The table of so many filters that are drawn; no byte where it is too long to be written.
fn draw_table(heap: Global, generator: &mut Generator, count: u16) -> anyhow::Result<Vec<u8>> {
    let mut places = [junk::record(0u8); PLACES];
    let mut book = Book::<Tiny, Tiny, Rank>::new(&mut places);
    // of the largest label first: the smaller label then is not the earlier filter
    for label in (1..=count).rev() {
        let _ = book.add(&draw_filter(generator, label));
    }
    let mut table = vec![in heap; 0u8; 1024]?;
    let size = book.write(table.as_mut_slice()).unwrap_or(0);
    table.truncate(size);
    Ok(table)
}

fn main(rt: HostRuntime) -> anyhow::Result<()> {
    let mut generator = Generator::new(1);
    let long = draw_table(rt.alloc(), &mut generator, LONG)?;
    let short = draw_table(rt.alloc(), &mut generator, SHORT)?;
    println!(rt;
        "a long table of {LONG} filters and then a short one of {SHORT}, against the short one alone"
    )?;
    let tally = compare_all(rt.alloc(), long.as_slice(), short.as_slice())?;
    println!(rt; "{} lookups {tally}", tally.compared())?;
    Ok(())
}
