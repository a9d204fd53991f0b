// Books of one filter and of two, and node places that are one too few.
use crate::tell::{tell_build, tell_search};
use crate::worked::{filter, search};
use book::book::Book;
use filters::directive::Directive;
use filters::filter::{Filter, Prefix};
use grid::grid::Grid;
use kinds::ipv4::Ipv4;
use kinds::rank::Rank;
use samples::junk;

// One filter that matches everything, and then one of destination 101 alone.
pub(crate) fn run_single(rt: &HostRuntime) -> anyhow::Result<()> {
    let mut places = vec![in rt.alloc(); junk::record(0u16); 1]?;
    let mut nodes = vec![in rt.alloc(); junk::node(); 34]?;
    let mut book = Book::new(places.as_mut_slice());
    let mut grid = Grid::new(nodes.as_mut_slice());
    let _ = book.add(&filter(1, (0, 0), (0, 0), 1));
    tell_build(rt, "a filter of everything", &mut grid, &book)?;
    search(rt, &grid, "0, 0", 0, 0)?;
    search(rt, &grid, "1..., 1...", 0xffff, 0xffff)?;
    book.clear();
    let _ = book.add(&filter(1, (0xa000, 3), (0, 0), 1));
    tell_build(rt, "a filter of destination 101", &mut grid, &book)?;
    search(rt, &grid, "100, 0", 0x8000, 0)?;
    book.clear();
    tell_build(rt, "no filter", &mut grid, &book)?;
    search(rt, &grid, "101, 0", 0xa000, 0)?;
    Ok(())
}

fn whole(label: u16, number: u32) -> Filter<Ipv4, Ipv4, Rank> {
    Filter {
        label,
        destination: Prefix {
            address: Ipv4::new(number),
            length: 32,
        },
        source: Prefix {
            address: Ipv4::new(number),
            length: 32,
        },
        cost: Rank::new(1),
        directive: Directive::Block,
    }
}

// One IPv4 filter and then two that share no bit, in so many node places. Where the second build is refused the first grid serves.
fn run_places(rt: &HostRuntime, count: usize) -> anyhow::Result<()> {
    let mut places = vec![in rt.alloc(); junk::record(0u32); 2]?;
    let mut nodes = vec![in rt.alloc(); junk::node(); count]?;
    let mut book = Book::new(places.as_mut_slice());
    let mut grid = Grid::new(nodes.as_mut_slice());
    println!(rt; "{count} node places")?;
    let _ = book.add(&whole(1, 0));
    tell_build(rt, "one filter", &mut grid, &book)?;
    let _ = book.add(&whole(2, u32::MAX));
    tell_build(rt, "two filters", &mut grid, &book)?;
    tell_search(
        rt,
        "the first filter's addresses",
        grid.classify(&Ipv4::new(0), &Ipv4::new(0)),
    )?;
    tell_search(
        rt,
        "the second filter's addresses",
        grid.classify(&Ipv4::new(u32::MAX), &Ipv4::new(u32::MAX)),
    )?;
    Ok(())
}

pub(crate) fn run_pair(rt: &HostRuntime) -> anyhow::Result<()> {
    run_places(rt, 131)?;
    run_places(rt, 130)
}
