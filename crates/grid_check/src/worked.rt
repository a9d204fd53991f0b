// The book of five filters that was worked by hand, in memory full of junk.
use crate::tell::{tell_build, tell_search};
use book::book::Book;
use filters::directive::Directive;
use filters::filter::{Filter, Prefix};
use grid::grid::Grid;
use kinds::address::Address;
use kinds::rank::Rank;
use kinds::socket::Socket;
use samples::junk;
use std::io;

// A filter of two prefixes, each by its bits, which stand highest, and its length.
pub(crate) fn filter(
    label: u16,
    destination: (u16, u8),
    source: (u16, u8),
    cost: u32,
) -> Filter<Socket, Socket, Rank> {
    let (destination_bits, destination_length) = destination;
    let (source_bits, source_length) = source;
    Filter {
        label,
        destination: Prefix {
            address: Socket::of(destination_bits),
            length: destination_length,
        },
        source: Prefix {
            address: Socket::of(source_bits),
            length: source_length,
        },
        cost: Rank::new(cost),
        directive: Directive::Block,
    }
}

fn add_worked(book: &mut Book<Socket, Socket, Rank>) {
    let _ = book.add(&filter(1, (0x8000, 1), (0, 1), 5));
    let _ = book.add(&filter(2, (0x8000, 2), (0xc000, 2), 7));
    let _ = book.add(&filter(3, (0, 0), (0xc000, 3), 3));
    let _ = book.add(&filter(4, (0x8000, 1), (0, 0), 9));
    let _ = book.add(&filter(5, (0x8000, 1), (0xc000, 2), 7));
}

// Searches two addresses and tells what was found.
pub(crate) fn search(
    rt: &HostRuntime,
    grid: &Grid<Socket, Socket, Rank>,
    what: &str,
    destination: u16,
    source: u16,
) -> io::Result<()> {
    let found = grid.classify(&Socket::of(destination), &Socket::of(source));
    tell_search(rt, what, found)
}

fn search_all(rt: &HostRuntime, grid: &Grid<Socket, Socket, Rank>) -> io::Result<()> {
    search(rt, grid, "10, 1101", 0x8000, 0xd000)?;
    search(rt, grid, "10, 111", 0x8000, 0xe000)?;
    search(rt, grid, "11, 01", 0xc000, 0x4000)?;
    search(rt, grid, "0, 110", 0, 0xc000)?;
    search(rt, grid, "0, 0", 0, 0)?;
    search(rt, grid, "10, 00", 0x8000, 0)
}

fn change_third(
    rt: &HostRuntime,
    grid: &mut Grid<Socket, Socket, Rank>,
    book: &mut Book<Socket, Socket, Rank>,
) -> io::Result<()> {
    let _ = book.withdraw(3);
    tell_build(rt, "filter 3 withdrawn", grid, book)?;
    search(rt, grid, "10, 1101", 0x8000, 0xd000)?;
    let _ = book.add(&filter(3, (0, 0), (0xc000, 3), 30));
    tell_build(rt, "filter 3 at cost 30", grid, book)?;
    search(rt, grid, "10, 1101", 0x8000, 0xd000)
}

pub(crate) fn run(rt: &HostRuntime) -> anyhow::Result<()> {
    let mut places = vec![in rt.alloc(); junk::record(0u16); 5]?;
    let mut nodes = vec![in rt.alloc(); junk::node(); 166]?;
    let mut book = Book::new(places.as_mut_slice());
    let mut grid = Grid::new(nodes.as_mut_slice());
    add_worked(&mut book);
    search(rt, &grid, "before the build", 0x8000, 0xd000)?;
    tell_build(rt, "the worked book", &mut grid, &book)?;
    search_all(rt, &grid)?;
    change_third(rt, &mut grid, &mut book)?;
    Ok(())
}
