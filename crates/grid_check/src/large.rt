// As many filters as a book holds.
use crate::drawn::add_drawn;
use crate::linear::linear_choice;
use crate::tell::tell_build;
use book::book::Book;
use filters::filter::Prefix;
use grid::grid::Grid;
use kinds::ipv4::Ipv4;
use kinds::rank::Rank;
use samples::generate::{Generator, behind};
use samples::junk;
use samples::tally::Tally;

const MOST: u16 = 4095;

const SEARCHES: u32 = 2000;

// An address that a prefix begins.
fn draw_within(generator: &mut Generator, prefix: &Prefix<Ipv4>) -> Ipv4 {
    let behind = behind(prefix.length as u32);
    Ipv4::new(prefix.address.to_bits() | (generator.draw() & behind))
}

// Two addresses that the prefixes of two filters of the book begin.
fn draw_pair(book: &Book<Ipv4, Ipv4, Rank>, generator: &mut Generator) -> (Ipv4, Ipv4) {
    let first = book.get(generator.draw() as usize % 4095);
    let destination = first.map_or(
        Ipv4::new(0),
        |filter| draw_within(generator, &filter.destination),
    );
    let second = book.get(generator.draw() as usize % 4095);
    let source = second.map_or(
        Ipv4::new(0),
        |filter| draw_within(generator, &filter.source),
    );
    (destination, source)
}

fn compare_some(
    grid: &Grid<Ipv4, Ipv4, Rank>,
    book: &Book<Ipv4, Ipv4, Rank>,
    generator: &mut Generator,
) -> Tally {
    let mut tally = Tally::new();
    for _ in 0..SEARCHES {
        let (destination, source) = draw_pair(book, generator);
        let found = grid.classify(&destination, &source);
        let wanted = linear_choice(book, &destination, &source);
        tally.count(found, found.0 == wanted);
    }
    tally
}

pub(crate) fn run(rt: &HostRuntime) -> anyhow::Result<()> {
    let mut places = vec![in rt.alloc(); junk::record(0u32); 4095]?;
    let mut nodes = vec![in rt.alloc(); junk::node(); 266176]?;
    let mut book = Book::new(places.as_mut_slice());
    let mut grid = Grid::new(nodes.as_mut_slice());
    let mut generator = Generator::new(2);
    add_drawn(&mut book, &mut generator, MOST);
    tell_build(rt, "4095 filters", &mut grid, &book)?;
    let tally = compare_some(&grid, &book, &mut generator);
    println!(rt; "with linear search: {} {tally}", tally.compared())?;
    Ok(())
}
