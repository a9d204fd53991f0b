// A long table and then a short one in the same memory, against the short one in fresh memory, on every pair of addresses.
use crate::drawn::add_drawn;
use crate::linear::linear_choice;
use crate::tell::tell_build;
use book::book::Book;
use filters::directive::Directive;
use grid::grid::Grid;
use kinds::address::Address;
use kinds::rank::Rank;
use samples::generate::Generator;
use samples::junk;
use samples::tally::Tally;
use samples::tiny::Tiny;

const LONG: u16 = 120;

const SHORT: u16 = 12;

// Looks every pair of addresses up in a grid, and asks whether each answer is the one that is wanted.
fn compare_all<F: Fn(&Tiny, &Tiny, (Option<(u16, Directive)>, u32)) -> bool>(
    grid: &Grid<Tiny, Tiny, Rank>,
    is_wanted: F,
) -> Tally
    requires { F.IsAlwaysCallable is_wanted }
{
    let mut tally = Tally::new();
    for pair in 0..=u16::MAX {
        let [high, low] = pair.to_be_bytes();
        let destination = Tiny::of(high);
        let source = Tiny::of(low);
        let found = grid.classify(&destination, &source);
        let wanted = is_wanted(&destination, &source, found);
        tally.count(found, wanted);
    }
    tally
}

// Compares the choices with those of linear search.
fn compare_linear(grid: &Grid<Tiny, Tiny, Rank>, book: &Book<Tiny, Tiny, Rank>) -> Tally {
    compare_all(grid, |destination, source, found| {
        found.0 == linear_choice(book, destination, source)
    })
}

// Compares choices and visits with those of another grid.
fn compare_grids(grid: &Grid<Tiny, Tiny, Rank>, other: &Grid<Tiny, Tiny, Rank>) -> Tally {
    compare_all(grid, |destination, source, found| {
        found == other.classify(destination, source)
    })
}

// Builds the book's grid in fresh memory and compares it with the one that is there.
fn compare_fresh(
    rt: &HostRuntime,
    grid: &Grid<Tiny, Tiny, Rank>,
    book: &Book<Tiny, Tiny, Rank>,
) -> anyhow::Result<()> {
    let mut nodes = vec![in rt.alloc(); junk::node(); 205]?;
    let mut fresh = Grid::new(nodes.as_mut_slice());
    tell_build(rt, "the short table in fresh memory", &mut fresh, book)?;
    let tally = compare_grids(grid, &fresh);
    println!(rt; "with the fresh grid: {} {tally}", tally.compared())?;
    Ok(())
}

pub(crate) fn run(rt: &HostRuntime) -> anyhow::Result<()> {
    let mut places = vec![in rt.alloc(); junk::record(0u8); 120]?;
    let mut nodes = vec![in rt.alloc(); junk::node(); 2041]?;
    let mut book = Book::new(places.as_mut_slice());
    let mut grid = Grid::new(nodes.as_mut_slice());
    let mut generator = Generator::new(1);
    add_drawn(&mut book, &mut generator, LONG);
    tell_build(rt, "a long table", &mut grid, &book)?;
    let long = compare_linear(&grid, &book);
    println!(rt; "with linear search: {} {long}", long.compared())?;
    book.clear();
    add_drawn(&mut book, &mut generator, SHORT);
    tell_build(rt, "a short table in the same memory", &mut grid, &book)?;
    let short = compare_linear(&grid, &book);
    println!(rt; "with linear search: {} {short}", short.compared())?;
    compare_fresh(rt, &grid, &book)
}
