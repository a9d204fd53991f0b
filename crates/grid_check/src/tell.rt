// The lines that searches and builds are told by.
use book::book::Book;
use filters::directive::Directive;
use grid::grid::Grid;
use kinds::address::Address;
use kinds::cost::Cost;
use std::io;

// Builds, and tells how many nodes were used or by which number it was refused.
pub(crate) fn tell_build<D: Address, S: Address, C: Cost>(
    rt: &HostRuntime,
    what: &str,
    grid: &mut Grid<D, S, C>,
    book: &Book<D, S, C>,
) -> io::Result<()> {
    match grid.build(book) {
        Ok(count) => println!(rt; "{what}: {count} nodes"),
        Err(fault) => {
            let number = fault.number();
            println!(rt; "{what}: refused {number}")
        }
    }
}

// Tells what a search found.
pub(crate) fn tell_search(
    rt: &HostRuntime,
    what: &str,
    found: (Option<(u16, Directive)>, u32),
) -> io::Result<()> {
    let (choice, visits) = found;
    match choice {
        Some((label, _)) => println!(rt; "{what}: label {label} in {visits} visits"),
        None => println!(rt; "{what}: none in {visits} visits"),
    }
}
