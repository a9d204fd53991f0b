// Books of filters that are drawn.
use book::book::Book;
use kinds::address::Address;
use kinds::rank::Rank;
use samples::generate::{Generator, draw_filter};

// Adds so many filters that are drawn, of the largest label first: the smaller label then is not the earlier filter.
pub(crate) fn add_drawn<A: Address>(
    book: &mut Book<A, A, Rank>,
    generator: &mut Generator,
    count: u16,
) {
    for label in (1..=count).rev() {
        let _ = book.add(&draw_filter(generator, label));
    }
}
