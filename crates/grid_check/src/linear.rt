// What one chooses who reads every filter of a book.
use book::book::Book;
use filters::directive::Directive;
use filters::search::linear_search;
use kinds::address::Address;
use kinds::rank::Rank;

pub(crate) fn linear_choice<A: Address>(
    book: &Book<A, A, Rank>,
    destination: &A,
    source: &A,
) -> Option<(u16, Directive)> {
    linear_search::<A, A, Rank>(book.records(), destination, source).map(|filter| (
        filter.label,
        filter.directive,
    ))
}
