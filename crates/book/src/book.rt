// The filter book: filters of any kinds, in memory that is handed in.
ghost use Rattle.std.specs.Prelude.{◌≡◌, ◌≤◌, true, length, take};
ghost use Rattle.tables.specs.Verdict.{labels};
ghost use Rattle.book.specs.Labels.{apart};

use filters::filter::Record;
use kinds::address::Address;
use kinds::cost::Cost;

mod calls;

// A book of filters with destinations of kind D, sources of kind S and costs of kind C. The places are lent and none is allocated, so
// those in use are counted beside them.
#[derive(Drop)]
pub struct Book<'m, D: Address, S: Address, C: Cost> {
    places: &'m mut [Record<D, S, C>],
    used: usize,
    ghost fits: { used ≤ length places.now },
    ghost few: { used ≤ 4095 },
    ghost lawful: { apart (labels (take used places.now)) ≡ true },
}
