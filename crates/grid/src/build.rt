// The building of the grid: the places used so far are emptied, all filters are inserted, and the nodes are finished.
ghost use Rattle.std.specs.Prelude.{◌≡◌, ◌≤◌, true, false, length, take, replicate, if◌then◌else◌, Ok, Err, MatchResult};
ghost use Rattle.book.specs.Books.{after};
ghost use Rattle.filters.specs.Rules.{better};
ghost use Rattle.filters.specs.Meaning.{rules};
ghost use Rattle.filters.specs.Orders.{Apart};
ghost use Rattle.tries.specs.Shape.{need, nodes as nodes_of};
ghost use Rattle.grid.specs.Derived.{Derived};
ghost use Rattle.grid.specs.declared.node.Node.TheVariants.{Empty};
ghost use Rattle.grid.specs.declared.build.BuildFault.TheVariants.{Places};
ghost use Rattle.grid.specs.Refusals.{build_number, too_few};

use crate::finish::finish_first;
use crate::grid::{Grid, empty_first};
use book::book::Book;
use filters::filter::Record;
use kinds::address::Address;
use kinds::cost::Cost;

// Why a grid is not built.
#[derive(Clone, Copy, PartialEq, Eq, Debug)]
pub enum BuildFault {
    // the node places are fewer than so many filters may need
    Places = 8,
}

impl BuildFault {
    // The number of the refusal.
    pub fn number(self) -> u8
        ensures { result ≡ build_number self }
    {
        self as u8
    }
}

// The node places that are enough for so many filters.
fn places_needed<D: Address, S: Address>(count: usize) -> usize
    requires { count ≤ 4095 }
    ensures { result ≡ need count D.Address.WIDTH S.Address.WIDTH }
{
    if count == 0 {
        0
    } else {
        1 + count * (D::WIDTH + S::WIDTH + 1) as usize
    }
}

impl<'m, D: Address, S: Address, C: Cost> Grid<'m, D, S, C> {
    // Empties the grid.
    fn clear(&mut self)
        ensures count { self.new.used ≡ 0 }
        ensures memory { self.new.nodes.now ≡ replicate (length self.old.nodes.now) Empty }
    {
        let Grid { nodes, used, .. } = self;
        empty_first(nodes, *used as usize);
        *used = 0;
    }

    // Builds the grid of the filters that the records hold, in memory that has places enough. It answers the number of nodes.
    fn fill(&mut self, records: &[Record<D, S, C>]) -> u32
        requires few { length records.now ≤ 4095 }
        requires room { need (length records.now) D.Address.WIDTH S.Address.WIDTH ≤ length self.old.nodes.now }
        ensures answer { result ≡ self.new.used }
        ensures count { self.new.used ≡ nodes_of (rules D.Address.spells S.Address.spells C.Written.reads records.now) }
        ensures places { length self.new.nodes.now ≡ length self.old.nodes.now }
        ensures grid { Apart (rules D.Address.spells S.Address.spells C.Written.reads records.now) → Derived (better C.Cost.order) (rules D.Address.spells S.Address.spells C.Written.reads records.now) self.new.nodes.now self.new.used }
    {
        self.clear();
        self.insert_all(records);
        let Grid { nodes, used, .. } = self;
        finish_first::<D, S, C>(nodes, *used as usize, records);
        *used
    }

    // Builds the grid of the book's filters, and answers how many nodes it uses; the book stays as found. Where the node places
    // are fewer than so many filters may need it is refused before the first write.
    pub fn build(&mut self, book: &Book<D, S, C>) -> Result<u32, BuildFault>
        ensures answer { result ≡ (if too_few (length self.old.nodes.now) book.now.used D.Address.WIDTH S.Address.WIDTH then Err Places else Ok (nodes_of (rules D.Address.spells S.Address.spells C.Written.reads (take book.now.used book.now.places.now)))) }
        ensures count { self.new.used ≡ after result (nodes_of (rules D.Address.spells S.Address.spells C.Written.reads (take book.now.used book.now.places.now))) self.old.used }
        ensures places { length self.new.nodes.now ≡ length self.old.nodes.now }
        ensures memory { MatchResult result (λ _. Derived (better C.Cost.order) (rules D.Address.spells S.Address.spells C.Written.reads (take book.now.used book.now.places.now)) self.new.nodes.now self.new.used) (λ _. self.new.nodes.now ≡ self.old.nodes.now) }
    {
        let records = book.records();
        if self.nodes.len() < places_needed::<D, S>(records.len()) {
            return Err(BuildFault::Places);
        }
        Ok(self.fill(records))
    }
}
