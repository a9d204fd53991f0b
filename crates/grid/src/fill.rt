// The insertion of all filters that places hold.
ghost use Rattle.std.specs.Prelude.{◌≡◌, ◌≤◌, List, ◌++◌, length, replicate};
ghost use Rattle.filters.specs.Rules.{Rule, better};
ghost use Rattle.filters.specs.Meaning.{held, rules};
ghost use Rattle.filters.specs.Orders.{In};
ghost use Rattle.tries.specs.Shape.{need};
ghost use Rattle.grid.specs.declared.node.Node.TheVariants.{Empty};
ghost use Rattle.grid.specs.Build.{Room, most_used, Filled};

use crate::grid::Grid;
use crate::node::Kept;
use filters::filter::{Prefix, Record};
use filters::search::standing;
use kinds::address::Address;
use kinds::cost::Cost;

impl<'m, D: Address, S: Address, C: Cost> Grid<'m, D, S, C> {
    // Inserts what a place holds, if it holds a filter; its standing is that among all records. Records are passed, and not their
    // book: clauses that speak of a book's records are longer than the clause that they are few.
    fn insert_record(&mut self, records: &[Record<D, S, C>], place: &Record<D, S, C>)
        requires few { length records.now ≤ 4095 }
        requires room { Room (most_used self.old.used D.Address.WIDTH S.Address.WIDTH) self.old.nodes.now }
        ensures most { self.new.used ≤ most_used self.old.used D.Address.WIDTH S.Address.WIDTH }
        ensures places { length self.new.nodes.now ≡ length self.old.nodes.now }
        ensures grid { (G : List (Rule C)) → ((f : Rule C) → In f G → In f (rules D.Address.spells S.Address.spells C.Written.reads records.now)) → ((f : Rule C) → In f (held D.Address.spells S.Address.spells C.Written.reads place.now) → In f (rules D.Address.spells S.Address.spells C.Written.reads records.now)) → Filled (better C.Cost.order) (rules D.Address.spells S.Address.spells C.Written.reads records.now) G self.old.nodes.now self.old.used → Filled (better C.Cost.order) (rules D.Address.spells S.Address.spells C.Written.reads records.now) (G ++ held D.Address.spells S.Address.spells C.Written.reads place.now) self.new.nodes.now self.new.used }
    {
        let Ok(cost) = C::read(place.cost) else {
            return;
        };
        let rank = standing::<D, S, C>(records, &cost, place.label);
        let kept = Kept {
            label: place.label,
            standing: rank as u16,
            directive: place.directive,
        };
        let to = Prefix::<D>::of(&place.destination);
        let from = Prefix::<S>::of(&place.source);
        self.insert(&to, &from, kept);
    }

    // Inserts all filters into empty memory that has places enough.
    pub(crate) fn insert_all(&mut self, records: &[Record<D, S, C>])
        requires start { self.old.used ≡ 0 }
        requires bare { self.old.nodes.now ≡ replicate (length self.old.nodes.now) Empty }
        requires few { length records.now ≤ 4095 }
        requires room { need (length records.now) D.Address.WIDTH S.Address.WIDTH ≤ length self.old.nodes.now }
        ensures places { length self.new.nodes.now ≡ length self.old.nodes.now }
        ensures grid { Filled (better C.Cost.order) (rules D.Address.spells S.Address.spells C.Written.reads records.now) (rules D.Address.spells S.Address.spells C.Written.reads records.now) self.new.nodes.now self.new.used }
    {
        for place in records {
            self.insert_record(records, place);
        }
    }
}
