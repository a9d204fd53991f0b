// The calls of a book.
ghost use Rattle.std.specs.Prelude.{◌≡◌, ℕ, ◌+◌, ◌-◌, ◌<◌, ◌≤◌, true, false, [], ◌∷◌, ◌++◌, map, length, take, drop, Some, None, position, ◌==◌, slice_set};
ghost use Rattle.std.specs.Option.{option_map, option_to_list};
ghost use Rattle.filters.specs.declared.filter.Filter.{Filter};
ghost use Rattle.filters.specs.Meaning.{Record};
ghost use Rattle.filters.specs.Meaning.{record_of, rule_of, held, rules};
ghost use Rattle.filters.specs.Refusals.{filter_verdict};
ghost use Rattle.filters.specs.Rules.{Rule};
ghost use Rattle.tables.specs.Verdict.{has, labels};
ghost use Rattle.book.specs.Labels.{without};
ghost use Rattle.tables.specs.Format.{kind_of, entry_of, decode, encode};
ghost use Rattle.tables.specs.Memory.{Loaded, write_verdict, written};
ghost use Rattle.book.specs.Loads.{count_after, table_rules, load_verdict};
ghost use Rattle.book.specs.Books.{capacity_of, add_verdict, withdraw_verdict, after, in_use};

use super::Book;
use crate::fault::{AddFault, WithdrawFault};
use crate::memory::{filter_at, put, take_out};
use filters::check::check_filter;
use filters::convert::to_record;
use filters::fault::FilterFault;
use filters::filter::{Filter, Record};
use kinds::address::Address;
use kinds::cost::Cost;
use tables::fault::{LoadFault, WriteFault};
use tables::load::load_table;
use tables::write::write_table;

// The most filters that a book holds.
const MOST: usize = 4095;

impl<'m, D: Address, S: Address, C: Cost> Book<'m, D, S, C> {
    // An empty book; the memory stays as found.
    pub fn new(places: &'m mut [Record<D, S, C>]) -> Self
        ensures { (result.used ≡ 0) × (result.places.now ≡ places.old) }
    {
        Book { places, used: 0 }
    }

    // How many filters are in the book.
    pub fn len(&self) -> usize
        ensures { result ≡ self.now.used }
    {
        self.used
    }

    // How many filters there is room for.
    pub fn capacity(&self) -> usize
        ensures { result ≡ capacity_of (length self.now.places.now) }
    {
        self.places.len().min(MOST)
    }

    // Empties the book; the memory stays as found.
    pub fn clear(&mut self)
        ensures count { self.new.used ≡ 0 }
        ensures memory { self.new.places.now ≡ self.old.places.now }
    {
        self.used = 0;
    }

    // Whether a filter of the book has the label.
    pub fn contains(&self, label: u16) -> bool
        ensures { result ≡ has label (labels (in_use self.now)) }
    {
        self.place_of(label).is_some()
    }

    // The places in use, in the book's order.
    pub fn records(&self) -> &[Record<D, S, C>]
        ensures { result.now ≡ in_use self.now }
    {
        &self.places[..self.used]
    }

    // The place of a filter by its label.
    fn place_of(&self, label: u16) -> Option<usize>
        ensures { result ≡ position (λ r. r.label == label) (in_use self.now) }
    {
        self.records().iter().position(|place| place.label == label)
    }

    // The filter at a place, counted from 0: what was put in; none behind the last.
    pub fn get(&self, at: usize) -> Option<Filter<D, S, C>>
        ensures meaning { option_to_list (option_map (rule_of D.Address.string S.Address.string) result) ≡ rules D.Address.spells S.Address.spells C.Written.reads (take 1 (drop at (in_use self.now))) }
        ensures back { (f : Filter D S C) → take 1 (drop at (in_use self.now)) ≡ record_of D.Written.pattern S.Written.pattern C.Written.pattern f ∷ [] → result ≡ Some f }
    {
        filter_at(self.records(), at)
    }

    // The first refusal of a filter that comes to this book.
    fn check(&self, filter: &Filter<D, S, C>) -> Result<(), FilterFault>
        ensures { result ≡ filter_verdict D.Address.string S.Address.string D.Address.WIDTH S.Address.WIDTH (has filter.now.label (labels (in_use self.now))) filter.now }
    {
        check_filter(filter, self.contains(filter.label))
    }

    // Puts a filter behind the last. A refused filter changes nothing.
    pub fn add(&mut self, filter: &Filter<D, S, C>) -> Result<(), AddFault>
        ensures answer { result ≡ add_verdict (capacity_of (length self.old.places.now)) self.old.used (filter_verdict D.Address.string S.Address.string D.Address.WIDTH S.Address.WIDTH (has filter.now.label (labels (in_use self.old))) filter.now) }
        ensures memory { self.new.places.now ≡ after result (slice_set self.old.places.now self.old.used (record_of D.Written.pattern S.Written.pattern C.Written.pattern filter.now)) self.old.places.now }
        ensures count { self.new.used ≡ after result (self.old.used + 1) self.old.used }
        ensures meaning { rules D.Address.spells S.Address.spells C.Written.reads (in_use self.new) ≡ after result (rules D.Address.spells S.Address.spells C.Written.reads (in_use self.old) ++ rule_of D.Address.string S.Address.string filter.now ∷ []) (rules D.Address.spells S.Address.spells C.Written.reads (in_use self.old)) }
    {
        self.check(filter)?;
        if self.used >= self.capacity() {
            return Err(AddFault::Full);
        }
        let record = to_record(filter);
        let Book { places, used } = self;
        put(places, *used, record);
        *used += 1;
        Ok(())
    }

    // Takes out the filter of a label: later filters move down by one place, and the last place used keeps its content.
    pub fn withdraw(&mut self, label: u16) -> Result<(), WithdrawFault>
        ensures answer { result ≡ withdraw_verdict (has label (labels (in_use self.old))) }
        ensures memory { self.new.places.now ≡ after result (without (λ x. x.label) label (in_use self.old) ++ drop (self.old.used - 1) self.old.places.now) self.old.places.now }
        ensures count { self.new.used ≡ after result (self.old.used - 1) self.old.used }
        ensures meaning { rules D.Address.spells S.Address.spells C.Written.reads (in_use self.new) ≡ after result (without (λ f. f.label) label (rules D.Address.spells S.Address.spells C.Written.reads (in_use self.old))) (rules D.Address.spells S.Address.spells C.Written.reads (in_use self.old)) }
    {
        let Some(at) = self.place_of(label) else {
            return Err(WithdrawFault::UnknownLabel);
        };
        let Book { places, used } = self;
        *used = take_out(places, *used, at);
        Ok(())
    }

    // Makes the book exactly the filters of a table, in its order; places behind them stay. The whole table is checked before
    // the first place is written, so a refused table changes nothing. It answers how many filters the table has.
    pub fn load(&mut self, table: &[u8]) -> Result<usize, LoadFault>
        ensures answer { result ≡ load_verdict (kind_of D.Written) (kind_of S.Written) (kind_of C.Written) C.Written.value (capacity_of (length self.old.places.now)) table.now }
        ensures memory { Loaded (entry_of D.Written.number S.Written.number C.Written.number) (decode (kind_of D.Written) (kind_of S.Written) (kind_of C.Written) table.now) self.old.places.now self.new.places.now result }
        ensures count { self.new.used ≡ count_after result self.old.used }
        ensures meaning { rules D.Address.spells S.Address.spells C.Written.reads (in_use self.new) ≡ after result (table_rules (kind_of D.Written) (kind_of S.Written) (kind_of C.Written) C.Written.value table.now) (rules D.Address.spells S.Address.spells C.Written.reads (in_use self.old)) }
    {
        let Book { places, used } = self;
        *used = load_table::<D, S, C>(table, places)?;
        Ok(*used)
    }

    // Writes the book as a table from the buffer's start, and answers how many bytes that is; book and later bytes stay.
    pub fn write(&self, buffer: &mut [u8]) -> Result<usize, WriteFault>
        ensures answer { result ≡ write_verdict (kind_of D.Written) (kind_of S.Written) (kind_of C.Written) self.now.used (length buffer.old) }
        ensures memory { buffer.new ≡ written result (encode (kind_of D.Written) (kind_of S.Written) (kind_of C.Written) (map (entry_of D.Written.number S.Written.number C.Written.number) (in_use self.now))) buffer.old }
    {
        write_table::<D, S, C>(self.records(), buffer)
    }
}
