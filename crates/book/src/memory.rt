// Writing places of memory that is lent.
ghost use Rattle.std.specs.Prelude.{◌≡◌, suc, ◌-◌, ◌<◌, ◌≤◌, [], ◌∷◌, length, take, drop, Some, slice_set};
ghost use Rattle.std.proofs.Math.Seq.{paste};
ghost use Rattle.std.specs.Option.{option_map, option_to_list};
ghost use Rattle.filters.specs.declared.filter.Filter.{Filter};
ghost use Rattle.filters.specs.Meaning.{record_of, rule_of, held, rules};

use filters::convert::to_filter;
use filters::filter::{Filter, Record};
use kinds::address::Address;
use kinds::cost::Cost;

// Writes one place.
pub(crate) fn put<R: Copy>(places: &mut [R], at: usize, value: R)
    requires { at < length places.old }
    ensures { places.new ≡ slice_set places.old at value }
{
    places[at] = value;
}

// Takes one of the first `used` places out: later ones move down, and the last keeps its content. Answers how many are left.
pub(crate) fn take_out<R: Copy>(places: &mut [R], used: usize, at: usize) -> usize
    requires { (at < used) × (used ≤ length places.old) }
    ensures memory { places.new ≡ paste places.old at (drop (suc at) places.old) (used - 1 - at) }
    ensures count { result ≡ used - 1 }
{
    places.copy_within(at + 1..used, at);
    used - 1
}

// The filter that a place holds, if it holds one.
fn filter_of<D: Address, S: Address, C: Cost>(place: &Record<D, S, C>) -> Option<Filter<D, S, C>>
    ensures meaning { option_to_list (option_map (rule_of D.Address.string S.Address.string) result) ≡ held D.Address.spells S.Address.spells C.Written.reads place.now }
    ensures back { (f : Filter D S C) → place.now ≡ record_of D.Written.pattern S.Written.pattern C.Written.pattern f → result ≡ Some f }
{
    to_filter(place).ok()
}

// The filter that a place holds; none behind the last place.
pub(crate) fn filter_at<D: Address, S: Address, C: Cost>(
    places: &[Record<D, S, C>],
    at: usize,
) -> Option<Filter<D, S, C>>
    ensures meaning { option_to_list (option_map (rule_of D.Address.string S.Address.string) result) ≡ rules D.Address.spells S.Address.spells C.Written.reads (take 1 (drop at places.now)) }
    ensures back { (f : Filter D S C) → take 1 (drop at places.now) ≡ record_of D.Written.pattern S.Written.pattern C.Written.pattern f ∷ [] → result ≡ Some f }
{
    filter_of(places.get(at)?)
}
