// Linear search: every filter is read, one after another. And standings: how many filters are better.
ghost use Rattle.std.specs.Prelude.{◌≡◌, ℕ, ◌^◌, ◌<◌, ◌≤◌, map, length, if◌then◌else◌};
ghost use Rattle.std.specs.Option.{option_map};
ghost use Rattle.filters.specs.Rules.{linear, better, pick, only, matches, scan};
ghost use Rattle.filters.specs.Orders.{Apart, BestMatch};
ghost use Rattle.filters.specs.Meaning.{rule_of, held, rules, standing_of};

use crate::convert::to_filter;
use crate::filter::{Filter, Record};
use crate::matching::{is_better, is_match};
use kinds::address::Address;
use kinds::cost::Cost;
use std::cmp::Ordering;

// The better of what is held and a candidate, if the candidate matches.
fn keep_better<D: Address, S: Address, C: Cost>(
    best: Option<Filter<D, S, C>>,
    candidate: Filter<D, S, C>,
    destination: &D,
    source: &S,
) -> Option<Filter<D, S, C>>
    ensures { option_map (rule_of D.Address.string S.Address.string) result ≡ pick (better C.Cost.order) (option_map (rule_of D.Address.string S.Address.string) best) (only (better C.Cost.order) (matches (D.Address.string destination.now) (S.Address.string source.now)) (rule_of D.Address.string S.Address.string candidate)) }
{
    if !is_match(&candidate, destination, source) {
        return best;
    }
    match best {
        None => Some(candidate),
        Some(other) => {
            if is_better(&candidate, &other) {
                Some(candidate)
            } else {
                Some(other)
            }
        }
    }
}

// The same with what a place holds, if it holds a filter.
fn consider<D: Address, S: Address, C: Cost>(
    best: Option<Filter<D, S, C>>,
    place: &Record<D, S, C>,
    destination: &D,
    source: &S,
) -> Option<Filter<D, S, C>>
    ensures { option_map (rule_of D.Address.string S.Address.string) result ≡ scan (better C.Cost.order) (option_map (rule_of D.Address.string S.Address.string) best) (map (only (better C.Cost.order) (matches (D.Address.string destination.now) (S.Address.string source.now))) (held D.Address.spells S.Address.spells C.Written.reads place.now)) }
{
    match to_filter::<D, S, C>(place) {
        Ok(candidate) => keep_better(best, candidate, destination, source),
        Err(_) => best,
    }
}

// The best filter that matches the two addresses, of all that the places hold.
pub fn linear_search<D: Address, S: Address, C: Cost>(
    places: &[Record<D, S, C>],
    destination: &D,
    source: &S,
) -> Option<Filter<D, S, C>>
    ensures answer { option_map (rule_of D.Address.string S.Address.string) result ≡ linear (better C.Cost.order) (rules D.Address.spells S.Address.spells C.Written.reads places.now) (D.Address.string destination.now) (S.Address.string source.now) }
    ensures best { Apart (rules D.Address.spells S.Address.spells C.Written.reads places.now) → BestMatch C.Cost.order (rules D.Address.spells S.Address.spells C.Written.reads places.now) (D.Address.string destination.now) (S.Address.string source.now) (option_map (rule_of D.Address.string S.Address.string) result) }
{
    let mut best = None;
    for place in places {
        best = consider(best, place, destination, source);
    }
    best
}

// Whether a place holds a filter that is better than one of this cost and label.
fn is_ahead<D: Address, S: Address, C: Cost>(place: &Record<D, S, C>, cost: &C, label: u16) -> bool
    ensures { (if result then 1 else 0) ≡ standing_of C.Cost.order (held D.Address.spells S.Address.spells C.Written.reads place.now) cost.now label }
{
    C::read(place.cost).is_ok_and(|other| other.compare(cost).then(place.label.cmp(&label)).is_lt())
}

// The standing of a filter of this cost and label: how many filters that the places hold are better.
pub fn standing<D: Address, S: Address, C: Cost>(
    places: &[Record<D, S, C>],
    cost: &C,
    label: u16,
) -> usize
    ensures { result ≡ standing_of C.Cost.order (rules D.Address.spells S.Address.spells C.Written.reads places.now) cost.now label }
{
    let mut better = 0;
    for place in places {
        better += usize::from(is_ahead::<D, S, C>(place, cost, label));
    }
    better
}
