// From a filter to the record that keeps it, and back. Functions and no From and TryFrom: both are filters, and std's impl of a type
// from itself would overlap.
ghost use Rattle.std.specs.Prelude.{◌≡◌, Ok};
ghost use Rattle.std.specs.Option.{option_map, option_to_list};
ghost use Rattle.std.specs.Result.{result_ok};
ghost use Rattle.filters.specs.declared.filter.Filter.{Filter};
ghost use Rattle.filters.specs.Meaning.{record_of, rule_of, held};

use crate::filter::{Filter, Prefix, Record};
use kinds::address::Address;
use kinds::cost::Cost;
use kinds::written::PatternFault;

// The record that keeps a filter.
pub fn to_record<D: Address, S: Address, C: Cost>(filter: &Filter<D, S, C>) -> Record<D, S, C>
    ensures { result ≡ record_of D.Written.pattern S.Written.pattern C.Written.pattern filter.now }
{
    Filter {
        label: filter.label,
        destination: filter.destination.kept(),
        source: filter.source.kept(),
        cost: filter.cost.write(),
        directive: filter.directive,
    }
}

// The filter that a record keeps: what was put in, and none where the cost is no lawful pattern.
pub fn to_filter<D: Address, S: Address, C: Cost>(
    place: &Record<D, S, C>,
) -> Result<Filter<D, S, C>, PatternFault>
    ensures meaning { held D.Address.spells S.Address.spells C.Written.reads place.now ≡ option_to_list (option_map (rule_of D.Address.string S.Address.string) (result_ok result)) }
    ensures back { (f : Filter D S C) → place.now ≡ record_of D.Written.pattern S.Written.pattern C.Written.pattern f → result ≡ Ok f }
{
    let cost = C::read(place.cost)?;
    Ok(Filter {
        label: place.label,
        destination: Prefix::of(&place.destination),
        source: Prefix::of(&place.source),
        cost,
        directive: place.directive,
    })
}
