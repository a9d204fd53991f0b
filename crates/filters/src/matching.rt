// When a filter matches, and which of two is the better.
ghost use Rattle.std.specs.Prelude.{◌≡◌};
ghost use Rattle.std.specs.Option.{option_map};
ghost use Rattle.filters.specs.Rules.{matches, better, pick, only};
ghost use Rattle.filters.specs.Meaning.{rule_of};

use crate::filter::Filter;
use kinds::address::Address;
use kinds::cost::Cost;
use kinds::prefix::is_prefix;

// Whether the filter's prefixes are prefixes of the two addresses.
pub fn is_match<D: Address, S: Address, C: Cost>(
    filter: &Filter<D, S, C>,
    destination: &D,
    source: &S,
) -> bool
    ensures { result ≡ matches (D.Address.string destination.now) (S.Address.string source.now) (rule_of D.Address.string S.Address.string filter.now) }
{
    is_prefix(
        &filter.destination.address,
        filter.destination.length as u32,
        destination,
    ) && is_prefix(&filter.source.address, filter.source.length as u32, source)
}

// Whether the first filter is better: its cost is before, or equal and its label is the smaller.
pub fn is_better<D: Address, S: Address, C: Cost>(
    first: &Filter<D, S, C>,
    second: &Filter<D, S, C>,
) -> bool
    ensures { result ≡ better C.Cost.order (rule_of D.Address.string S.Address.string first.now) (rule_of D.Address.string S.Address.string second.now) }
{
    let costs = first.cost.compare(&second.cost);
    costs.then(first.label.cmp(&second.label)).is_lt()
}
