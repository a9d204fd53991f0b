// The refusals of a filter, in their order.
ghost use Rattle.std.specs.Prelude.{◌≡◌, ℕ};
ghost use Rattle.filters.specs.Refusals.{stray, body_verdict, filter_verdict};

use crate::directive::Directive;
use crate::fault::FilterFault;
use crate::filter::{Filter, Prefix};
use kinds::address::Address;
use kinds::bits::Bits;
use kinds::cost::Cost;

// Whether a bit of the address is set at a place or behind it.
fn has_bit_from<A: Address>(address: &A, first: u32) -> bool
    ensures { result ≡ stray first (A.Address.string address.now) }
{
    Bits::of(address).skip(first as usize).any(|bit| bit)
}

// Whether a bit is set behind the prefix's length.
pub fn has_stray_bit<A: Address>(prefix: &Prefix<A>) -> bool
    ensures { result ≡ stray prefix.now.length (A.Address.string prefix.now.address) }
{
    has_bit_from(&prefix.address, prefix.length as u32)
}

// The first refusal of two prefixes and a directive.
pub fn check_body<D: Address, S: Address>(
    destination: &Prefix<D>,
    source: &Prefix<S>,
    directive: Directive,
) -> Result<(), FilterFault>
    ensures { result ≡ body_verdict D.Address.string S.Address.string D.Address.WIDTH S.Address.WIDTH destination.now source.now directive }
{
    if destination.length as u32 > D::WIDTH || source.length as u32 > S::WIDTH {
        return Err(FilterFault::LongPrefix);
    }
    if has_stray_bit(destination) || has_stray_bit(source) {
        return Err(FilterFault::StrayBit);
    }
    if !directive.is_lawful() {
        return Err(FilterFault::BadDirective);
    }
    Ok(())
}

// The first refusal of a filter; `used` says whether its label is in use already.
pub fn check_filter<D: Address, S: Address, C: Cost>(
    filter: &Filter<D, S, C>,
    used: bool,
) -> Result<(), FilterFault>
    ensures { result ≡ filter_verdict D.Address.string S.Address.string D.Address.WIDTH S.Address.WIDTH used filter.now }
{
    if filter.label == 0 {
        return Err(FilterFault::ZeroLabel);
    }
    check_body(&filter.destination, &filter.source, filter.directive)?;
    if used {
        return Err(FilterFault::LabelInUse);
    }
    Ok(())
}
