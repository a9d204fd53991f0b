// Filters, as they come in and as they are kept in memory that is handed in.
ghost use Rattle.std.specs.Prelude.{◌≡◌, ℕ, ◌^◌, ◌<◌, Some};
ghost use Rattle.filters.specs.Meaning.{prefix_of, respelt};

use crate::directive::Directive;
use kinds::address::Address;
use kinds::bits::Bits;
use kinds::written::Written;

// An address and how many of its bits count. As it comes in the length may be anything: a book refuses what is no prefix.
#[derive(Clone, Copy, PartialEq, Eq, Debug)]
pub struct Prefix<A> {
    pub address: A,
    pub length: u8,
}

impl<A: Address> Prefix<A> {
    // The prefix whose address is kept as a pattern.
    pub fn of(kept: &Prefix<A::Pattern>) -> Self
        ensures length { result.length ≡ kept.now.length }
        ensures string { A.Address.string result.address ≡ A.Address.spells kept.now.address }
        ensures lawful { A.Written.number kept.now.address < 2 ^ A.Address.WIDTH → A.Written.reads kept.now.address ≡ Some result.address }
    {
        Prefix {
            address: A::of(kept.address),
            length: kept.length,
        }
    }

    // The prefix with its address as a pattern.
    pub fn kept(&self) -> Prefix<A::Pattern>
        ensures { result ≡ respelt A.Written.pattern self.now }
    {
        Prefix {
            address: self.address.write(),
            length: self.length,
        }
    }

    // Its bits; past the width of the kind there are none.
    pub fn bits(&self) -> Bits<'_, A>
        ensures { result ≡ prefix_of A.Address.string self.now }
    {
        Bits::first(&self.address, self.length as u32)
    }
}

// A filter of address kinds D and S and cost kind C.
#[derive(Clone, Copy, PartialEq, Eq, Debug)]
pub struct Filter<D, S, C> {
    pub label: u16,
    pub destination: Prefix<D>,
    pub source: Prefix<S>,
    pub cost: C,
    pub directive: Directive,
}

// A place for a filter: addresses and cost are kept as their patterns, plain whole numbers. It may hold anything.
pub type Record<D, S, C> = Filter<
    <D as Written>::Pattern,
    <S as Written>::Pattern,
    <C as Written>::Pattern,
>;
