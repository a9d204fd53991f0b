// Kinds whose values are whole numbers of all the bits of a type: the pattern of a value is its number.
ghost use Rattle.std.specs.Prelude.{◌≡◌, ℕ, ◌^◌, ◌<◌, ⊤, is_some, refl};
ghost use Rattle.std.proofs.Common.{ap, sym, rules};
ghost use Rattle.kinds.specs.Strings.{bits};
ghost use Rattle.kinds.specs.Bits.{length_bits};
ghost use Rattle.kinds.specs.Patterns.{fitting};
ghost use Rattle.kinds.specs.Packed.{fitting_some, fitting_back};

use crate::address::Address;
use crate::plain::Whole;
use crate::written::{PatternFault, Written};
use std::alloc::AllocError;
use std::fmt;
use std::marker::PhantomData;

// What tells one kind of numbers from another.
pub trait NumberKind: Copy {
    const CODE: u8;

    ghost CODE: { ℕ };

    ghost low: { CODE < 16 };

    // What a value is called where it is printed for debugging.
    const NAME: &'static str = "Number";
}

// Those whose numbers are addresses.
pub trait AddressNumbers: NumberKind {}

// A value of the kind K, whose numbers are of the type P.
#[derive(PartialEq, Eq, PartialOrd, Ord)]
pub struct Number<K: NumberKind, P: Whole> {
    number: P,
    kind: PhantomData<K>,
    ghost fits: { P.number number < 2 ^ P.BITS },
}

impl<K: NumberKind, P: Whole> Copy for Number<K, P> {}

// Not derived: no derive makes a Clone of a generic struct with a ghost field.
impl<K: NumberKind, P: Whole> Clone for Number<K, P> {
    ghost is_clone = { λ it copy. copy ≡ it };

    ghost is_infallible = { λ _. ⊤ };

    fn clone(&self) -> Result<Self, AllocError> {
        Ok(*self)
    }
}

// Not derived: each kind is told by its own name.
impl<K: NumberKind, P: Whole + fmt::Debug> fmt::Debug for Number<K, P> {
    fn fmt<W: fmt::Write>(&self, f: &mut fmt::Formatter<W>) -> fmt::Result {
        f.debug_struct(K::NAME)
            .field("number", &self.number)
            .finish()
    }
}

// With the lemma a body that cuts a number to its own bits is proved too: what the edits plant is refused for its value alone.
impl<K: NumberKind, P: Whole> Number<K, P> {
    // The value of a number.
    #[tactic(auto, using(crate::proofs::Cuts::cut_small))]
    pub fn new(number: P) -> Self
        ensures { result.number ≡ number }
    {
        Number {
            number: number.in_range(),
            kind: PhantomData,
        }
    }

    // The value as a number.
    #[tactic(auto, using(crate::proofs::Cuts::cut_small))]
    pub fn to_bits(&self) -> P
        ensures { result ≡ self.now.number }
    {
        self.number
    }
}

impl<K: NumberKind, P: Whole> Written for Number<K, P> {
    type Pattern = P;

    const CODE: u8 = K::CODE;

    const SIZE: u32 = P::BITS;

    ghost CODE = { K.CODE };

    ghost SIZE = { P.BITS };

    ghost number = { P.number };

    ghost pattern = { λ x. x.number };

    ghost reads = { fitting P.number (2 ^ P.BITS) (λ p h. record { number = p; kind = record {}; fits = h }) };

    ghost value = { λ n. fitting P.number (2 ^ P.BITS) (λ p h. record { number = p; kind = record {}; fits = h }) (P.of n) };

    ghost low = { K.low };

    ghost bytes = { P.bytes };

    ghost short = { P.short };

    ghost held = { Prim.search rules };

    ghost plain = { Prim.search rules };

    ghost fits = { λ x. x.fits };

    ghost valued = { λ p. ap (fitting P.number (2 ^ P.BITS) (λ q h. record { number = q; kind = record {}; fits = h })) (sym (P.same (P.of (P.number p)) p (P.kept (P.number p)))) };

    ghost again = { λ x. fitting_some P.number (2 ^ P.BITS) (λ p h. record { number = p; kind = record {}; fits = h }) x.number x.fits };

    ghost back = { fitting_back P.number (2 ^ P.BITS) (λ p h. record { number = p; kind = record {}; fits = h }) (λ x. x.number) (λ p h. refl) };

    fn read(from: P) -> Result<Self, PatternFault> {
        Ok(Number::new(from))
    }

    fn write(&self) -> P {
        self.to_bits()
    }
}

impl<K: AddressNumbers, P: Whole> Address for Number<K, P> {
    const WIDTH: u32 = P::BITS;

    ghost WIDTH = { P.BITS };

    ghost spells = { λ p. bits P.BITS (P.number p) };

    ghost string = { λ x. bits P.BITS (P.number x.number) };

    ghost span = { Prim.search rules };

    ghost first = { Prim.search rules };

    ghost spelt = { Prim.search rules };

    ghost long = { λ x. length_bits P.BITS (P.number x.number) };

    ghost every = { λ p h. ap is_some (fitting_some P.number (2 ^ P.BITS) (λ q k. record { number = q; kind = record {}; fits = k }) p h) };

    fn of(from: P) -> Self {
        Number::new(from)
    }
}
