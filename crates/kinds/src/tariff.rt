// Tariffs: cost kind 2, a class from 0 to 9 (4 bits) and a price (28 bits); the smaller class is before, then the smaller price.
ghost use Rattle.std.specs.Prelude.{◌≡◌, ℕ, ◌+◌, ◌*◌, ◌/◌, ◌%◌, ◌^◌, ◌<◌, ◌≤◌, MatchOption, MatchResult};
ghost use Rattle.kinds.specs.declared.written.PatternFault.TheVariants.{Unlawful};
ghost use Rattle.std.specs.Ordering.{ordering_then};
ghost use Rattle.kinds.specs.Ordered.{by_number};
ghost use Rattle.kinds.specs.Parts.{class_fits, price_fits, priced_class, priced_price, priced_below};
ghost use Rattle.kinds.specs.Packed.{below_again, same_two};
ghost use Rattle.kinds.specs.Patterns.{below};
ghost use Rattle.std.proofs.Common.{rules, arith};

use crate::cost::Cost;
use crate::written::{PatternFault, Written};
use std::cmp::Ordering;

#[derive(Clone, Copy, PartialEq, Eq, PartialOrd, Ord, Debug)]
pub struct Tariff {
    class: u8,
    price: u32,
    ghost classes: { class < 10 },
    ghost prices: { price < 2 ^ 28 },
}

impl Tariff {
    // The tariff of a class and a price, or none where one is too large.
    pub fn new(class: u8, price: u32) -> Option<Tariff>
        ensures { MatchOption result ((class < 10) × (price < 2 ^ 28) → ⊥) (λ x. (x.class ≡ class) × (x.price ≡ price)) }
    {
        if class < 10 && price < 0x1000_0000 {
            Some(Tariff { class, price })
        } else {
            None
        }
    }

    pub fn class(&self) -> u8
        ensures { result ≡ self.now.class }
    {
        self.class
    }

    pub fn price(&self) -> u32
        ensures { result ≡ self.now.price }
    {
        self.price
    }

    // How two tariffs compare: by class, and within one class by price.
    pub fn against(&self, other: &Tariff) -> Ordering
        ensures { result ≡ ordering_then (by_number self.now.class other.now.class) (by_number self.now.price other.now.price) }
    {
        self.compare(other)
    }
}

// The tariff that is packed into a number; a number whose class is too large is refused.
impl TryFrom<u32> for Tariff {
    type Error = PatternFault;

    ghost try_from_gives = { λ n r. MatchResult r (λ x. x.class * 2 ^ 28 + x.price ≡ n) (λ e. (e ≡ Unlawful) × (10 * 2 ^ 28 ≤ n)) };

    fn try_from(number: u32) -> Result<Tariff, PatternFault> {
        let class = (number >> 28) as u8;
        if class < 10 {
            Ok(Tariff {
                class,
                price: low_28(number),
            })
        } else {
            Err(PatternFault::Unlawful)
        }
    }
}

// The number into which a tariff is packed.
impl From<Tariff> for u32 {
    ghost from_gives = { λ x n. n ≡ x.class * 2 ^ 28 + x.price };

    fn from(tariff: Tariff) -> u32 {
        (tariff.class as u32) << 28 | tariff.price
    }
}

// The lowest 28 bits.
fn low_28(n: u32) -> u32
    ensures { result ≡ n % 2 ^ 28 }
{
    n & 0x0fff_ffff
}

impl Written for Tariff {
    type Pattern = u32;

    const CODE: u8 = 2;

    const SIZE: u32 = 32;

    ghost CODE = { 2 };

    ghost SIZE = { 32 };

    ghost number = { λ p. p };

    ghost pattern = { λ x. x.class * 2 ^ 28 + x.price };

    ghost reads = { below (10 * 2 ^ 28) (λ n h. record { class = n / 2 ^ 28; price = n % 2 ^ 28; classes = class_fits n h; prices = price_fits n }) };

    ghost value = { below (10 * 2 ^ 28) (λ n h. record { class = n / 2 ^ 28; price = n % 2 ^ 28; classes = class_fits n h; prices = price_fits n }) };

    ghost low = { Prim.search rules };

    ghost bytes = { Prim.search rules };

    ghost short = { Prim.search rules };

    ghost held = { Prim.search rules };

    ghost plain = { Prim.search rules };

    ghost fits = { Prim.search rules };

    ghost valued = { Prim.search rules };

    ghost again = { below_again (10 * 2 ^ 28) (λ n h. record { class = n / 2 ^ 28; price = n % 2 ^ 28; classes = class_fits n h; prices = price_fits n }) (λ x. x.class * 2 ^ 28 + x.price) (λ x. priced_below x.class x.price x.classes x.prices) (λ x h. same_two (λ c p i j. record { class = c; price = p; classes = i; prices = j }) (priced_class x.class x.price x.prices) (priced_price x.class x.price x.prices) (class_fits (x.class * 2 ^ 28 + x.price) h) (price_fits (x.class * 2 ^ 28 + x.price)) x.classes x.prices) };

    ghost back = { Prim.search rules };

    fn read(from: u32) -> Result<Self, PatternFault> {
        Tariff::try_from(from)
    }

    fn write(&self) -> u32 {
        u32::from(*self)
    }
}

impl Cost for Tariff {
    ghost order = { λ x y. ordering_then (by_number x.class y.class) (by_number x.price y.price) };

    ghost exchange = { Prim.search rules };

    ghost chain = { Prim.search rules };

    fn compare(&self, other: &Self) -> Ordering {
        self.cmp(other)
    }
}
