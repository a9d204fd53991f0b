// Ranks: cost kind 1, a 32-bit number; the smaller is before the larger.
ghost use Rattle.std.specs.Prelude.{◌≡◌};
ghost use Rattle.kinds.specs.Ordered.{by_number};
ghost use Rattle.std.proofs.Common.{ltb→lt, rules};

use crate::cost::Cost;
use crate::number::{Number, NumberKind};
use std::cmp::Ordering;

#[derive(Clone, Copy, PartialEq, Eq, PartialOrd, Ord, Debug)]
pub struct Ranks;

impl NumberKind for Ranks {
    const CODE: u8 = 1;

    ghost CODE = { 1 };

    ghost low = { ltb→lt 1 16 tt };

    const NAME: &'static str = "Rank";
}

pub type Rank = Number<Ranks, u32>;

impl Rank {
    pub fn number(&self) -> u32
        ensures { result ≡ self.now.number }
    {
        self.to_bits()
    }

    // How two ranks compare: as their numbers do.
    pub fn against(&self, other: &Rank) -> Ordering
        ensures { result ≡ by_number self.now.number other.now.number }
    {
        self.compare(other)
    }
}

impl Cost for Rank {
    ghost order = { λ x y. by_number x.number y.number };

    ghost exchange = { Prim.search rules };

    ghost chain = { Prim.search rules };

    fn compare(&self, other: &Self) -> Ordering {
        self.cmp(other)
    }
}
