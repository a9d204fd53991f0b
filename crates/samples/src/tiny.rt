// A small kind of 8 bits: narrow enough that every pair of its addresses can be looked up.
ghost use Rattle.std.proofs.Common.{ltb→lt};

use kinds::number::{AddressNumbers, Number, NumberKind};

#[derive(Clone, Copy, PartialEq, Eq, PartialOrd, Ord, Debug)]
pub struct Tinies;

impl NumberKind for Tinies {
    const CODE: u8 = 15;

    ghost CODE = { 15 };

    ghost low = { ltb→lt 15 16 tt };

    const NAME: &'static str = "Tiny";
}

impl AddressNumbers for Tinies {}

pub type Tiny = Number<Tinies, u8>;
