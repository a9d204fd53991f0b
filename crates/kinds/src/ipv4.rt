// IPv4 addresses: kind 1, 32 bits.
ghost use Rattle.std.proofs.Common.{ltb→lt};

use crate::number::{AddressNumbers, Number, NumberKind};

#[derive(Clone, Copy, PartialEq, Eq, PartialOrd, Ord, Debug)]
pub struct V4;

impl NumberKind for V4 {
    const CODE: u8 = 1;

    ghost CODE = { 1 };

    ghost low = { ltb→lt 1 16 tt };

    const NAME: &'static str = "Ipv4";
}

impl AddressNumbers for V4 {}

// The most significant bit of the number is the first of the address.
pub type Ipv4 = Number<V4, u32>;
