// IPv6 addresses: kind 2, 128 bits.
ghost use Rattle.std.proofs.Common.{ltb→lt};

use crate::number::{AddressNumbers, Number, NumberKind};

#[derive(Clone, Copy, PartialEq, Eq, PartialOrd, Ord, Debug)]
pub struct V6;

impl NumberKind for V6 {
    const CODE: u8 = 2;

    ghost CODE = { 2 };

    ghost low = { ltb→lt 2 16 tt };

    const NAME: &'static str = "Ipv6";
}

impl AddressNumbers for V6 {}

// The most significant bit of the number is the first of the address.
pub type Ipv6 = Number<V6, u128>;
