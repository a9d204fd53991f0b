// Prefixes of addresses: how an address and the first bits of another agree.
ghost use Rattle.std.specs.Prelude.{◌≡◌, ◌/◌, ◌^◌, take};
ghost use Rattle.kinds.specs.Strings.{starts};

use crate::address::Address;
use crate::plain::Plain;
use crate::written::Written;

// The number of a value without so many of its last bits.
fn front<W: Written>(value: &W, behind: u32) -> u128
    ensures { result ≡ W.Written.number (W.Written.pattern value.now) / 2 ^ behind }
{
    value.write().wide().unbounded_shr(behind)
}

// Whether the first `length` bits of `prefix` begin `address`; past the width no bit is left to differ.
pub fn is_prefix<A: Address>(prefix: &A, length: u32, address: &A) -> bool
    ensures { result ≡ starts (take length (A.Address.string prefix.now)) (A.Address.string address.now) }
{
    let behind = A::WIDTH - length.min(A::WIDTH);
    front(prefix, behind) == front(address, behind)
}
