// Addresses of any kind of at most 32 bits, by numbers of 32 bits.
use kinds::address::Address;
use kinds::plain::Plain;

// The address of the highest bits of a number.
pub fn address<A: Address>(bits: u32) -> A {
    let below = 32u32.saturating_sub(A::WIDTH);
    A::of(A::Pattern::narrow(bits.checked_shr(below).unwrap_or(0) as u128))
}
