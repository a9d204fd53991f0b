// The bits of an address, one after another, the most significant first.
ghost use Rattle.std.specs.Prelude.{◌≡◌, ℕ, ◌≤◌, Bool, List, take, drop};
ghost use Rattle.std.specs.Iterator.{YieldsFirst, item_count};

use crate::address::Address;
use std::marker::Model;

// The bits that are still to come, seen as their string.
#[derive(Drop)]
pub struct Bits<'a, A: Address> {
    address: &'a A,
    at: u32,
    end: u32,
}

impl<'a, A: Address> Model for Bits<'a, A> {
    ghost Value = { List Bool };

    ghost view = { λ b. drop b.at (take b.end (A.Address.string b.address.now)) };

    ghost invariant = { λ b. b.end ≤ A.Address.WIDTH };
}

impl<'a, A: Address> Bits<'a, A> {
    // All bits of an address.
    pub fn of(address: &'a A) -> Self
        ensures { result ≡ A.Address.string address.now }
    {
        Bits {
            address,
            at: 0,
            end: A::WIDTH,
        }
    }

    // The first bits of an address, as many as `length` says; past the width there are none.
    pub fn first(address: &'a A, length: u32) -> Self
        ensures { result ≡ take length (A.Address.string address.now) }
    {
        Bits {
            address,
            at: 0,
            end: length.min(A::WIDTH),
        }
    }
}

impl<'a, A: Address> Iterator for Bits<'a, A> {
    type Item = bool;

    ghost next_gives = { YieldsFirst (λ s. s) };

    ghost remaining = { item_count (λ s. s) };

    fn next(&mut self) -> Option<bool> {
        if self.at >= self.end {
            return None;
        }
        let bit = self.address.bit(self.at);
        self.at += 1;
        Some(bit)
    }
}
