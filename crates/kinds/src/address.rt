// An address kind: its values mean strings of bits, all of one width.
ghost use Rattle.std.specs.Prelude.{◌≡◌, ℕ, ◌^◌, ◌<◌, true, false, length, is_some, Some, slice_index_or};
ghost use Rattle.kinds.specs.Strings.{Str, bits, weighs};

use crate::plain::Plain;
use crate::written::Written;

// Whether 2 ^ weight is among the powers of two that add up to the number of a value.
fn weighs<W: Written>(value: &W, weight: u32) -> bool
    requires { weight < W.Written.SIZE }
    ensures { result ≡ weighs (W.Written.number (W.Written.pattern value.now)) weight }
{
    value.write().has_bit(weight)
}

pub trait Address: Written {
    const WIDTH: u32;

    // the number of bits, the string that a pattern spells, and the string that a value means
    ghost WIDTH: { ℕ };

    ghost spells: { Self.Pattern → Str };

    ghost string: { Self → Str };

    // The address of a pattern, which means what the pattern spells.
    fn of(from: Self::Pattern) -> Self
        ensures string { string result ≡ spells from }
        ensures lawful { Self.Written.number from < 2 ^ WIDTH → Self.Written.reads from ≡ Some result };

    // The bit at place i, counted from 0; beyond the width it is 0.
    final fn bit(&self, i: u32) -> bool
        ensures { result ≡ slice_index_or (string self.now) i false }
    {
        i < Self::WIDTH && weighs(self, Self::WIDTH - 1 - i)
    }

    ghost span: { WIDTH ≡ Self.Written.SIZE };

    // a pattern spells its bits, the most significant first, and a value means what its pattern spells
    ghost first: { (p : Self.Pattern) → spells p ≡ bits WIDTH (Self.Written.number p) };

    ghost spelt: { (x : Self) → string x ≡ spells (Self.Written.pattern x) };

    ghost long: { (x : Self) → length (string x) ≡ WIDTH };

    // every pattern is lawful
    ghost every: { (p : Self.Pattern) → Self.Written.number p < 2 ^ WIDTH → is_some (Self.Written.reads p) ≡ true };
}
