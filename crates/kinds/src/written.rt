// A written kind: values that have a code, a number of bits, and a pattern that reads as the value again.
ghost use Rattle.std.specs.Prelude.{◌≡◌, ℕ, ◌%◌, ◌^◌, ◌<◌, ◌≤◌, Some, Option};
ghost use Rattle.std.specs.Option.{ok_or};
ghost use Rattle.kinds.specs.declared.written.PatternFault.TheVariants.{Unlawful};
ghost use Rattle.kinds.specs.Patterns.{pattern_number};

use crate::plain::Plain;

// Why a pattern is not read.
#[derive(Clone, Copy, PartialEq, Eq, Debug)]
pub enum PatternFault {
    // no value of the kind is written so
    Unlawful = 18,
}

impl PatternFault {
    // The number of the refusal.
    pub fn number(self) -> u8
        ensures { result ≡ pattern_number self }
    {
        self as u8
    }
}

pub trait Written: Copy {
    type Pattern: Plain;

    // the code of the kind, and how many bits a pattern has
    const CODE: u8;

    const SIZE: u32;

    ghost CODE: { ℕ };

    ghost SIZE: { ℕ };

    // a pattern as a number, the pattern of a value, and what a pattern reads as, and the number of one: nothing where it is
    // unlawful
    ghost number: { Self.Pattern → ℕ };

    ghost pattern: { Self → Self.Pattern };

    ghost reads: { Self.Pattern → Option Self };

    ghost value: { ℕ → Option Self };

    // The value of a lawful pattern; any other is refused.
    fn read(from: Self::Pattern) -> Result<Self, PatternFault>
        ensures { result ≡ ok_or (reads from) Unlawful };

    fn write(&self) -> Self::Pattern
        ensures { result ≡ pattern self.now };

    ghost low: { CODE < 16 };

    ghost bytes: { SIZE % 8 ≡ 0 };

    ghost short: { SIZE ≤ 128 };

    ghost held: { SIZE ≤ Self.Pattern.Plain.span };

    ghost plain: { (p : Self.Pattern) → number p ≡ Self.Pattern.Plain.number p };

    ghost fits: { (x : Self) → number (pattern x) < 2 ^ SIZE };

    // a pattern reads as its number does
    ghost valued: { (p : Self.Pattern) → reads p ≡ value (number p) };

    // every value is written as a lawful pattern that reads as that value
    ghost again: { (x : Self) → reads (pattern x) ≡ Some x };

    // what a lawful pattern reads as is written as that pattern
    ghost back: { (p : Self.Pattern) (x : Self) → reads p ≡ Some x → pattern x ≡ p };
}
