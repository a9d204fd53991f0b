// Plain whole numbers: what a pattern is kept as in memory that is handed in. One impl a type: std's bounds on numbers, as Into<u128>,
// say nothing of the number in generic code, and a macro may not write impls.
ghost use Rattle.std.specs.Prelude.{◌≡◌, ℕ, ◌%◌, ◌^◌, ◌<◌, ◌≤◌};
ghost use Rattle.std.proofs.Common.{rules};
ghost use Rattle.kinds.specs.Strings.{weighs};

pub trait Plain: Copy {
    // the number that is kept, and how many bits the type has
    ghost number: { Self → ℕ };

    ghost span: { ℕ };

    fn wide(self) -> u128
        ensures { result ≡ number self };

    // The lowest bits of n, as many as the type has.
    fn narrow(n: u128) -> Self
        ensures { number result ≡ n % 2 ^ span };

    // Whether 2 ^ weight is among the powers of two that add up to the number.
    fn has_bit(self, weight: u32) -> bool
        ensures { result ≡ weighs (number self) weight }
    {
        let number = self.wide();
        weight < 128 && (number >> weight) % 2 == 1
    }

    ghost same: { (a b : Self) → number a ≡ number b → a ≡ b };
}

// Plain numbers of whole bytes, where every number is kept.
pub trait Whole: Plain {
    // how many bits the type has
    const BITS: u32;

    ghost BITS: { ℕ };

    // what keeps a number
    ghost of: { ℕ → Self };

    // The number itself, which the type has bits enough for.
    fn in_range(self) -> Self
        ensures same { result ≡ self }
        ensures fits { Self.Plain.number result < 2 ^ BITS };

    ghost spans: { BITS ≡ Self.Plain.span };

    ghost kept: { (n : ℕ) → Self.Plain.number (of n) ≡ n };

    ghost bytes: { BITS % 8 ≡ 0 };

    ghost short: { BITS ≤ 128 };
}

impl Plain for u8 {
    ghost number = { λ n. n };

    ghost span = { 8 };

    ghost same = { Prim.search rules };

    fn wide(self) -> u128 {
        self as u128
    }

    fn narrow(n: u128) -> u8 {
        (n % 0x100) as u8
    }
}

impl Whole for u8 {
    const BITS: u32 = 8;

    ghost BITS = { 8 };

    ghost of = { λ n. n };

    ghost spans = { Prim.search rules };

    ghost kept = { Prim.search rules };

    ghost bytes = { Prim.search rules };

    ghost short = { Prim.search rules };

    fn in_range(self) -> u8 {
        self
    }
}

impl Plain for u16 {
    ghost number = { λ n. n };

    ghost span = { 16 };

    ghost same = { Prim.search rules };

    fn wide(self) -> u128 {
        self as u128
    }

    fn narrow(n: u128) -> u16 {
        (n % 0x1_0000) as u16
    }
}

impl Whole for u16 {
    const BITS: u32 = 16;

    ghost BITS = { 16 };

    ghost of = { λ n. n };

    ghost spans = { Prim.search rules };

    ghost kept = { Prim.search rules };

    ghost bytes = { Prim.search rules };

    ghost short = { Prim.search rules };

    fn in_range(self) -> u16 {
        self
    }
}

impl Plain for u32 {
    ghost number = { λ n. n };

    ghost span = { 32 };

    ghost same = { Prim.search rules };

    fn wide(self) -> u128 {
        self as u128
    }

    fn narrow(n: u128) -> u32 {
        (n % 0x1_0000_0000) as u32
    }
}

impl Whole for u32 {
    const BITS: u32 = 32;

    ghost BITS = { 32 };

    ghost of = { λ n. n };

    ghost spans = { Prim.search rules };

    ghost kept = { Prim.search rules };

    ghost bytes = { Prim.search rules };

    ghost short = { Prim.search rules };

    fn in_range(self) -> u32 {
        self
    }
}

impl Plain for u64 {
    ghost number = { λ n. n };

    ghost span = { 64 };

    ghost same = { Prim.search rules };

    fn wide(self) -> u128 {
        self as u128
    }

    fn narrow(n: u128) -> u64 {
        (n % 0x1_0000_0000_0000_0000) as u64
    }
}

impl Whole for u64 {
    const BITS: u32 = 64;

    ghost BITS = { 64 };

    ghost of = { λ n. n };

    ghost spans = { Prim.search rules };

    ghost kept = { Prim.search rules };

    ghost bytes = { Prim.search rules };

    ghost short = { Prim.search rules };

    fn in_range(self) -> u64 {
        self
    }
}

impl Plain for u128 {
    ghost number = { λ n. n };

    ghost span = { 128 };

    ghost same = { Prim.search rules };

    fn wide(self) -> u128 {
        self
    }

    fn narrow(n: u128) -> u128 {
        n
    }
}

impl Whole for u128 {
    const BITS: u32 = 128;

    ghost BITS = { 128 };

    ghost of = { λ n. n };

    ghost spans = { Prim.search rules };

    ghost kept = { Prim.search rules };

    ghost bytes = { Prim.search rules };

    ghost short = { Prim.search rules };

    fn in_range(self) -> u128 {
        self
    }
}
