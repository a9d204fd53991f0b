// What becomes of a packet.
ghost use Rattle.std.specs.Prelude.{◌≡◌};
ghost use Rattle.filters.specs.Directives.{lawful};

// What a filter does with a packet. Any numbers may stand here; `is_lawful` says which are accepted.
#[derive(Clone, Copy, PartialEq, Eq, Debug)]
pub enum Directive {
    // the packet goes nowhere
    Block,
    // the packet leaves by this line
    Line(u8),
    // the packet leaves by this line, at this many kbit/s
    Reserve { line: u8, rate: u32 },
}

impl Directive {
    // Whether lines are from 1 to 63 and rates from 1 to 16,777,215.
    pub fn is_lawful(self) -> bool
        ensures { result ≡ lawful self }
    {
        match self {
            Directive::Block => true,
            Directive::Line(line) => (1..=63).contains(&line),
            Directive::Reserve { line, rate } => (1..=63).contains(&line)
                && (1..=0xff_ffff).contains(&rate),
        }
    }
}
