// Fields of bits: the head's, and a directive's.
ghost use Rattle.std.specs.Prelude.{◌≡◌, ℕ, ◌^◌, ◌<◌, [], ◌∷◌};
ghost use Rattle.tables.specs.Bytes.{fields, pack};
ghost use Rattle.tables.specs.Directives.{directive_of, directive_number};
ghost use Rattle.tables.specs.Format.{head_widths};

use filters::directive::Directive;

// The head of a table: edition, the codes of its kinds, and how many filters follow.
#[derive(Clone, Copy)]
pub(crate) struct Head {
    pub(crate) edition: u8,
    pub(crate) destination: u8,
    pub(crate) source: u8,
    pub(crate) cost: u8,
    pub(crate) count: u16,
}

// The head that a number of 32 bits holds.
impl From<u32> for Head {
    ghost from_gives = { λ n head. head.edition ∷ head.destination ∷ head.source ∷ head.cost ∷ head.count ∷ [] ≡ fields head_widths n };

    fn from(from: u32) -> Head {
        Head {
            edition: (from >> 24) as u8,
            destination: (from >> 20 & 0xf) as u8,
            source: (from >> 16 & 0xf) as u8,
            cost: (from >> 12 & 0xf) as u8,
            count: (from & 0xfff) as u16,
        }
    }
}

// The number of 32 bits that holds the head.
impl From<Head> for u32 {
    ghost from_gives = { λ head n. n ≡ pack head_widths (head.edition ∷ head.destination ∷ head.source ∷ head.cost ∷ head.count ∷ []) };

    fn from(head: Head) -> u32 {
        (head.edition as u32) << 24
            | (head.destination as u32 & 0xf) << 20
            | (head.source as u32 & 0xf) << 16
            | (head.cost as u32 & 0xf) << 12
            | head.count as u32 & 0xfff
    }
}

// A function and no `From`, as the next one: both types are of other crates, and a type between them is no plainer.
// The directive that a number of 32 bits holds. Fields that break the rules of their form give line 0, which is unlawful.
pub(crate) fn unpack_directive(from: u32) -> Directive
    ensures { result ≡ directive_of from }
{
    let line = (from >> 24 & 0x3f) as u8;
    let rate = from & 0xff_ffff;
    match from >> 30 {
        0 if line == 0 && rate == 0 => Directive::Block,
        1 if rate == 0 => Directive::Line(line),
        2 => Directive::Reserve { line, rate },
        _ => Directive::Line(0),
    }
}

// The number of 32 bits that holds the directive.
pub(crate) fn pack_directive(directive: Directive) -> u32
    ensures { result ≡ directive_number directive }
{
    match directive {
        Directive::Block => 0,
        Directive::Line(line) => 1 << 30 | (line as u32 & 0x3f) << 24,
        Directive::Reserve { line, rate } => 2 << 30
            | (line as u32 & 0x3f) << 24
            | rate & 0xff_ffff,
    }
}
