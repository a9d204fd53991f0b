// Filters by a linear congruential generator, so that every run and every other tool makes the same ones.
ghost use Rattle.std.specs.Prelude.{◌≡◌};
ghost use Rattle.samples.specs.Draws.{next, drawn};

use crate::address::address;
use filters::directive::Directive;
use filters::filter::{Filter, Prefix};
use kinds::address::Address;
use kinds::rank::Rank;

#[derive(Clone, Copy)]
pub struct Generator {
    state: u64,
}

impl Generator {
    pub fn new(seed: u64) -> Generator
        ensures { result.state ≡ seed }
    {
        Generator { state: seed }
    }

    // The next number: the upper half of the state, of which the lower bits repeat soon.
    pub fn draw(&mut self) -> u32
        ensures state { self.new.state ≡ next self.old.state }
        ensures number { result ≡ drawn (next self.old.state) }
    {
        let next = self
            .state
            .wrapping_mul(6364136223846793005)
            .wrapping_add(1442695040888963407);
        self.state = next;
        (next >> 32) as u32
    }
}

// The bits of a number behind its first `length` places.
pub fn behind(length: u32) -> u32 {
    u32::MAX.checked_shr(length).unwrap_or(0)
}

// A prefix of an address of at most 32 bits.
fn draw_prefix<A: Address>(generator: &mut Generator) -> Prefix<A> {
    let width = A::WIDTH.min(32);
    let length = generator.draw() % (width + 1);
    let bits = generator.draw() & !behind(length);
    Prefix {
        address: address(bits),
        length: length as u8,
    }
}

// What a filter of this label does: each of the three forms, in turn.
fn directive_of(label: u16) -> Directive {
    let line = (label % 63) as u8 + 1;
    match label % 3 {
        0 => Directive::Block,
        1 => Directive::Line(line),
        _ => Directive::Reserve {
            line,
            rate: label as u32,
        },
    }
}

// A filter of a label, with prefixes, cost and directive as they are drawn.
pub fn draw_filter<A: Address>(generator: &mut Generator, label: u16) -> Filter<A, A, Rank> {
    let destination = draw_prefix(generator);
    let source = draw_prefix(generator);
    Filter {
        label,
        destination,
        source,
        cost: Rank::new(generator.draw() % 64),
        directive: directive_of(label),
    }
}
