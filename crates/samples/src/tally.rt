// How many lookups were compared and how many of them differed, and the sums of what they answered.
ghost use Rattle.std.specs.Prelude.{◌≡◌, ℕ, ◌+◌, ◌-◌, ◌^◌, min, if◌then◌else◌, MatchOption};

use filters::directive::Directive;
use std::fmt;

#[derive(Clone, Copy, PartialEq, Eq, Debug)]
pub struct Tally {
    compared: u32,
    differed: u32,
    labels: u64,
    visits: u64,
}

impl Tally {
    // No lookup is counted yet.
    pub fn new() -> Tally
        ensures compared { result.compared ≡ 0 }
        ensures differed { result.differed ≡ 0 }
        ensures labels { result.labels ≡ 0 }
        ensures visits { result.visits ≡ 0 }
    {
        Tally {
            compared: 0,
            differed: 0,
            labels: 0,
            visits: 0,
        }
    }

    // Counts a lookup by its answer, and by whether that is what was wanted. Each count stops at the most that it can hold.
    pub fn count(&mut self, answer: (Option<(u16, Directive)>, u32), wanted: bool)
        ensures compared { self.new.compared ≡ min (self.old.compared + 1) (2 ^ 32 - 1) }
        ensures differed { self.new.differed ≡ (if wanted then self.old.differed else min (self.old.differed + 1) (2 ^ 32 - 1)) }
        ensures labels { MatchOption answer.0 (self.new.labels ≡ self.old.labels) (λ c. self.new.labels ≡ min (self.old.labels + c.0) (2 ^ 64 - 1)) }
        ensures visits { self.new.visits ≡ min (self.old.visits + answer.1) (2 ^ 64 - 1) }
    {
        let (choice, visits) = answer;
        self.compared = self.compared.saturating_add(1);
        if !wanted {
            self.differed = self.differed.saturating_add(1);
        }
        if let Some((label, _)) = choice {
            self.labels = self.labels.saturating_add(label as u64);
        }
        self.visits = self.visits.saturating_add(visits as u64);
    }

    // How many lookups were compared.
    pub fn compared(&self) -> u32
        ensures { result ≡ self.now.compared }
    {
        let Tally { compared, .. } = *self;
        compared
    }
}

// What is told behind the number of lookups.
impl fmt::Display for Tally {
    fn fmt<W: fmt::Write>(&self, f: &mut fmt::Formatter<W>) -> fmt::Result {
        write!(
            f,
            "compared, {} differed (labels {}, visits {})",
            self.differed, self.labels, self.visits
        )
    }
}
