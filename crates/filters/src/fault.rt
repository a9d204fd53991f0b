// Why a filter is refused.
ghost use Rattle.std.specs.Prelude.{◌≡◌};
ghost use Rattle.filters.specs.Refusals.{filter_number};

#[derive(Clone, Copy, PartialEq, Eq, Debug)]
pub enum FilterFault {
    // the label is 0
    ZeroLabel = 1,
    // a prefix is longer than its kind is wide
    LongPrefix = 2,
    // a bit is set behind a prefix's length
    StrayBit = 3,
    // the directive's numbers are out of range
    BadDirective = 4,
    // another filter has the label
    LabelInUse = 5,
}

impl FilterFault {
    // The number of the refusal.
    pub fn number(self) -> u8
        ensures { result ≡ filter_number self }
    {
        self as u8
    }
}
