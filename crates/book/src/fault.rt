// Why a call of a book is refused.
ghost use Rattle.std.specs.Prelude.{◌≡◌};
ghost use Rattle.book.specs.Books.{add_number, withdraw_number};
ghost use Rattle.book.specs.declared.fault.AddFault.TheVariants.{Filter};

use filters::fault::FilterFault;

#[derive(Clone, Copy, PartialEq, Eq, Debug)]
pub enum AddFault {
    // the filter is refused
    Filter(FilterFault),
    // the book is at capacity
    Full,
}

impl AddFault {
    // The number of the refusal.
    pub fn number(self) -> u8
        ensures { result ≡ add_number self }
    {
        match self {
            AddFault::Filter(fault) => fault.number(),
            AddFault::Full => 6,
        }
    }
}

impl From<FilterFault> for AddFault {
    ghost from_gives = { λ fault r. r ≡ Filter fault };

    fn from(fault: FilterFault) -> AddFault {
        AddFault::Filter(fault)
    }
}

#[derive(Clone, Copy, PartialEq, Eq, Debug)]
pub enum WithdrawFault {
    // no filter of the book has the label
    UnknownLabel = 7,
}

impl WithdrawFault {
    // The number of the refusal.
    pub fn number(self) -> u8
        ensures { result ≡ withdraw_number self }
    {
        self as u8
    }
}
