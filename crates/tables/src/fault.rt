// Why a table is refused, and where; why a table is not written.
ghost use Rattle.std.specs.Prelude.{◌≡◌};
ghost use Rattle.tables.specs.declared.fault.LoadFault.TheVariants.{Head, Record};
ghost use Rattle.tables.specs.declared.fault.RecordFault.TheVariants.{Filter, Pattern};
ghost use Rattle.tables.specs.Faults.{head_number, record_number, table_number, refused_record, write_number};

use filters::fault::FilterFault;
use kinds::written::PatternFault;

// Why a table is refused by its head and its length.
#[derive(Clone, Copy, PartialEq, Eq, Debug)]
pub enum HeadFault {
    // too short for a head
    Short = 15,
    // another edition or another kind
    Kind = 16,
    // the length is not that of the head and its records
    Length = 17,
    // more filters than there is room for
    Full = 6,
}

impl HeadFault {
    // The number of the refusal.
    pub fn number(self) -> u8
        ensures { result ≡ head_number self }
    {
        self as u8
    }
}

// Why a record is refused: by the layer that refuses it.
#[derive(Clone, Copy, PartialEq, Eq, Debug)]
pub enum RecordFault {
    // the filter is unlawful, or its label is in an earlier record
    Filter(FilterFault),
    // the cost's pattern is unlawful
    Pattern(PatternFault),
}

impl RecordFault {
    // The number of the refusal.
    pub fn number(self) -> u8
        ensures { result ≡ record_number self }
    {
        match self {
            RecordFault::Filter(inner) => inner.number(),
            RecordFault::Pattern(inner) => inner.number(),
        }
    }
}

impl From<FilterFault> for RecordFault {
    ghost from_gives = { λ e r. r ≡ Filter e };

    fn from(fault: FilterFault) -> RecordFault {
        RecordFault::Filter(fault)
    }
}

impl From<PatternFault> for RecordFault {
    ghost from_gives = { λ e r. r ≡ Pattern e };

    fn from(fault: PatternFault) -> RecordFault {
        RecordFault::Pattern(fault)
    }
}

// A refused record, counted from 1.
#[derive(Clone, Copy, PartialEq, Eq, Debug)]
pub struct InRecord {
    pub record: u16,
    pub fault: RecordFault,
}

// Why a table is not loaded: by its head, or by one of its records.
#[derive(Clone, Copy, PartialEq, Eq, Debug)]
pub enum LoadFault {
    Head(HeadFault),
    Record(InRecord),
}

impl From<HeadFault> for LoadFault {
    ghost from_gives = { λ e r. r ≡ Head e };

    fn from(fault: HeadFault) -> LoadFault {
        LoadFault::Head(fault)
    }
}

impl From<InRecord> for LoadFault {
    ghost from_gives = { λ e r. r ≡ Record e };

    fn from(refused: InRecord) -> LoadFault {
        LoadFault::Record(refused)
    }
}

impl LoadFault {
    // The number of the refusal.
    pub fn number(self) -> u8
        ensures { result ≡ table_number self }
    {
        match self {
            LoadFault::Head(fault) => fault.number(),
            LoadFault::Record(refused) => refused.fault.number(),
        }
    }

    // The record that is refused, counted from 1; 0 for the head.
    pub fn record(self) -> u16
        ensures { result ≡ refused_record self }
    {
        match self {
            LoadFault::Head(_) => 0,
            LoadFault::Record(refused) => refused.record,
        }
    }
}

// Why a table is not written.
#[derive(Clone, Copy, PartialEq, Eq, Debug)]
pub enum WriteFault {
    // the buffer has no room for the table
    Short = 19,
}

impl WriteFault {
    // The number of the refusal.
    pub fn number(self) -> u8
        ensures { result ≡ write_number self }
    {
        self as u8
    }
}
