// Which tables are accepted, and which refusal another one meets at which record.
ghost use Rattle.std.specs.Prelude.{◌≡◌, ℕ, ◌+◌, ◌*◌, ◌<◌, ◌≤◌, Bool, true, [], length, take, drop, IfOk, Ok, OnOk};
ghost use Rattle.kinds.specs.Strings.{bits};
ghost use Rattle.filters.specs.Meaning.{respelt};
ghost use Rattle.filters.specs.Refusals.{body_verdict};
ghost use Rattle.tables.specs.Format.{kind_of, entry_of, filter_count, table_size, record_size, entries};
ghost use Rattle.tables.specs.Verdict.{Tells, has, labels, counted, behind_records, entry_verdict, entries_verdict, head_verdict, table_verdict};

use crate::fault::{HeadFault, InRecord, LoadFault, RecordFault};
use crate::field::Head;
use crate::number::number_of;
use crate::record::{label_of, read_record, record_size};
use filters::check::check_body;
use filters::directive::Directive;
use filters::fault::FilterFault;
use filters::filter::{Filter, Prefix, Record};
use kinds::address::Address;
use kinds::cost::Cost;
use kinds::written::Written;

// The first refusal of two prefixes, whose addresses are patterns, and of a directive.
fn check_prefixes<D: Address, S: Address>(
    destination: &Prefix<D::Pattern>,
    source: &Prefix<S::Pattern>,
    directive: Directive,
) -> Result<(), FilterFault>
    ensures { result ≡ body_verdict (bits D.Written.SIZE) (bits S.Written.SIZE) D.Written.SIZE S.Written.SIZE (respelt D.Written.number destination.now) (respelt S.Written.number source.now) directive }
{
    check_body(
        &Prefix::<D>::of(destination),
        &Prefix::<S>::of(source),
        directive,
    )
}

// The first refusal of a record; `used` says whether its label is in use already.
fn check_record<D: Address, S: Address, C: Cost>(
    place: &Record<D, S, C>,
    used: bool,
) -> Result<(), RecordFault>
    ensures answer { (lawful : ℕ → Bool) → Tells C.Written.number C.Written.reads lawful → result ≡ entry_verdict (kind_of D.Written) (kind_of S.Written) (kind_of C.Written) lawful used (entry_of D.Written.number S.Written.number C.Written.number place.now) }
    ensures passed { OnOk result (entry_verdict (kind_of D.Written) (kind_of S.Written) (kind_of C.Written) (λ _. true) used (entry_of D.Written.number S.Written.number C.Written.number place.now) ≡ Ok tt) }
{
    if place.label == 0 {
        return Err(RecordFault::Filter(FilterFault::ZeroLabel));
    }
    C::read(place.cost)?;
    check_prefixes::<D, S>(&place.destination, &place.source, place.directive)?;
    if used {
        return Err(RecordFault::Filter(FilterFault::LabelInUse));
    }
    Ok(())
}

// Whether one of the records has the label.
fn is_label_in<D: Address, S: Address, C: Cost>(records: &[u8], label: u16) -> bool
    ensures { result ≡ has label (labels (entries (kind_of D.Written) (kind_of S.Written) (kind_of C.Written) records.now)) }
{
    records
        .chunks_exact(record_size::<D, S, C>())
        .any(|record| label_of(record) == label)
}

// The records before a place, counted from 0.
fn earlier<D: Address, S: Address, C: Cost>(records: &[u8], i: usize) -> &[u8]
    requires { i * record_size (kind_of D.Written) (kind_of S.Written) (kind_of C.Written) ≤ length records.now }
    ensures { result.now ≡ take (i * record_size (kind_of D.Written) (kind_of S.Written) (kind_of C.Written)) records.now }
{
    let size = record_size::<D, S, C>();
    &records[..i * size]
}

// The answer on the record at a place, counted from 0: a refusal names the record, counted from 1.
fn in_record(i: usize, answer: Result<(), RecordFault>) -> Result<(), InRecord>
    requires { i < 4095 }
    ensures { result ≡ counted (i + 1) answer }
{
    answer.map_err(|fault| InRecord {
        record: i as u16 + 1,
        fault,
    })
}

// The first refusal of records, if there is one.
fn check_records<D: Address, S: Address, C: Cost>(records: &[u8]) -> Result<(), InRecord>
    requires { length (entries (kind_of D.Written) (kind_of S.Written) (kind_of C.Written) records.now) ≤ 4095 }
    ensures answer { (lawful : ℕ → Bool) → Tells C.Written.number C.Written.reads lawful → behind_records (length (entries (kind_of D.Written) (kind_of S.Written) (kind_of C.Written) records.now)) result ≡ entries_verdict (kind_of D.Written) (kind_of S.Written) (kind_of C.Written) lawful [] (entries (kind_of D.Written) (kind_of S.Written) (kind_of C.Written) records.now) }
    ensures passed { OnOk result (entries_verdict (kind_of D.Written) (kind_of S.Written) (kind_of C.Written) (λ _. true) [] (entries (kind_of D.Written) (kind_of S.Written) (kind_of C.Written) records.now) ≡ Ok (length (entries (kind_of D.Written) (kind_of S.Written) (kind_of C.Written) records.now))) }
{
    let size = record_size::<D, S, C>();
    for (i, record) in records.chunks_exact(size).enumerate() {
        let place = read_record::<D, S, C>(record);
        let used = is_label_in::<D, S, C>(earlier::<D, S, C>(records, i), place.label);
        in_record(i, check_record::<D, S, C>(&place, used))?;
    }
    Ok(())
}

// The refusal of a table by its head and its length, or how many filters it has.
fn check_head<D: Address, S: Address, C: Cost>(
    bytes: &[u8],
    capacity: usize,
) -> Result<usize, HeadFault>
    ensures { result ≡ head_verdict (kind_of D.Written) (kind_of S.Written) (kind_of C.Written) capacity bytes.now }
{
    if bytes.len() < 4 {
        return Err(HeadFault::Short);
    }
    let head = Head::from(number_of(&bytes[..4]) as u32);
    if head.edition != 1
        || head.destination != D::CODE
        || head.source != S::CODE
        || head.cost != C::CODE
    {
        return Err(HeadFault::Kind);
    }
    let count = head.count as usize;
    if bytes.len() != 4 + count * record_size::<D, S, C>() {
        return Err(HeadFault::Length);
    }
    if count > capacity {
        return Err(HeadFault::Full);
    }
    Ok(count)
}

// The first refusal of a table where `capacity` filters have room, or how many filters it has: the head first, then
// record by record. `answer` is exact, given a test that tells lawful costs by their numbers; `accepted` says, with no such
// test, that head, length and every check but that of the costs are passed.
pub fn check_table<D: Address, S: Address, C: Cost>(
    bytes: &[u8],
    capacity: usize,
) -> Result<usize, LoadFault>
    ensures answer { (lawful : ℕ → Bool) → Tells C.Written.number C.Written.reads lawful → result ≡ table_verdict (kind_of D.Written) (kind_of S.Written) (kind_of C.Written) lawful capacity bytes.now }
    ensures accepted { IfOk result (λ n. (n ≡ filter_count bytes.now) × (length bytes.now ≡ table_size (kind_of D.Written) (kind_of S.Written) (kind_of C.Written) n) × (n ≤ capacity) × (table_verdict (kind_of D.Written) (kind_of S.Written) (kind_of C.Written) (λ _. true) capacity bytes.now ≡ Ok n)) }
{
    let count = check_head::<D, S, C>(bytes, capacity)?;
    check_records::<D, S, C>(&bytes[4..])?;
    Ok(count)
}
