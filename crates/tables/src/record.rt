// One record: reading it, and writing it.
ghost use Rattle.std.specs.Prelude.{◌≡◌, ℕ, ◌+◌, ◌/◌, ◌≤◌, length, take};
ghost use Rattle.tables.specs.Bytes.{word};
ghost use Rattle.tables.specs.Format.{kind_of, entry_of, record_size, decode_record, encode_record};

use crate::field::{pack_directive, unpack_directive};
use crate::number::{number_of, pattern_of, put_number, put_pattern};
use filters::filter::{Filter, Prefix, Record};
use kinds::address::Address;
use kinds::cost::Cost;
use kinds::written::Written;

// How many bytes a pattern of the kind has.
fn bytes_of<W: Written>() -> usize
    ensures size { result ≡ W.Written.SIZE / 8 }
    ensures short { result ≤ 16 }
{
    W::SIZE as usize / 8
}

// How many bytes a record has.
pub(crate) fn record_size<D: Address, S: Address, C: Cost>() -> usize
    ensures size { result ≡ record_size (kind_of D.Written) (kind_of S.Written) (kind_of C.Written) }
    ensures short { result ≤ 56 }
{
    8 + bytes_of::<D>() + bytes_of::<S>() + bytes_of::<C>()
}

// The label of the record that the bytes begin with.
pub(crate) fn label_of(record: &[u8]) -> u16
    requires { 2 ≤ length record.now }
    ensures { result ≡ word (take 2 record.now) }
{
    number_of(&record[..2]) as u16
}

// The record that the bytes are.
pub(crate) fn read_record<D: Address, S: Address, C: Cost>(record: &[u8]) -> Record<D, S, C>
    requires { length record.now ≡ record_size (kind_of D.Written) (kind_of S.Written) (kind_of C.Written) }
    ensures { entry_of D.Written.number S.Written.number C.Written.number result ≡ decode_record (kind_of D.Written) (kind_of S.Written) (kind_of C.Written) record.now }
{
    let (label, rest) = record.split_at(2);
    let (destination_length, rest) = rest.split_at(1);
    let (destination, rest) = rest.split_at(bytes_of::<D>());
    let (source_length, rest) = rest.split_at(1);
    let (source, rest) = rest.split_at(bytes_of::<S>());
    let (cost, directive) = rest.split_at(bytes_of::<C>());
    Filter {
        label: number_of(label) as u16,
        destination: Prefix {
            length: number_of(destination_length) as u8,
            address: pattern_of::<D>(destination),
        },
        source: Prefix {
            length: number_of(source_length) as u8,
            address: pattern_of::<S>(source),
        },
        cost: pattern_of::<C>(cost),
        directive: unpack_directive(number_of(directive) as u32),
    }
}

// Writes a record into its bytes.
pub(crate) fn put_record<D: Address, S: Address, C: Cost>(
    record: &mut [u8],
    place: &Record<D, S, C>,
)
    requires { length record.old ≡ record_size (kind_of D.Written) (kind_of S.Written) (kind_of C.Written) }
    ensures { record.new ≡ encode_record (kind_of D.Written) (kind_of S.Written) (kind_of C.Written) (entry_of D.Written.number S.Written.number C.Written.number place.now) }
{
    let (label, rest) = record.split_at_mut(2);
    let (destination_length, rest) = rest.split_at_mut(1);
    let (destination, rest) = rest.split_at_mut(bytes_of::<D>());
    let (source_length, rest) = rest.split_at_mut(1);
    let (source, rest) = rest.split_at_mut(bytes_of::<S>());
    let (cost, directive) = rest.split_at_mut(bytes_of::<C>());
    put_number(label, place.label as u128);
    put_number(destination_length, place.destination.length as u128);
    put_pattern::<D>(destination, place.destination.address);
    put_number(source_length, place.source.length as u128);
    put_pattern::<S>(source, place.source.address);
    put_pattern::<C>(cost, place.cost);
    put_number(directive, pack_directive(place.directive) as u128);
}
