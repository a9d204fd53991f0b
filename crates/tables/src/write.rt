// Writing a table. The buffer is lent, and its length in use is answered: there is no heap to make one in.
ghost use Rattle.std.specs.Prelude.{◌≡◌, ℕ, ◌*◌, ◌≤◌, ◌++◌, map, length, drop};
ghost use Rattle.tables.specs.Format.{kind_of, entry_of, record_size, encode, encode_head, encode_records};
ghost use Rattle.tables.specs.Memory.{write_verdict, written};

use crate::fault::WriteFault;
use crate::field::Head;
use crate::number::put_number;
use crate::record::{put_record, record_size};
use filters::filter::Record;
use kinds::address::Address;
use kinds::cost::Cost;
use kinds::written::Written;

// Writes the head of a table of `count` filters.
fn put_head<D: Address, S: Address, C: Cost>(buffer: &mut [u8], count: u16)
    requires { length buffer.old ≡ 4 }
    ensures { buffer.new ≡ encode_head (kind_of D.Written) (kind_of S.Written) (kind_of C.Written) count }
{
    let head = Head {
        edition: 1,
        destination: D::CODE,
        source: S::CODE,
        cost: C::CODE,
        count,
    };
    put_number(buffer, u32::from(head) as u128);
}

// Writes the records of places, one behind the other; later bytes stay.
fn put_records<D: Address, S: Address, C: Cost>(places: &[Record<D, S, C>], records: &mut [u8])
    requires { length places.now * record_size (kind_of D.Written) (kind_of S.Written) (kind_of C.Written) ≤ length records.old }
    ensures { records.new ≡ encode_records (kind_of D.Written) (kind_of S.Written) (kind_of C.Written) (map (entry_of D.Written.number S.Written.number C.Written.number) places.now) ++ drop (length places.now * record_size (kind_of D.Written) (kind_of S.Written) (kind_of C.Written)) records.old }
{
    let size = record_size::<D, S, C>();
    // A range by `i` and no `zip`: of bytes lent to a `chunks_exact_mut` the loop's proof has no name, and it does not close.
    for (i, place) in places.iter().enumerate() {
        put_record::<D, S, C>(&mut records[i * size..(i + 1) * size], place);
    }
}

// Writes the table of places from the buffer's start, and answers how many bytes it has; later bytes stay. A buffer without
// room is refused, and then nothing is written; so are more places than a head can count, for which no buffer has room.
pub fn write_table<D: Address, S: Address, C: Cost>(
    places: &[Record<D, S, C>],
    buffer: &mut [u8],
) -> Result<usize, WriteFault>
    ensures answer { result ≡ write_verdict (kind_of D.Written) (kind_of S.Written) (kind_of C.Written) (length places.now) (length buffer.old) }
    ensures memory { buffer.new ≡ written result (encode (kind_of D.Written) (kind_of S.Written) (kind_of C.Written) (map (entry_of D.Written.number S.Written.number C.Written.number) places.now)) buffer.old }
{
    let count = places.len();
    if count > 4095 {
        return Err(WriteFault::Short);
    }
    let needed = 4 + count * record_size::<D, S, C>();
    if buffer.len() < needed {
        return Err(WriteFault::Short);
    }
    let (head, records) = buffer.split_at_mut(4);
    put_head::<D, S, C>(head, count as u16);
    put_records::<D, S, C>(places, records);
    Ok(needed)
}
