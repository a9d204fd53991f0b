// Loading: the whole table is checked before the first place is written.
ghost use Rattle.std.specs.Prelude.{◌≡◌, ℕ, ◌≤◌, Bool, true, map, length, take, drop, IfOk, Ok, OnOk};
ghost use Rattle.tables.specs.Format.{kind_of, entry_of, decode, entries};
ghost use Rattle.tables.specs.Memory.{Loaded, Labelled};
ghost use Rattle.tables.specs.Verdict.{Tells, table_verdict};

use crate::check::check_table;
use crate::fault::LoadFault;
use crate::record::{read_record, record_size};
use filters::filter::Record;
use kinds::address::Address;
use kinds::cost::Cost;

// Puts records into the first places; those behind stay.
fn read_records<D: Address, S: Address, C: Cost>(records: &[u8], places: &mut [Record<D, S, C>])
    requires { length (entries (kind_of D.Written) (kind_of S.Written) (kind_of C.Written) records.now) ≤ length places.old }
    ensures read { map (entry_of D.Written.number S.Written.number C.Written.number) (take (length (entries (kind_of D.Written) (kind_of S.Written) (kind_of C.Written) records.now)) places.new) ≡ entries (kind_of D.Written) (kind_of S.Written) (kind_of C.Written) records.now }
    ensures kept { drop (length (entries (kind_of D.Written) (kind_of S.Written) (kind_of C.Written) records.now)) places.new ≡ drop (length (entries (kind_of D.Written) (kind_of S.Written) (kind_of C.Written) records.now)) places.old }
{
    let size = record_size::<D, S, C>();
    // `places[i]` and no `zip`: of places lent to an `iter_mut` in a `zip` the loop's proof has no name, and it does not close.
    for (i, record) in records.chunks_exact(size).enumerate() {
        places[i] = read_record::<D, S, C>(record);
    }
}

// Loads a table into places: accepted, its filters are in the first places, in their order, and those behind stay, and the
// answer is how many they are; refused, all places stay.
pub fn load_table<D: Address, S: Address, C: Cost>(
    bytes: &[u8],
    places: &mut [Record<D, S, C>],
) -> Result<usize, LoadFault>
    ensures answer { (lawful : ℕ → Bool) → Tells C.Written.number C.Written.reads lawful → result ≡ table_verdict (kind_of D.Written) (kind_of S.Written) (kind_of C.Written) lawful (length places.old) bytes.now }
    ensures accepted { IfOk result (λ n. table_verdict (kind_of D.Written) (kind_of S.Written) (kind_of C.Written) (λ _. true) (length places.old) bytes.now ≡ Ok n) }
    ensures labels { OnOk result (Labelled (decode (kind_of D.Written) (kind_of S.Written) (kind_of C.Written) bytes.now)) }
    ensures memory { Loaded (entry_of D.Written.number S.Written.number C.Written.number) (decode (kind_of D.Written) (kind_of S.Written) (kind_of C.Written) bytes.now) places.old places.new result }
{
    let count = check_table::<D, S, C>(bytes, places.len())?;
    read_records::<D, S, C>(&bytes[4..], places);
    Ok(count)
}
