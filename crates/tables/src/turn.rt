// Loading and writing one after the other: what was written is loaded again, and what was loaded is written again.
ghost use Rattle.std.specs.Prelude.{◌≡◌, ℕ, ◌≤◌, Bool, List, map, length};
ghost use Rattle.tables.specs.declared.turn.TurnFault.TheVariants.{Load, Write};
ghost use Rattle.filters.specs.declared.filter.Filter.{Filter};
ghost use Rattle.filters.specs.Meaning.{record_of};
ghost use Rattle.tables.specs.Format.{kind_of, entry_of, filter_count, encode, decode};
ghost use Rattle.tables.specs.Laws.{Holds};
ghost use Rattle.tables.specs.Memory.{write_verdict, written};
ghost use Rattle.tables.specs.Turn.{load_turn, write_load, Placed, Into, Rewritten, Reloaded};
ghost use Rattle.tables.specs.Verdict.{Tells, table_verdict};

use crate::fault::{LoadFault, WriteFault};
use crate::laws::reads_back;
use crate::load::load_table;
use crate::write::write_table;
use filters::filter::Record;
use kinds::address::Address;
use kinds::cost::Cost;

// Why a table is not turned around.
#[derive(Clone, Copy, PartialEq, Eq, Debug)]
pub enum TurnFault {
    // it is not loaded
    Load(LoadFault),
    // it is not written
    Write(WriteFault),
}

impl From<LoadFault> for TurnFault {
    ghost from_gives = { λ e r. r ≡ Load e };

    fn from(fault: LoadFault) -> TurnFault {
        TurnFault::Load(fault)
    }
}

impl From<WriteFault> for TurnFault {
    ghost from_gives = { λ e r. r ≡ Write e };

    fn from(fault: WriteFault) -> TurnFault {
        TurnFault::Write(fault)
    }
}

// Loads a table into places and writes it again: the buffer then begins with the same bytes.
pub fn load_and_write<D: Address, S: Address, C: Cost>(
    bytes: &[u8],
    places: &mut [Record<D, S, C>],
    buffer: &mut [u8],
) -> Result<usize, TurnFault>
    ensures answer { (lawful : ℕ → Bool) → Tells C.Written.number C.Written.reads lawful → result ≡ load_turn (table_verdict (kind_of D.Written) (kind_of S.Written) (kind_of C.Written) lawful (length places.old) bytes.now) (λ n. write_verdict (kind_of D.Written) (kind_of S.Written) (kind_of C.Written) n (length buffer.old)) }
    ensures places { Placed (entry_of D.Written.number S.Written.number C.Written.number) (decode (kind_of D.Written) (kind_of S.Written) (kind_of C.Written) bytes.now) places.old places.new (filter_count bytes.now) result }
    ensures same { Rewritten bytes.now buffer.old buffer.new result }
{
    let count = load_table::<D, S, C>(bytes, places)?;
    let length = write_table::<D, S, C>(&places[..count], buffer)?;
    Ok(length)
}

// Writes the table of places and loads it into other ones: where the places held lawful filters, those are then the same.
pub fn write_and_load<D: Address, S: Address, C: Cost>(
    places: &[Record<D, S, C>],
    buffer: &mut [u8],
    into: &mut [Record<D, S, C>],
) -> Result<usize, TurnFault>
    ensures answer { (lawful : ℕ → Bool) → Tells C.Written.number C.Written.reads lawful → result ≡ write_load (write_verdict (kind_of D.Written) (kind_of S.Written) (kind_of C.Written) (length places.now) (length buffer.old)) (table_verdict (kind_of D.Written) (kind_of S.Written) (kind_of C.Written) lawful (length into.old) (encode (kind_of D.Written) (kind_of S.Written) (kind_of C.Written) (map (entry_of D.Written.number S.Written.number C.Written.number) places.now))) }
    ensures bytes { buffer.new ≡ written (write_verdict (kind_of D.Written) (kind_of S.Written) (kind_of C.Written) (length places.now) (length buffer.old)) (encode (kind_of D.Written) (kind_of S.Written) (kind_of C.Written) (map (entry_of D.Written.number S.Written.number C.Written.number) places.now)) buffer.old }
    ensures memory { Into (entry_of D.Written.number S.Written.number C.Written.number) (decode (kind_of D.Written) (kind_of S.Written) (kind_of C.Written) (encode (kind_of D.Written) (kind_of S.Written) (kind_of C.Written) (map (entry_of D.Written.number S.Written.number C.Written.number) places.now))) into.old into.new result }
    ensures same { (lawful : ℕ → Bool) → Tells C.Written.number C.Written.reads lawful → (fs : List (Filter D S C)) → places.now ≡ map (record_of D.Written.pattern S.Written.pattern C.Written.pattern) fs → Holds D.Address.string S.Address.string D.Address.WIDTH S.Address.WIDTH (length into.old) fs → Reloaded places.now into.old into.new result }
{
    reads_back::<D, S, C>();
    let length = write_table::<D, S, C>(places, buffer)?;
    let count = load_table::<D, S, C>(&buffer[..length], into)?;
    Ok(count)
}
