//! Words that are read where they lie.
ghost use Rattle.std.specs.Prelude.{◌≡◌, ◌<◌, ◌+◌, ◌++◌, ◌∷◌, [], ◌^◌};
ghost use Rattle.std.specs.Int.{from_le_bytes, w64};
ghost use Rattle.arrayvec.specs.ArrayVec.{array_vec_len};
ghost use Rattle.field_words.specs.Words.{u32_at};
ghost use Rattle.machine_plan.specs.Memory.{bytes_at};
ghost use Rattle.machine_plan.specs.Plan.{access};
ghost use Rattle.qpu_machine.specs.State.{Read};

use byteorder::{ByteOrder, LittleEndian};
use field_words::Way;
use machine_plan::{Accesses, Reader, list_access, read_bytes};
use phys_mem::PhysMem;

/// Reads the word at this place.
#[tactic(auto, unfolding(field_words::specs::Words::u32_at))]
pub(crate) fn read_word(place: u32, reader: &Reader, accesses: &mut Accesses) -> u32
    requires { array_vec_len accesses.old < 270 }
    ensures value { result ≡ u32_at (bytes_at reader.now.memory.now place 4) 0 }
    ensures items { accesses.new.items ≡ accesses.old.items ++ access reader.now.who Read place 4 ∷
        [] }
    ensures len { array_vec_len accesses.new ≡ array_vec_len accesses.old + 1 }
{
    list_access(reader.who, Way::Read, u64::from(place), 4, accesses);
    LittleEndian::read_u32(&read_bytes(reader.memory, u64::from(place), 4))
}

/// The word of the instruction at this place.
pub(crate) fn instruction_at(place: u64, memory: &PhysMem) -> u64
    requires { place < 2 ^ 62 }
    ensures { result ≡ from_le_bytes w64 (bytes_at memory.now place 8) }
{
    LittleEndian::read_u64(&read_bytes(memory, place, 8))
}
