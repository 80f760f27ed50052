//! Reads of memory that are listed, and the end of a step that is undefined.
ghost use Rattle.std.specs.Prelude.{◌≡◌, false, ◌≤◌, ◌<◌, ◌+◌, ◌^◌, ◌++◌, ◌∷◌, []};
ghost use Rattle.arrayvec.specs.ArrayVec.{array_vec_len};
ghost use Rattle.field_words.specs.Words.{u32_at};
ghost use Rattle.list_machine.specs.State.{Read, Wild};
ghost use Rattle.machine_plan.specs.Memory.{bytes_at};
ghost use Rattle.machine_plan.specs.Plan.{access};

use arrayvec::ArrayVec;
use byteorder::{ByteOrder, LittleEndian};
use field_words::Way;
use machine_plan::{Accesses, Reader, Who, list_access, read_bytes};

/// Reads the `len` bytes from `place` on, and lists the read.
pub(crate) fn read_listed(
    place: u64,
    len: u32,
    reader: &Reader,
    accesses: &mut Accesses,
) -> ArrayVec<u8, 16>
    requires few { len ≤ 16 }
    requires near { place < 2 ^ 63 }
    requires room { array_vec_len accesses.old < 272 }
    ensures value { result.items ≡ bytes_at reader.now.memory.now place len }
    ensures size { array_vec_len result ≡ len }
    ensures items { accesses.new.items
        ≡ accesses.old.items ++ access reader.now.who Read place len ∷ [] }
    ensures len { array_vec_len accesses.new ≡ array_vec_len accesses.old + 1 }
{
    list_access(reader.who, Way::Read, place, len, accesses);
    read_bytes(reader.memory, place, len as usize)
}

/// Reads the word at `place`, and lists the read.
#[tactic(auto, unfolding(field_words::specs::Words::u32_at))]
pub(crate) fn read_word(place: u64, reader: &Reader, accesses: &mut Accesses) -> u32
    requires near { place < 2 ^ 63 }
    requires room { array_vec_len accesses.old < 272 }
    ensures value { result ≡ u32_at (bytes_at reader.now.memory.now place 4) 0 }
    ensures items { accesses.new.items ≡ accesses.old.items ++ access reader.now.who Read place 4 ∷
        [] }
    ensures len { array_vec_len accesses.new ≡ array_vec_len accesses.old + 1 }
{
    let bytes = read_listed(place, 4, reader, accesses);
    LittleEndian::read_u32(&bytes)
}

/// Lists that the step is undefined. It is false, as the result of such a step.
pub(crate) fn end_wild(who: Who, accesses: &mut Accesses) -> bool
    requires { array_vec_len accesses.old < 272 }
    ensures items { accesses.new.items ≡ accesses.old.items ++ access who Wild 0 0 ∷ [] }
    ensures wild { result ≡ false }
{
    list_access(who, Way::Wild, 0, 0, accesses);
    false
}
