//! Memory as the machine sees it, and the list of a step's accesses.
ghost use Rattle.std.specs.Prelude.{◌≡◌, ◌+◌, ◌≤◌, ◌<◌, ◌^◌, ◌++◌, ◌∷◌, [], slice_index, slice_set};
ghost use Rattle.arrayvec.specs.ArrayVec.{array_vec_len};
ghost use Rattle.machine_plan.specs.Memory.{bytes_at};
ghost use Rattle.machine_plan.specs.Plan.{access};

use crate::accesses::Accesses;
use crate::who::Who;
use arrayvec::ArrayVec;
use field_words::{Access, Way};
use phys_mem::PhysMem;

/// The byte at `place`, which is zero outside the memory.
pub fn byte_at(memory: &PhysMem, place: u64) -> u8
    ensures { result ≡ slice_index memory.now place }
{
    if place < memory.len() as u64 {
        memory.read_byte(place as u32)
    } else {
        0
    }
}

/// The `len` bytes from `place` on; those outside the memory are zero.
#[tactic(auto, using(crate::proofs::Memory::bytes_more), unfolding(crate::specs::Memory::bytes_at))]
pub fn read_bytes(memory: &PhysMem, place: u64, len: usize) -> ArrayVec<u8, 16>
    requires few { len ≤ 16 }
    requires room { place + len < 2 ^ 64 }
    ensures value { result.items ≡ bytes_at memory.now place len }
    ensures len { array_vec_len result ≡ len }
{
    let mut bytes = ArrayVec::new();
    for i in 0..len {
        bytes.push(byte_at(memory, place + i as u64));
    }
    bytes
}

/// Writes one byte at `place`. Outside the memory nothing changes.
#[tactic(auto, using(crate::proofs::Memory::with_one_byte, crate::proofs::Memory::set_outside))]
pub fn put_byte(memory: &mut PhysMem, place: u64, byte: u8)
    ensures { memory.new ≡ slice_set memory.old place byte }
{
    if place < memory.len() as u64 {
        memory.write_bytes(place as u32, &[byte]);
    }
}

/// Lists an access behind those already listed.
pub fn list_access(who: Who, way: Way, place: u64, len: u32, accesses: &mut Accesses)
    requires { array_vec_len accesses.old < 272 }
    ensures items { accesses.new.items ≡ accesses.old.items ++ access who way place len ∷ [] }
    ensures len { array_vec_len accesses.new ≡ array_vec_len accesses.old + 1 }
{
    accesses.push(Access {
        way,
        place,
        len,
        unit: who.unit,
        job: who.job,
    });
}
