//! The physical memory in which jobs are laid out and the machine runs.
//!
//! Contracts see it as the list of its bytes, and nothing above depends on how it is kept. It is one
//! raw block: a pointer, a length, and three values that take no space or are the allocator itself.
//! Why that is right:
//!
//! - `Contents` is the one owner of the bytes at the pointer, and `Deed` is the right to give the
//!   block back. Neither can be copied, and only the functions of `block` make or use up either.
//! - The invariant ties both to this pointer, this length and this allocator, so that the block goes
//!   back once, to where it came from, with the size that it was taken with. `drop` does that.
//! - Each byte is written before any is read: `new` fills the room with zeros before `Contents` is
//!   made, and `Contents` owns as many bytes as the length says.
//! - A read goes through a `&` to `Contents`, a write through a `&mut`. So the borrow checker keeps
//!   readers and a writer apart, and no slice outlives the block.
//! - Three functions alone follow the pointer: `show`, `lend` and `give`. Their places are below the
//!   length, which is below 2^32, so that no sum wraps. A block of size 0 has a pointer too.
#![tactic(auto)]

mod block;
mod contents;
mod deed;

ghost use Rattle.std.specs.Prelude.{◌≡◌, ◌+◌, ◌≤◌, ◌<◌, ◌^◌, length, slice_index, IfOk};
ghost use Rattle.std.specs.Borrow.{sem};
ghost use Rattle.field_words.specs.Words.{u32_at};
ghost use Rattle.field_words.specs.Writes.{with_bytes, zeros};
ghost use Rattle.phys_mem.specs.Window.{LendsWindow, window_of};

use block::{fill, give, lend, settle, show, take};
use byteorder::{ByteOrder, LittleEndian};
use contents::Contents;
use deed::Deed;
use field_words::NoMemory;
use std::alloc::Global;
use std::marker::Model;

/// One block of memory. Contracts see it as the list of its bytes.
pub struct PhysMem {
    ptr: *mut u8,
    len: u32,
    contents: Contents,
    deed: Deed<Global>,
    alloc: Global,
}

impl Model for PhysMem {
    ghost use Rattle.std.specs.Prelude.{◌≡◌, ℕ, ◌<◌, ◌^◌, List, length};

    ghost Value = { List ℕ };

    ghost view = { λ m. m.contents.bytes };

    ghost invariant = { λ m. (m.contents.at ≡ m.ptr) × (length m.contents.bytes ≡ m.len) × (m.len < 2 ^ 32)
        × (m.deed.ptr ≡ m.ptr) × (m.deed.size ≡ m.len) × (m.deed.alloc ≡ m.alloc) };
}

impl Drop for PhysMem {
    fn drop(self) {
        let PhysMem {
            ptr,
            len,
            contents,
            deed,
            alloc,
        } = self;
        give(&alloc, ptr, len as usize, contents, deed);
    }
}

impl PhysMem {
    /// A memory of `size` zero bytes. It may run out of memory.
    #[tactic(auto, unfolding(field_words::specs::Writes::zeros))]
    pub fn new(alloc: Global, size: u32) -> Result<PhysMem, NoMemory>
        ensures { IfOk result (λ m. m ≡ zeros size) }
    {
        let (mut bytes, deed) = take(&alloc, size as usize)?;
        fill(&mut bytes, size as usize);
        let ptr = bytes.as_mut_ptr();
        let contents = settle(bytes);
        Ok(PhysMem {
            ptr,
            len: size,
            contents,
            deed,
            alloc,
        })
    }

    /// The number of bytes, which is below 2^32.
    pub fn len(&self) -> u32
        ensures value { result ≡ length self.now }
        ensures fits { length self.now < 2 ^ 32 }
    {
        self.len
    }

    /// The byte at `place`.
    pub fn read_byte(&self, place: u32) -> u8
        requires { place < length self.now }
        ensures { result ≡ slice_index self.now place }
    {
        show(&self.contents, self.ptr, self.len as usize)[place as usize]
    }

    /// The number in the four bytes from `place` on, little endian.
    #[tactic(auto, unfolding(field_words::specs::Words::u32_at))]
    pub fn read_word(&self, place: u32) -> u32
        requires { place + 4 ≤ length self.now }
        ensures { result ≡ u32_at self.now place }
    {
        LittleEndian::read_u32(&show(&self.contents, self.ptr, self.len as usize)[place as usize..])
    }

    /// Puts `part` at `place`. No other byte changes.
    pub fn write_bytes(&mut self, place: u32, part: &[u8])
        requires { place + length part.now ≤ length self.old }
        ensures { self.new ≡ with_bytes self.old place part.now }
    {
        let inside = lend(&mut self.contents, self.ptr, place as usize, part.len());
        inside.copy_from_slice(part);
    }

    /// Lends the `len` bytes from `place` on for writing. When the borrow ends, the bytes inside are
    /// the window's and all others are as before.
    pub fn window(&mut self, place: u32, len: u32) -> &mut [u8]
        requires { place + len ≤ length self.old }
        ensures* writes_back { sem 𝓛 (LendsWindow self.entry place result) }
        ensures value { result.now ≡ window_of self.old place len }
    {
        lend(&mut self.contents, self.ptr, place as usize, len as usize)
    }
}
