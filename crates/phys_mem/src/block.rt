//! One block of bytes of an allocator: taken once, filled with zeros, given back once.
ghost use Rattle.std.specs.Prelude.{◌≡◌, ◌<◌, ◌^◌, [], replicate, length, ◌+◌, ◌≤◌, IfOk};
ghost use Rattle.std.specs.Borrow.{sem};
ghost use Rattle.phys_mem.specs.Contents.{LendsPart};
ghost use Rattle.phys_mem.specs.Window.{window_of};

use crate::contents::Contents;
use crate::deed::Deed;
use std::alloc::{AllocError, Allocator};
use std::marker::PhantomData;
use std::slice;
use std_alloc::vec::{Lodged, lodge};

/// A new block as a list that has room for `size` bytes and none yet.
pub(crate) fn take<A: Allocator>(
    alloc: &A,
    size: usize,
) -> Result<(Vec<u8, Lodged>, Deed<A>), AllocError>
    requires { size < 2 ^ 63 }
    ensures { IfOk result (λ r. (r.0.items ≡ []) × (r.0.cap ≡ size) × (r.1.ptr ≡ r.0.ptr)
        × (r.1.size ≡ size) × (r.1.alloc ≡ alloc.now)) }
{
    match alloc.allocate(size, 1) {
        Ok(ptr) => Ok((unsafe { lodge(ptr, 0, size) }, Deed { by: PhantomData })),
        Err(error) => Err(error),
    }
}

/// Writes zeros over the whole room, once.
pub(crate) fn fill(bytes: &mut Vec<u8, Lodged>, size: usize)
    requires { (bytes.old.items ≡ []) × (bytes.old.cap ≡ size) }
    ensures { (bytes.new.items ≡ replicate size 0) × (bytes.new.cap ≡ bytes.old.cap)
        × (bytes.new.ptr ≡ bytes.old.ptr) }
{
    for _ in 0..size {
        bytes.push_reserved(0);
    }
}

/// The bytes of a list that fills its room, without the list.
pub(crate) fn settle(bytes: Vec<u8, Lodged>) -> Contents
    requires { bytes.len ≡ bytes.cap }
    ensures { (result.at ≡ bytes.ptr) × (result.bytes ≡ bytes.items) }
{
    let _len = bytes.dislodge();
    Contents {}
}

/// Shows all bytes.
pub(crate) fn show(contents: &Contents, ptr: *mut u8, len: usize) -> &[u8]
    requires { (contents.now.at ≡ ptr) × (length contents.now.bytes ≡ len) × (len < 2 ^ 63) }
    ensures { result.now ≡ contents.now.bytes }
{
    unsafe { slice::from_raw_parts(ptr, len) }
}

/// Lends `len` bytes for writing, from the place `from` on.
pub(crate) fn lend(contents: &mut Contents, ptr: *mut u8, from: usize, len: usize) -> &mut [u8]
    requires { (contents.old.at ≡ ptr) × (from + len ≤ length contents.old.bytes)
        × (from + len < 2 ^ 63) }
    ensures* writes_back { sem 𝓛 (LendsPart contents.entry from result) }
    ensures value { result.now ≡ window_of contents.old.bytes from len }
{
    unsafe { slice::from_raw_parts_mut(ptr.add(from), len) }
}

/// Gives the block back, with what lies in it.
pub(crate) fn give<A: Allocator>(
    alloc: &A,
    ptr: *mut u8,
    size: usize,
    contents: Contents,
    deed: Deed<A>,
)
    requires { (contents.at ≡ ptr) × (length contents.bytes ≡ size) × (deed.ptr ≡ ptr)
        × (deed.size ≡ size) × (deed.alloc ≡ alloc.now) }
{
    let Contents {} = contents;
    let Deed { by: _ } = deed;
    unsafe { alloc.deallocate(ptr, size, 1) }
}
