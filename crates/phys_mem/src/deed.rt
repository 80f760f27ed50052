//! The right to give a block back.
ghost use Rattle.std.specs.Prelude.{ℕ};
ghost use denote.RawPtr.{Ptr};
ghost use mir.Syntax.{ty_array, ty_int, w8};

use std::alloc::Allocator;
use std::marker::{Model, PhantomData};

/// The right to give the block of `size` bytes at `ptr` back to `alloc`. It takes no space.
pub(crate) struct Deed<A: Allocator> {
    pub(crate) by: PhantomData<A>,
    ghost ptr: { Ptr },
    ghost size: { ℕ },
    ghost alloc: { A },
}

impl<A: Allocator> Model for Deed<A> {
    ghost also_owns = { λ d. A.dealloc_token d.alloc (ty_array (ty_int w8) d.size) d.ptr };
}
