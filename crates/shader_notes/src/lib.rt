//! Notes on a shader: what no real shader does, though no rule forbids it. At worst the shader's own job hangs, or its frame is garbage.
//!
//! `Notes` in `specs/` has one sentence a note, and which notes a shader gets; `Text` has what a person reads.
#![tactic(auto)]

mod check;
mod note;
mod words;

pub use check::notes;
pub use note::{Note, Notes};
