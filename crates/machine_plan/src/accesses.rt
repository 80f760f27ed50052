//! The list of a step's accesses.
use arrayvec::ArrayVec;
use field_words::Access;

/// The accesses of one step, in order. The most that a step does are 257: a tile's load or store reads
/// or writes up to 256 parts, behind the read of its packet. Room is for some more, so that no step has
/// to ask for it.
pub type Accesses = ArrayVec<Access, 272>;
