//! That the jobs of an accepted file end: the law of runs without loops, for files.
//!
//! The crate has one law on definitions alone. Where no shader that a handle of a job names branches back, a number that
//! the file says, `specs::Bound::bound_of`, is the most steps of any run of its 1 to 8 jobs, and a second one, `longest_of`
//! and 1, is how many more there may be for each step in which a renderer stays at an item.
#![tactic(auto)]

ghost use Rattle.accepted_ends.specs.Law.{FilesEndBy};

/// Each run of the jobs of an accepted file none of whose shaders branches back, from every memory that has their emitted lists and their
/// code, whichever unit steps next, whatever words answer, and whatever others write beside lists and code, has at most as many steps as
/// the file says, and those of its longest program and one more for each step in which a renderer stays at an item: how often it fetches
/// a vertex or starts a program there, the hardware decides.
#[tactic(auto, using(crate::proofs::Files::files_end_by_law))]
pub fn files_end_by()
    ensures { FilesEndBy }
{}
