//! The bound on the steps of the jobs of a file, computed from the file.
//!
//! Where no shader that a handle of a job names branches back, three numbers bound each run of the jobs: how many steps it
//! takes at most, how many more for each step in which a renderer stays at an item, and how many items there may be. Besides the
//! answer has the place in the file of the first instruction that may wait for a request that isn't there, if any. Else it is
//! the place of the first such branch. What the answers mean are laws (`specs/Law.antt`). There is no branch back exactly where no
//! shader loops, and no such instruction exactly where no program may wait so (`specs/Back.antt`).
#![tactic(auto)]

mod back;
mod binner;
mod bound;
mod named;
mod programs;
mod renderer;
mod text;
mod wait;

ghost use Rattle.job_bound.specs.Back.{NoneWithoutLoop, NoneWhereServed};
ghost use Rattle.job_bound.specs.Law.{BoundHolds, EndHolds};
ghost use Rattle.job_bound.specs.Live.{SubmissionsEndAtItems};

pub use bound::{Bound, bound_with, find_bound};
pub use named::Sought;
pub use programs::Program;
pub use text::{bound_bytes, bound_text};
pub use wait::find_wait;

/// There is a branch that leads back in a shader that a handle names exactly where the jobs of the file have a loop.
#[tactic(auto, using(crate::proofs::Backs::none_without_loop))]
pub fn none_without_loop()
    ensures { NoneWithoutLoop }
{}

/// There is an instruction that may wait for a request that isn't there, in a shader that a handle names, exactly where a program of the
/// jobs of the file may wait so.
#[tactic(auto, using(crate::proofs::Backs::none_where_served))]
pub fn none_where_served()
    ensures { NoneWhereServed }
{}

/// Whatever bytes they are: where no rule of them is broken and the bound is three numbers, each run of their jobs, whichever unit steps
/// next, whatever words answer, and whatever others write beside lists and code, has at most the first number of steps, and the second more
/// for each step in which a renderer stays at an item. Where a renderer stays at no item more than K times, it has at most the first number
/// of steps and K times the product of the second and the third.
#[tactic(auto, using(crate::proofs::Holds::bound_holds_law))]
pub fn bound_holds()
    ensures { BoundHolds }
{}

/// Where the bound tells no instruction that may wait besides, each such run that has come to where no unit may step has finished, or
/// the binner's job has no room for a further item in its tile slot. No processor ever has more than four requests that no load has taken.
#[tactic(auto, using(crate::proofs::Holds::end_holds_law))]
pub fn end_holds()
    ensures { EndHolds }
{}

/// The bound of a job that a driver hands in, whatever other jobs come and go: where its renderer stays at none of its items more than K
/// times, the steps for it are at most the job's share of the first number, and K times the second for each item for which its tile lists
/// have room.
pub fn submissions_end_at_items()
    ensures { SubmissionsEndAtItems }
{}
