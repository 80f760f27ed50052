//! That the jobs of an accepted file whose shaders are served finish, or wait for room: the law of such runs, for files.
//!
//! The crate has one law on definitions alone. `specs::Served::file_waits` is computed from the file: some shader that a handle of a job
//! names loads what nobody asked for, has no room in a texture unit, or leaves something there. The rules of lists say the rest: a
//! renderer list waits for the semaphore once at most, and a binner list raises it.
#![tactic(auto)]

ghost use Rattle.accepted_served.specs.Law.{FilesFinish};

/// Each run of the jobs of an accepted file no program of which may wait so, from every memory that has their emitted lists and their code,
/// whichever unit steps next, whatever words answer, and whatever others write beside lists and code: where no unit may step any more,
/// all jobs have finished, or the binner's has no room for a further item in its tile slot. In each state of the run no processor has more
/// than four requests that no load has taken.
#[tactic(auto, using(crate::proofs::Files::files_finish_law))]
pub fn files_finish()
    ensures { FilesFinish }
{}
