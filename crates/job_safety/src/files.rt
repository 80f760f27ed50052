//! Accepted files are safe, whatever their memory holds beside the lists and the code of their jobs.
ghost use Rattle.job_safety.specs.Files.{BytesSafe, PlacedJobsAreSafe};
ghost use Rattle.job_safety.specs.Follows.{SafeFilesFollow};
ghost use Rattle.promises.specs.{Bounded.AcceptedEnd, MayRun.AcceptedMayRun};
ghost use Rattle.job_safety.specs.Prepared.{PreparedJobsMayRun, PreparedBytesMayRun};

/// The law that accepted files are safe, of 1 to 8 jobs: whichever bytes they are, where no rule is broken by them, from each memory of the
/// emitted one's length that has the lists and the code of all jobs as emitted, whatever else it holds. In every run of the machine,
/// whatever the events and the choice words, and whatever others write beside lists and code, no access is undefined, each lies in one of the
/// buffers, lists and codes or the tile slot of the job for which it is done, and each write in a data buffer or the slot of that job.
/// Bytes outside what jobs may reach have no effect: over every memory of that length that agrees there, each run has the same events and
/// accesses, and leaves the same bytes there. And what jobs may write has no byte of the lists and the code of any.
#[tactic(auto, using(crate::proofs::Safety::bytes_safe_law))]
pub fn accepted_bytes_are_safe()
    ensures { BytesSafe }
{}

/// The law that the jobs of all bytes in which no rule is broken may run.
#[tactic(auto, using(crate::proofs::Safety::accepted_may_run))]
pub fn accepted_bytes_may_run()
    ensures { AcceptedMayRun }
{}

/// The law that jobs without loops end: where no rule is broken by the bytes, and no shader that a handle names branches back, each run of
/// their jobs, whichever unit steps next, whatever words answer, and whatever others write beside lists and code, has no more steps than the
/// file says, and those of its longest program and one more for each step in which a renderer stays at an item.
#[tactic(auto, using(crate::proofs::Safety::accepted_end))]
pub fn accepted_jobs_end()
    ensures { AcceptedEnd }
{}

/// So is each file in which no rule is broken under the greatest limit of a memory, 0xFF000000, as a driver has it whose buffers, lists and
/// slots stand at addresses of the bus.
#[tactic(auto, using(crate::proofs::Safety::placed_safe_law))]
pub fn placed_jobs_are_safe()
    ensures { PlacedJobsAreSafe }
{}

/// What follows of each safe file, of runs in which nobody else writes, or only what jobs may write: from the emitted memory, from each
/// in which every byte outside what jobs may write is as emitted, and from each that has their lists and code.
pub fn safe_files_follow()
    ensures { SafeFilesFollow }
{}

/// From an accepted call on: the jobs of a file in which no rule is broken under that limit may run over every memory that has the relocated
/// lists at the lists' place, and in each Code buffer that a handle names its shader with zeros behind, whatever else it holds and
/// whatever others write meanwhile beside lists and code. Each access lies in what the job for which it is done may reach, each write in a
/// data buffer or the slot of that job, and bytes outside have no effect.
pub fn prepared_jobs_may_run()
    ensures jobs { PreparedJobsMayRun }
    ensures bytes { PreparedBytesMayRun }
{}
