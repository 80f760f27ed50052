//! The laws of the whole machine: all its units, for any jobs.
//!
//! The crate has laws on definitions alone. From what is known of each job's lists and of each home of its threads
//! (`specs::Jobs`), each unit of the machine owes what `Owes` says, so every run is safe and depends on nothing outside
//! the jobs' regions, also while others write. What one client's jobs access, and what its memory ends as, doesn't depend on the other
//! clients' jobs (`specs::Apart`). The laws say nothing of job files, and name no number of jobs.
#![tactic(auto)]

ghost use Rattle.machine_law.specs.Laws.{UnitsOwe};
ghost use Rattle.machine_law.specs.Begins.{DrawsStay, FixedStays, HomesStay};
ghost use Rattle.machine_law.specs.Sound.{MachineSound, JobsSound, SoundJobsAreSafe};
ghost use Rattle.machine_law.specs.Apart.{ClientsApart, ClientsApartAnywhere, ClientsApartWithOthers};

/// Each unit of the machine keeps all that is known, in each memory that has what jobs may only read as the first.
#[tactic(auto, using(crate::proofs::Owes::units_owe_law))]
pub fn units_owe()
    ensures { UnitsOwe }
{}

/// What some job may reach and none may write stays as it was first.
#[tactic(auto, using(crate::proofs::Begins::fixed_stays_law))]
pub fn fixed_stays()
    ensures { FixedStays }
{}

/// A home whose code and stream no job may write stays a home of its job's threads.
pub fn homes_stay()
    ensures { HomesStay }
{}

/// A primitive that was emitted for a job may be drawn in every run, where no job may write its record, its code and its streams.
#[tactic(auto, using(crate::proofs::Begins::draws_stay_law))]
pub fn draws_stay()
    ensures { DrawsStay }
{}

/// Where all is known of what the units keep, the machine is sound over each memory that has what jobs may only read as the first:
/// every run is safe while others write all else, bytes outside the jobs' regions have no effect, and a step of a texture unit reads
/// inside one data buffer of the job for which it steps, whatever words answer it.
pub fn machine_sound()
    ensures { MachineSound }
{}

/// From the start it is so where each job begins with two lists that walk, which no job may write: all processors are idle.
pub fn jobs_sound()
    ensures { JobsSound }
{}

/// So every run in which nobody else writes is safe, and bytes outside the jobs' regions have no effect on it.
pub fn sound_jobs_are_safe()
    ensures { SoundJobsAreSafe }
{}

/// Two runs from beginnings that have the same jobs of one client, with the same rights and places, and memories that agree on their
/// regions: where these jobs take the same steps, in order, on the same processors and threads and with the same words, their accesses are
/// the same in order, and so are the bytes of their regions at the end. All else may differ: the other clients' jobs, how many there are,
/// and when they step.
pub fn clients_apart()
    ensures { ClientsApart }
{}

/// So it is from all memories that agree there and have what jobs may only read.
pub fn clients_apart_anywhere()
    ensures { ClientsApartAnywhere }
{}

/// And so it is while others write all that is neither the client's nor what jobs may only read.
pub fn clients_apart_with_others()
    ensures { ClientsApartWithOthers }
{}
