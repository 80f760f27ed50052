//! The law of the whole machine that runs of jobs without loops end.
//!
//! The crate has laws on definitions alone. Where no shader that a job starts branches back, each step of a unit leaves
//! less to be done (`specs::Left`), but for those in which the renderer stays at an item. So a run has no more steps than
//! the lists of the jobs and the programs that they start say (`specs::Steps`), whatever words answer and also while
//! others write. The laws say nothing of job files, and name no number of jobs.
#![tactic(auto)]

ghost use Rattle.ends_law.specs.Ends.{JobsEnd};
ghost use Rattle.ends_law.specs.Left.{StepsLess};

/// Each step for a counted job leaves less to be done: a thread goes forward, a request is served, a list unit goes past a packet, a vertex,
/// a program that is due or an item, or puts one. Where the renderer stays at an item, it adds at most a program's steps.
#[tactic(auto, using(crate::proofs::Machine::steps_less_law))]
pub fn steps_less()
    ensures { StepsLess }
{}

/// So a run of jobs without loops, also while others write, has at most as many steps as are left at its start, and a program's steps
/// and one more for each step in which the renderer stays at an item.
#[tactic(auto, using(crate::proofs::Runs::jobs_end_law))]
pub fn jobs_end()
    ensures { JobsEnd }
{}
