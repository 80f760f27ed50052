//! The law that each job that comes and goes is bounded, by its own steps.
#![tactic(auto)]

ghost use Rattle.day_ends.specs.Ends.{AdmittedJobsEnd};

/// A job without loops that is admitted among others, at any time, takes at most as many steps as its lists and programs say, and a
/// program's steps and one more for each step in which its renderer stays at an item: whatever other jobs come and go, whatever they do,
/// and whatever others write. The steps of other jobs aren't counted.
pub fn admitted_jobs_end()
    ensures { AdmittedJobsEnd }
{}
