//! A driver's queue of jobs.
//!
//! Jobs are binned in the order in which they were submitted, one at a time, and rendered in that order. A job's binning starts
//! only after each earlier job that writes a buffer which this one reads has rendered.
//!
//! In `specs/`, `Past` says what a list of calls does: it keeps every job that was submitted. The code keeps for each buffer its
//! last writer's number, and for each job that hasn't rendered the number of the last job for which it waits.
//! `Calls` and `Text` say what a script and its answer are.
#![tactic(auto)]

mod call;
mod queue;
mod replies;

pub use queue::{Queue, QueueFault, starts_late};
pub use replies::script;
