//! Clients are apart, step by step: what another client's job does leaves a client's part of the machine alone, and what its own jobs do
//! doesn't depend on the others.
//!
//! The crate has laws on definitions alone, for any jobs on the machine. That steps are safe is no part of it: where an own step must lie,
//! the law asks it.
#![tactic(auto)]

ghost use Rattle.apart_law.specs.Steps.{OthersStepsAreSilent, OwnStepsAreAlike, StepsKeepTied};

/// A step for another client's job has no access of the client's, and leaves its part of what the units keep.
pub fn others_steps_are_silent()
    ensures { OthersStepsAreSilent }
{}

/// Two steps for jobs of the client that have the same entry, from states that are alike to it, make the same accesses and leave states
/// that are alike again, where the first stays inside the client's memory.
pub fn own_steps_are_alike()
    ensures { OwnStepsAreAlike }
{}

/// A request that is queued stays one of the job whose thread runs in its slot, where one runs.
#[tactic(auto, using(crate::proofs::Silent::keep_tied_law))]
pub fn steps_keep_tied()
    ensures { StepsKeepTied }
{}
