//! Records of an accepted file.
ghost use Rattle.accepted_law.specs.Parts.{RecordsLaunch};

/// The record that is emitted for a state of the binner list names three programs, and each may be started from the file's memory on:
/// its code is that of a buffer that a handle names, in which no rule of shaders is broken; its stream was made for it; no job may
/// write either; and each sample of it reads in a buffer that a handle names.
#[tactic(auto, using(crate::proofs::Programs::records_launch_law))]
pub fn records_launch()
    ensures { RecordsLaunch }
{}
