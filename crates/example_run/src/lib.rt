//! A run that happens: what is proved of every run of an accepted file isn't said of none.
#![tactic(auto)]

ghost use Rattle.example_run.specs.Shown.{ARunHappens};
ghost use Rattle.textured_job.specs.Laws.{textured_bytes};

/// By single steps, of the textured job that is accepted alone: it takes its texture, reads its table directly, and finishes.
#[tactic(auto, using(crate::proofs::Begins::run_happens))]
pub fn a_run_happens()
    ensures { ARunHappens textured_bytes }
{}
