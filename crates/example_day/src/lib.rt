//! A day that happens: a job comes, its program finds what others left in the registers, ends, and its place serves another job.
#![tactic(auto)]

ghost use Rattle.example_day.specs.Shown.{ADayHappens};

/// By single steps, from an idle machine on.
#[tactic(auto, using(crate::proofs::Steps::day_happens))]
pub fn a_day_happens()
    ensures { ADayHappens }
{}
