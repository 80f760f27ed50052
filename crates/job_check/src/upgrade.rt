//! What the version of a file changes.
ghost use Rattle.job_check.specs.Upgrade.{UpgradeChangesNothing};

/// A file made to version 2 is accepted with the same memory, or refused by the same rule at the same place.
#[tactic(auto, using(crate::proofs::Alike::upgrade))]
pub fn upgrade_changes_nothing()
    ensures { UpgradeChangesNothing }
{}
