//! The emitted binner list of each job of an accepted file walks, and each primitive of it may be drawn.
ghost use Rattle.accepted_law.specs.Parts.{DrawsBegin, BinsWalk};

/// Each primitive of the emitted binner list may be drawn.
pub fn draws_begin()
    ensures { DrawsBegin }
{}

/// The emitted binner list walks.
#[tactic(auto, using(crate::proofs::BinWalking::bins_walk_law))]
pub fn bins_walk()
    ensures { BinsWalk }
{}
