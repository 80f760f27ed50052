//! The emitted renderer list of each job of an accepted file walks.

ghost use Rattle.accepted_law.specs.Parts.{RendersWalk};

/// The emitted renderer list of a job walks: no load is lost, each load and store reaches bytes of its own surface
/// alone, which lie in a data buffer that the job's handles name, and each sub-list is that of a tile of the binner's grid.
#[tactic(auto, using(crate::proofs::RenderWalking::renders_walk_law))]
pub fn renders_walk()
    ensures { RendersWalk }
{}
