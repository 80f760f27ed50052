//! The first rule that a file breaks doesn't depend on where its buffers lie.
#![tactic(auto)]

ghost use Rattle.places_law.specs.Moved.{PlacesAreFree, MovedAreAlike};

/// A law: the first rule that a file breaks doesn't depend on where its buffers lie, as long as they lie well.
#[tactic(auto, using(crate::proofs::Files::places_are_free))]
pub fn places_are_free()
    ensures { PlacesAreFree }
{}

/// So two files whose bytes differ in places alone are refused alike, at the same offset.
pub fn moved_are_alike()
    ensures { MovedAreAlike }
{}
