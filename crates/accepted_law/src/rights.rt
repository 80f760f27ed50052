//! What a job of a file may reach, from above.
ghost use Rattle.accepted_law.specs.Held.{RightsAreHeld, ListsAndCodeAreFixed};

/// A job may reach nothing but what it holds: its tile slot, the data and the Code buffers that its handles name, and its four emitted
/// lists. It may write nothing but its slot and those data buffers.
#[tactic(auto, using(crate::proofs::Intervals::rights_are_held_law))]
pub fn rights_are_held()
    ensures { RightsAreHeld }
{}

/// In a file in which no rule is broken, what a job may write shares no byte with the four emitted lists of any job, nor with a Code buffer
/// that a handle of any job names.
#[tactic(auto, using(crate::proofs::Joining::lists_and_code_fixed_law))]
pub fn lists_and_code_are_fixed()
    ensures { ListsAndCodeAreFixed }
{}
