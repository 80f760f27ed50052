//! States written by hand: a worked step of each unit, and that what the laws of clients that are apart ask is needed.
//!
//! Each law is named by a function with an empty body, so that a call can cite it.
#![tactic(auto)]

ghost use Rattle.apart_needs.specs.Sharing.{SharingIsSeen};
ghost use Rattle.apart_needs.specs.Entries.{WordsAreNeeded, ThreadsAreNeeded, SlotsAreNeeded};
ghost use Rattle.apart_needs.specs.Worked.{WorkedSteps};

/// Two jobs begin as the law asks, but that one has its frame in the other one's bytes, which is another client's: two runs from there have
/// equal trails of that client, and don't end alike to it.
#[tactic(auto, using(crate::proofs::Sharing::sharing_seen))]
pub fn sharing_is_seen()
    ensures { SharingIsSeen }
{}

/// Two steps from one state, whose entries are the same but for the words that answered, give what isn't alike to the client.
#[tactic(auto, using(crate::proofs::Entries::words_needed))]
pub fn words_are_needed()
    ensures { WordsAreNeeded }
{}

/// So do two steps from states that are alike to the client, whose entries are the same but for the thread that was active.
#[tactic(auto, using(crate::proofs::Threads::threads_needed))]
pub fn threads_are_needed()
    ensures { ThreadsAreNeeded }
{}

/// So do two whose entries are the same but for where a program started.
#[tactic(auto, using(crate::proofs::Entries::slots_needed))]
pub fn slots_are_needed()
    ensures { SlotsAreNeeded }
{}

/// The binner puts an item on a tile, the renderer stores a pixel, a processor takes a uniform, and a texture and memory unit reads words.
#[tactic(auto, using(crate::proofs::ListUnits::binner_steps, crate::proofs::ListUnits::renderer_steps, crate::proofs::Processors::qpu_steps, crate::proofs::Processors::tmu_steps))]
pub fn worked_steps()
    ensures { WorkedSteps }
{}
