//! What an emitted binner list promises to the binner that reads it.
#![tactic(auto)]

ghost use Rattle.bin_walks.specs.Law.{EmittedListsWalk};

/// A binner list in which no rule is broken is emitted packet by packet, and the binner may read each of these packets: it is
/// whole and known, the one configuration names the job's tile slot, a start and a flush come behind it, and each primitive is
/// drawn under a shader state whose record was emitted, with indexes that lie in a buffer of the job and go no further than
/// that state's greatest index.
pub fn emitted_lists_walk()
    ensures { EmittedListsWalk }
{}
