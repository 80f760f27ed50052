//! What the program's promise of all bytes comes to for two files, in numbers.
#![tactic(auto)]

ghost use Rattle.promises.specs.MayRun.{AcceptedMayRun};
ghost use Rattle.headline.specs.Numbers.{InNumbers};

/// The law of what that statement alone comes to for the file of one textured job, and for that of two of two clients: in every run
/// each access lies in these bytes, by number, each write in fewer of them, none is undefined, and no client touches the other's buffers.
#[tactic(auto, using(crate::proofs::Uses::all_in_numbers))]
pub fn headline_in_numbers()
    ensures { AcceptedMayRun → InNumbers }
{}
