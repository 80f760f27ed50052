//! The requests of a thread.
ghost use Rattle.qpu_law.specs.Asks.{AsksStayIn, FineAsksAreSafe};

/// A request that is fine makes a TMU read inside one buffer, whatever the choice words and the memory: a direct one the words
/// that its 16 addresses stand in, and a texture each pixel, or its block of 64 bytes, of each level and face that the choice
/// words can name. It is never undefined and changes no byte.
#[tactic(auto, using(crate::proofs::Reading::asks_stay_in_law))]
pub fn asks_stay_in()
    ensures { AsksStayIn }
{}

/// So each access for a fine request is safe by the rights of the job, where the job's region has each buffer that it may name.
#[tactic(auto, using(crate::proofs::Reading::fine_asks_are_safe_law))]
pub fn fine_asks_are_safe()
    ensures { FineAsksAreSafe }
{}
