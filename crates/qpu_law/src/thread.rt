//! One instruction of a thread.
ghost use Rattle.qpu_law.specs.Emitted.{StreamsServe};
ghost use Rattle.qpu_law.specs.Home.{NeverWild, StaysInCode};
ghost use Rattle.qpu_law.specs.Samples.{AsksAreFine, StartsStand};
ghost use Rattle.qpu_law.specs.Thread.{ResultsKeep, ThreadsKeep};

/// No instruction of a checked shader is undefined, where the thread's marks say what it executed and its setup words are as many as
/// the rules count.
#[tactic(auto, using(crate::proofs::Going::never_wild_law))]
pub fn never_wild()
    ensures { NeverWild }
{}

/// After each instruction of a checked shader the thread has ended, or stands at an instruction that was checked too, at the next
/// one or at a branch's target, with marks that say what it executed.
#[tactic(auto, using(crate::proofs::Going::stays_in_code_law))]
pub fn stays_in_code()
    ensures { StaysInCode }
{}

/// A step of a thread of a job, whose checked shader and stream stand in memory, is never undefined, reads its instruction and its
/// uniform in the job's region and nothing else, changes no byte, and leaves such a thread or none, and a fine request or none. The thread stands at
/// a checked instruction, its marks say what it executed, its pointer is where the stream's count says or no uniform is taken where it isn't
/// known, its setup words are the stream's, and each fact of the rules is true of its registers.
#[tactic(auto, using(crate::proofs::Join::threads_keep_law))]
pub fn threads_keep()
    ensures { ThreadsKeep }
{}

/// A program begins as such a thread, where it is started at the shader's code, with its stream, and as threaded as it is.
pub fn starts_stand()
    ensures { StartsStand }
{}

/// What an instruction of such a thread asks a TMU for is fine: a direct request reads at addresses that a clamp keeps in the
/// buffer of its sample, and a texture's setup words are the stream's at that sample's positions. Each sample is one of the
/// shader's, as emission places it.
pub fn asks_are_fine()
    ensures { AsksAreFine }
{}

/// A finished result changes nothing of what is known of a thread.
#[tactic(auto, using(crate::proofs::Starting::results_keep_law))]
pub fn results_keep()
    ensures { ResultsKeep }
{}

/// A stream that was emitted for a shader serves its threads: each address word is the stream's place, and each sample of an
/// instruction reads in one of the buffers.
#[tactic(auto, using(crate::proofs::Emitting::streams_serve_law))]
pub fn streams_serve()
    ensures { StreamsServe }
{}
