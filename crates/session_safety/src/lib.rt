//! What an accepted submit of a session means: the job may run over the session's own memory.
//!
//! `job_session` checks a client's job in a file, and `session_law` says that the answer is also that of the file with the client's buffers
//! where they lie. Here that file meets the law of accepted files: over the session's memory with the job's relocated lists in the region
//! that it keeps for them every run is safe, and so it is over each later memory that has these lists and the client's shaders.
//!
//! In `specs/`, `Running` names the file, the memory and the laws.
#![tactic(auto)]

ghost use Rattle.session_safety.specs.Running.{SubmitsMayRun, ReadyMemoriesMayRun, SubmitsReachOwn};

/// The job of an accepted submit may run over the session's memory with its relocated lists: in every run each access lies in the client's
/// buffers that its handles name, its lists or the tile slot, and each write in a data buffer of the client's or the slot, whatever others
/// write meanwhile beside lists and code.
pub fn submits_may_run()
    ensures { SubmitsMayRun }
{}

/// So it may over every memory that has these lists, and in which the client's Code buffers are as they were when it was accepted.
pub fn ready_memories_may_run()
    ensures { ReadyMemoriesMayRun }
{}

/// And it reaches no byte of another client's live buffer.
pub fn submits_reach_own()
    ensures { SubmitsReachOwn }
{}
