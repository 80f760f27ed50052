//! The law of the whole machine that jobs whose shaders are served finish, or wait for room.
//!
//! The crate has laws on definitions alone. A shader is served where none of its instructions loads what nobody asked for, or writes to
//! a texture unit that has no room, and nothing is left there at its end (`specs::Waits`). The room is the hardware's, less than the
//! machine's. Then only a queued request holds a thread up, and the semaphore is raised as often as a renderer waits for it. So
//! where no unit may step, all is finished, or a binner has no room for a further item. The laws say nothing of job files, and name no
//! number of jobs.
#![tactic(auto)]

ghost use Rattle.served_law.specs.Known.{StepsServe};
ghost use Rattle.served_law.specs.Finish.{JobsFinish};

/// Each step keeps what is known: how many requests of a thread are outstanding at its instruction, that the active thread of a
/// processor runs where one does, and that the semaphore is raised as often as the renderer still waits for it.
pub fn steps_serve()
    ensures { StepsServe }
{}

/// So in each run of jobs whose shaders are served, also while others write, where no unit may step, all is finished, or the
/// binner's job waits for room in its tile lists. In each state of the run no processor has more requests than the hardware has room for.
#[tactic(auto, using(crate::proofs::Finish::jobs_finish_law))]
pub fn jobs_finish()
    ensures { JobsFinish }
{}
