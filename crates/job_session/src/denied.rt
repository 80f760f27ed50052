//! Why a session refuses a call.
use job_format::Rule;
use thiserror::Error;

/// A rule of shaders or of jobs that is broken, and the offset of what it is about: in the shader, or in the file of the job.
#[derive(Clone, Copy, Debug, PartialEq, Eq, Error)]
#[error("{rule} at {offset}")]
pub struct BrokenRule {
    pub rule: Rule,
    pub offset: u128,
}

/// Why a call was refused. A refusal changes nothing.
#[derive(Clone, Copy, Debug, PartialEq, Eq, Error)]
pub enum Denied {
    /// A rule of sessions, by its number.
    #[error("J{0}")]
    Session(u8),
    /// A rule of shaders or of jobs: the first that is broken.
    #[error("{0}")]
    Job(BrokenRule),
}
