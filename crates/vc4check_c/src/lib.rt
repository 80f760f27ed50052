//! The checker as a library for C: each call here is known to C under its own name.
//!
//! The header is `examples/c/vc4check.h`; what a call promises and what its caller owes is in `docs/LIBRARY.md`. Each call says
//! by a number how it ended, writes what it tells into values of the caller's, and keeps nothing.
#![tactic(auto)]

mod block;
mod bound;
mod facts;
mod hardware;
mod jobs;
mod known;
mod place;
mod sentence;
mod shader;
mod status;
mod submission;
mod submit;
mod time;
mod version;

pub use block::{Known, MadeAnswer};
pub use bound::BoundAnswer;
pub use jobs::{JobLists, JobsAnswer};
pub use shader::{ShaderAnswer, ShaderSample};
pub use submission::{GivenBuffer, GivenFrame, GivenSurface, Submission};
pub use submit::Verdict;

#[cfg(test)]
mod layout_tests;
#[cfg(test)]
mod tests;
