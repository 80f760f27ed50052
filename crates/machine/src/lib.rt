//! The machine: memory, and the units that step for its jobs: binner, renderer, and twelve shader processors with two texture
//! and memory units each.
#![tactic(auto)]

mod job;
mod lists;
mod machine;
mod processors;

pub use job::Start;
pub use machine::{Machine, Stepped};
