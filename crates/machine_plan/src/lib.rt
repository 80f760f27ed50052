//! The ground of the machine: steps as plans, their accesses and memory, intervals and runs.
//!
//! The definitions in `specs/` and the laws in `proofs/` know no unit: each unit of the machine
//! states its step as a plan, and the safety laws of all jobs are stated over them. The functions
//! read and write memory as the machine sees it, where a place outside reads as zero.
#![tactic(auto)]

mod accesses;
mod bytes;
mod choice;
mod launch;
mod who;

pub use accesses::Accesses;
pub use bytes::{byte_at, list_access, put_byte, read_bytes};
pub use choice::Choices;
pub use launch::{Free, Launch, Slot};
pub use who::{Reader, Who};
