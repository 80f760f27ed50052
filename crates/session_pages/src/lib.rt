//! The pages of the memory in which clients' buffers lie, and who holds each.
//!
//! The memory is one block. Its front is kept for jobs' lists and one tile slot; behind it lie 4,096 pages of 4,096 bytes. A
//! buffer takes the lowest run of free pages that is long enough. Pages that are given back are zero from then on.
//!
//! In `specs/`, `Runs` says what a run of free pages is and which is the lowest, and `Map` what each call leaves.
#![tactic(auto)]

mod owners;
mod pages;

pub use pages::{FIRST_PLACE, MEMORY_SIZE, PAGE_COUNT, Pages};
