//! Why a thread of a checked shader never leaves its job's memory: the laws of one thread of a shader processor (QPU), step by
//! step, and of what its texture and memory units (TMUs) read for it.
//!
//! Each law is named by a function with an empty body, so that a call can cite it.
#![tactic(auto)]

mod asks;
mod thread;

pub use asks::{asks_stay_in, fine_asks_are_safe};
pub use thread::{
    asks_are_fine, never_wild, results_keep, starts_stand, stays_in_code, streams_serve,
    threads_keep,
};
