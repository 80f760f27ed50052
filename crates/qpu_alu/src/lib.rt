//! What a shader processor's two units compute of 32-bit words.
//!
//! The results of float operations are free: whatever they are, nothing that is promised rests on
//! them. So they have no value here, and the call answers `None`.
#![tactic(auto)]

mod bytes;
mod units;

pub use units::{add_result, mul_result};
