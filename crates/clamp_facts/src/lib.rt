//! What is known of a register's value: a loaded immediate, a number that isn't negative, a number clamped by a uniform.
//!
//! Each is a fact that an earlier instruction made, and that still holds at the instruction that uses the register. The
//! definitions are in `specs/Facts`. A walk upwards keeps a `FactTable` by `learn` and asks it by `Known::look`; `immediate_of` and
//! `clamp_of` look back from a use, and count their steps. Nothing takes memory.
#![tactic(auto)]

mod fact;
mod known;
mod search;
mod table;
mod upkeep;

pub use fact::{Entry, Fact};
pub use known::Known;
pub use search::{clamp_of, immediate_of};
pub use table::FactTable;
pub use upkeep::learn;
