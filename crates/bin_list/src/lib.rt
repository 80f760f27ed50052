//! Checking and relocating a binner list, which an untrusted client wrote.
//!
//! The list is cut into packets by the table of the crate `packets`, and each packet is asked the rules of its kind, which
//! speak of what stands before it. `check_bin` names the first broken rule, by place and then by number, or writes the
//! list that the hardware is given: addresses of indexes, shader records and tile memory are put in. It tells the grid of
//! tiles and the shader states, which the next stage checks.
#![tactic(auto)]

mod check;
mod cut;
mod emit;
mod fault;
mod given;
mod info;
mod rule;
mod rules;
mod seen;
mod state;
mod states;

pub use check::check_bin;
pub use cut::{draws, split_front};
pub use fault::ListFault;
pub use info::BinInfo;
pub use rule::BinRule;
pub use seen::Seen;
pub use state::State;
