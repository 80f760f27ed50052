//! Where a shader may go: its end, the targets of its branches, and the rules on signals, branches and switches.
//!
//! A shader is a list of 64-bit words; what each word means is the business of `qpu_isa`. The definitions in `specs/` are
//! sentences about the whole list: `Bounded` (tests over ranges of indexes), `Flow` (program end, targets, slots) and
//! `Rules` (one rule each).
#![tactic(auto)]

mod marks;
mod rule;
mod rules;
mod site;
mod state;

pub use marks::{checked, flow, is_marked};
pub use rule::ShaderRule;
pub use rules::{flow_fault, is_in_slots};
pub use site::Site;
pub use state::Flow;
