//! The strict rules: what the hardware's guide forbids, and the rules on job files let through.
//!
//! A shader's texture requests and its loads have to match, with the room that a processor has, whichever thread runs; its last
//! instructions may not use what the next program begins with; and an instruction may use one of the units that share a path.
//! `Words` in `specs/` has the terms on one instruction, `Queue` those on requests, and `Rules` one sentence a rule.
#![tactic(auto)]

mod ahead;
mod check;
mod here;
mod parts;
mod queues;
mod rule;
mod rules;
mod state;
mod step;
mod wait;
mod words;

pub use check::check_strict;
pub use parts::{has_tile_part, has_vpm_part};
pub use rule::{StrictFault, StrictRule};
pub use state::{Request, Unit, Walked};
pub use wait::first_wait;
