//! What the units of a run touch: what lies at a place of a job file's memory, and the text of all accesses of a run.
#![tactic(auto)]

mod log;
mod spot;

pub use log::{log_text, push_spot};
pub use spot::{Spot, spot_of};
