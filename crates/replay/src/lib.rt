//! A run of the machine by a script, which says at each step which unit steps, and with which words.
#![tactic(auto)]

mod follow;
mod logged;
mod oracle;
mod script;
mod trace;
mod units;

pub use follow::{log_run, replay};
pub use logged::{Log, Logged};
pub use oracle::Oracle;
pub use script::Script;
pub use trace::{Ending, Trace, TraceLine};
pub use units::{UnitKind, enabled_units, unit_at, word_count};
