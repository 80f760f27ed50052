//! Runs of an accepted file's machine by the scripts of seeds, and what is reported of them.
#![tactic(auto)]

mod report;
mod seeded;

pub use report::{Look, Trial, report_text};
pub use seeded::{log_of, run_of};
