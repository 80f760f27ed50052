//! The check of a job file that was read: the first broken rule, or the memory that its jobs are to run in.
//!
//! `specs/Faults.antt` lists the stages in the order of refusal. A further stage is a line there, and a method of the
//! job in view (`context.rt`) or, where it asks of the file as a whole, a function in `stages.rt`.
#![tactic(auto)]

mod check;
mod context;
mod emit;
mod layout;
mod lists;
mod offsets;
mod refusals;
mod region;
mod shaders;
mod stages;
mod upgrade;
mod whole;

pub use check::{Checked, check_job};
pub use context::job_at;
pub use offsets::content_offset;
pub use refusals::refusal;
pub use region::{Region, check_parts};
pub use shaders::{content_at, shader_in, shaders_stage, words_of};
pub use upgrade::upgrade_changes_nothing;
pub use whole::{check_bytes, check_places, format_refusal};
