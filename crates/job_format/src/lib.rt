//! The job file, of version 1 and 2: its bytes, its values, and the rules of its format.
#![tactic(auto)]

mod faults;
mod file;
mod parts;
mod place;
mod reading;
mod rule;
mod sizes;
mod upgrade;
mod writing;

pub use file::{Frame, Job, JobFile, Surface};
pub use parts::{FileParts, JobParts, Numbers};
pub use place::offset_of;
pub use reading::{read_job, read_parts};
pub use rule::{FormatFault, FormatRule, Part, Place, Refusal, Rule, Stage};
pub use sizes::{
    ENTRY_SIZE, HEADER_SIZE, JOB_SIZE, MOST_BUFFERS, MOST_HANDLES, MOST_JOBS, MOST_STATES,
};
pub use upgrade::upgrade_file;
pub use writing::{one_file_a_text, write_job};
