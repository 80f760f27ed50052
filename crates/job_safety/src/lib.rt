//! Why accepted jobs are safe in the machine: the file that any bytes hold in which no rule is broken, the machine that it is run in,
//! and what safety refuses.
#![tactic(auto)]

mod accepting;
mod clients;
mod files;
mod strength;

pub use accepting::{Accepted, accept, accept_strict, version_of};
pub use clients::clients_are_apart;
pub use files::{
    accepted_bytes_are_safe, accepted_bytes_may_run, accepted_jobs_end, placed_jobs_are_safe,
    prepared_jobs_may_run, safe_files_follow,
};
pub use strength::{
    code_past_is_unsafe, direct_reads_past_are_unsafe, lists_past_are_unsafe,
    stray_packets_are_unsafe, textures_past_are_unsafe, writes_past_are_unsafe,
};
