//! Where a job's emitted lists lie in the lists' region, and the words that are put into them.
#![tactic(auto)]

mod layout;
mod patch;

pub use layout::{Layout, Lengths};
pub use patch::{Patch, apply};
