//! The strict check of a job file that breaks no other rule: what the hardware's guide forbids all the same.
//!
//! `specs/Stages.antt` lists the rules in the order of refusal, over those of `strict_rules` on shaders and `strict_lists` on lists and
//! records.
#![tactic(auto)]

mod check;
mod findings;
mod lists;
mod records;
mod shaders;
mod uses;
mod whole;

pub use check::{check_strict_findings, check_strict_parts};
pub use findings::{Findings, all_findings, findings_in};
pub use uses::Uses;
pub use whole::check_strict_bytes;
