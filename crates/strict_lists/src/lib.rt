//! The strict rules on a job's lists: what the hardware's guide forbids, and the rules of `bin_list` and `shader_records` let
//! through.
#![tactic(auto)]

mod check;
mod course;
mod records;
mod rule;
mod rules;

pub use check::check_list;
pub use course::Course;
pub use records::{crosses, selection_fault};
pub use rule::{ListFault, ListRule};
