//! Words and lines of scripts: what callers write to the program beside files.
#![tactic(auto)]

mod lines;
mod number;
mod replies;

pub use lines::{Cut, cut_at, next_line};
pub use number::{is_number, number_up_to, read_number};
pub use replies::{Clerk, answer};
