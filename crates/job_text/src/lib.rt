//! A job file as text for people.
//!
//! `show` writes any bytes as lines: some of the bytes in hexadecimal, a `#`, their offset in the file and what they are. So each byte
//! is on one line, and `job_make::make` of what `show` wrote is the same bytes.
#![tactic(auto)]

mod code;
mod cuts;
mod cutting;
mod draws;
mod floats;
mod instructions;
mod list;
mod meanings;
mod names;
mod note;
mod noted;
mod notes;
mod numbers;
mod rows;
mod span;
mod streams;
mod uniforms;
mod view;
mod writing;

pub use draws::show_draws;
pub use noted::disassemble_noted;
pub use view::{Omitted, View};
pub use writing::show;
