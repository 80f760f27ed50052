//! An example job of every number, to try a checker and a machine on: a frame of 1 to 30 by 1 to 17 tiles, with 1 to 4,000
//! triangles over vertices that look random.
#![tactic(auto)]

mod file;
mod lists;
mod noise;

pub use file::make_job;
pub use noise::next_state;
