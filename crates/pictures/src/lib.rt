//! Pictures, as trees of elements and their text (SVG): of a job file's memory, its regions and buffers to scale on a strip of boxes; and of a run
//! over it, with who touched what, and how often each box was touched.
#![tactic(auto)]

mod buffers;
mod counts;
mod grid;
mod heat;
mod memory;
mod parts;
mod roles;
mod run;
mod svg;
mod table;
mod title;

pub use memory::memory_picture;
pub use run::run_picture;
