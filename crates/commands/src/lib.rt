//! The commands of `vc4check`: what each answers to its input, and what the program says to a person.
#![tactic(auto)]

mod answer;
mod asm;
mod bound;
mod cause;
mod check;
mod choice;
mod command;
mod disasm;
mod example;
mod explain;
mod help;
mod json;
mod line;
mod make;
mod names;
mod notice;
mod picture;
mod program;
mod replays;
mod reply;
mod runs;
mod scripts;
mod serve;
mod shader;
mod show;
mod surfaces;
mod trial;
mod upgrade;
mod verb;
mod verdict;
mod word_fault;
mod words;

pub use cause::Cause;
pub use program::Checker;
pub use runs::{run, run_with_cause};
pub use word_fault::WordFault;
