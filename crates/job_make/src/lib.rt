//! A text as bytes.
//!
//! `make` reads what stands before each `#` of a line: digits, numbers, and lengths of sections of the text. Between lines `asm` and
//! `end` it reads assembler text.
#![tactic(auto)]

mod blocks;
mod fault;
mod reading;
mod sections;
mod words;

pub use fault::{MakeFault, Mistake};
pub use reading::make;
