//! The familiar text of an instruction: near to what Mesa's driver prints, for people who read shaders.
//!
//! It says what each unit does, with the names of registers, what is read without being an operand, and the signal. It leaves out what
//! no part of the instruction selects: an unpacking of what isn't an operand, the second operand of an operation that has one, and a
//! small value that isn't an operand. So two words may have one text; the assembler's text tells them apart.
#![tactic(auto)]

mod alu;
mod branch;
mod load;
mod pieces;
mod tables;
mod word;

pub use load::put_hex;
pub use pieces::{if_so, named, put_all};
pub use word::put_familiar;
