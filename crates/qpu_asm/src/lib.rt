//! The text of instruction words: an assembler and a disassembler.
//!
//! The text's language is in `specs/`: `Table` (which items an instruction has, from the highest bit down, and their names),
//! `Lines`, `Items`, `Labels`, `Faults` (all faults of a text), `Assembly` (its words, or the least of its faults), `Place` (where
//! a fault stands on its line) and `Printed` (the disassembler's text). `Walk` and `Seen` tie the code to these.
#![tactic(auto)]

mod assembler;
mod disassembler;
mod fault;
mod item;
mod label;
mod lines;
mod names;
mod place;
mod table;

pub use assembler::assemble;
pub use disassembler::{disassemble, fields_in_order, printed_returns, put_word};
pub use fault::{AsmFault, Mistake};
pub use place::{FaultPlace, Opcode, Wanted, fault_place};
