//! Numbers, fields and bytes: the words in which all other crates speak.
//!
//! Everything here is small: reading and writing little-endian numbers at a place, taking a bit
//! field out of a word, rounding up, and the answers for want of memory. The definitions in
//! `specs/` are what the contracts of the crates above cite: numbers in bytes (`Words`), writes
//! and what they leave alone (`Writes`), texts made of pieces (`Pieces`), rules asked in an order
//! (`Questions`, `Least`), and sizes and limits (`Sizes`).
#![tactic(auto)]

mod access;
mod sizes;
mod steps;
mod stop;
mod words;

pub use access::{Access, Actor, Way};
pub use sizes::{MOST_CODE, MOST_LIST, MOST_MEMORY, MOST_WORDS, PAGE_SIZE, SLOT_SIZE};
pub use steps::Steps;
pub use stop::{NoMemory, Stop};
pub use words::{byte_at, field, get_u16, get_u32, put_u32, round_up, word_at};
