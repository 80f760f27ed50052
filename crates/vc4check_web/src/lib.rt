//! The program's commands as one call, for a page: words and input in; a status, a text and a line out.
//!
//! `web/build` makes the module that a browser runs from this library. The call keeps nothing.
#![tactic(auto)]

mod call;
mod kept;
mod put;
mod word;

pub use call::Lengths;
pub use word::Word;
