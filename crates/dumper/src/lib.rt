//! The texts that the program prints.
#![tactic(auto)]

mod example;
mod lines;
mod span;
mod text;
mod trace;

pub use example::example_text;
pub use lines::{Filled, PIECE, put_part};
pub use span::{Span, insert_span};
pub use text::{IMAGE_END, image_head, refusal_text};
pub use trace::{ending_name, ending_text, push_number, push_place, push_unit, trace_text};
