//! What a shader takes from its uniform stream, and what it writes to the texture units.
//!
//! The uniforms come one after the other, by a pointer that the shader can also set. The definitions in `specs/` are
//! sentences about the whole list of words: `Pending` (setup words and counts), `Stream` (restarts, where the position is
//! known, address words) and `Rules` (one rule each).
#![tactic(auto)]

mod position;
mod quiet;
mod rules;
mod state;
mod walk;

pub use position::known;
pub use quiet::writes_registers;
pub use rules::stream_fault;
pub use state::Stream;
pub use walk::{is_open, stream};
