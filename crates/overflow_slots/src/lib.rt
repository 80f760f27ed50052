//! A driver's book of tile memory.
//!
//! Tile memory is some slots of 524,288 bytes. A job begins with one slot, whose front the binner's states and first blocks take.
//! A binner that waits for memory is handed blocks of 128 bytes of its job's newest slot, and where none is left, another free
//! slot. At its end a job gives its slots back. No slot belongs to two jobs.
//!
//! In `specs/`, `SlotRun` says what a list of calls does, in lists and sets; `Calls` and `Text` say what a script and its answer
//! are.
#![tactic(auto)]

mod call;
mod pool;
mod replies;
mod slots;

pub use call::Call;
pub use pool::{Block, Pool};
pub use replies::{script, stays_ordered};
