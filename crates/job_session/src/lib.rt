//! Sessions of several clients on one memory: clients are apart, but for the memory being full.
//!
//! In `specs/`, `Own` says what a client is answered by its own commands alone, `Places` where live buffers lie, `Session` what calls
//! of all clients do, and `Laws` that a client's replies are those of its own commands. `Desk` says what `Session` keeps, and what its
//! calls answer and leave, by its page map and slots; `Replies` has that by call, `Submit` the file of a job, `Checked` the rules, and
//! `Calls` and `Text` what a script and its answer are. That a desk answers as `Session` says of the calls before is proved in the
//! crate `session_law`.
#![tactic(auto)]

mod call;
mod denied;
mod job_file;
mod replies;
mod rules;
mod session;

ghost use Rattle.job_session.specs.Laws.{RepliesAreOwn};

pub use denied::{BrokenRule, Denied};
pub use replies::script;
pub use session::{MOST_BUFFERS, MOST_PAGES, MOST_READ, Session};

/// A law: the replies to a client, but for those that memory is full, are those of its own commands alone, but for the commands that were
/// answered so.
pub fn replies_are_own()
    ensures { RepliesAreOwn }
{}
