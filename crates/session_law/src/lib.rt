//! The calls of a session answer as the history of all clients' calls says.
//!
//! `job_session` says twice what its calls do: by the page map and the slots that it keeps (`Desk`), and by the history of all
//! clients' calls (`Session`, with each client's own buffers in `Own` and where all of them lie in `Places`). Here the two are one:
//! from a new session on, each call answers what the history says, and leaves what agrees with it. So the replies to a
//! client, but for those that memory is full, are those of its own commands alone, but for the commands that were answered so; each live
//! buffer's bytes lie in its pages, and all other pages are zero.
//!
//! In `specs/`, `Agree` says when what a session keeps agrees with the calls before, `History` what lists of calls leave, `Kept` what
//! the memory holds then, `Full` when it is full, `Scripts` what a script is answered, `Lying` the file of a submit with the client's
//! buffers where they lie, and `Laws` names the laws. Each law is a function with an empty body, so that a call can cite it.
#![tactic(auto)]

ghost use Rattle.session_law.specs.Laws.{NewSessionsAgree, CallsAreAnswered, HistoriesAgree, SessionsGoOn, RepliesAreOfHistories};
ghost use Rattle.session_law.specs.Laws.{ClientsAreApart, MemoryIsKept, FullIsExact, PlacesAreLowest};
ghost use Rattle.session_law.specs.Lying.{SubmitsAreOfPlaces};
ghost use Rattle.session_law.specs.Scripts.{ScriptsAreOfHistories, ScriptsAreOfCalls};

/// A new session agrees with no calls.
#[tactic(auto, using(crate::proofs::Answering::new_sessions_agree))]
pub fn new_sessions_agree()
    ensures { NewSessionsAgree }
{}

/// Where a session agrees with the calls before, each call of it, `create`, `code`, `write`, `read`, `free` and `submit`, answers what
/// they say, and leaves what agrees with the calls up to it.
pub fn calls_are_answered()
    ensures { CallsAreAnswered }
{}

/// So what any calls leave of a new session agrees with them.
#[tactic(auto, using(crate::proofs::Answering::histories_agree))]
pub fn histories_agree()
    ensures { HistoriesAgree }
{}

/// A session on which calls were made one after the other answers a further call as the history of all of them says, and is left as all of
/// them leave a new one: its calls' clauses on answers and on what they leave say no less than the script's.
pub fn sessions_go_on()
    ensures { SessionsGoOn }
{}

/// The replies to a client are those of the history of all clients' calls.
#[tactic(auto, using(crate::proofs::Answering::replies_are_of_histories))]
pub fn replies_are_of_histories()
    ensures { RepliesAreOfHistories }
{}

/// The replies to a client, but for those that memory is full, are those of its own commands alone, but for the commands that were answered
/// so.
#[tactic(auto, using(crate::proofs::Answering::clients_are_apart))]
pub fn clients_are_apart()
    ensures { ClientsAreApart }
{}

/// After any calls each live buffer's bytes lie in its pages, each place is a live buffer's, no page is in two of them, and all bytes
/// of all other pages are zero.
#[tactic(auto, using(crate::proofs::Keeping::memory_is_kept))]
pub fn memory_is_kept()
    ensures { MemoryIsKept }
{}

/// A call is replied that memory is full exactly where no earlier refusal of it applies and there is no room for its buffer.
pub fn full_is_exact()
    ensures { FullIsExact }
{}

/// The place that a new buffer takes is the lowest with room for it.
pub fn places_are_lowest()
    ensures { PlacesAreLowest }
{}

/// A script's answer is that of the history of all clients' calls on its lines.
#[tactic(auto, using(crate::proofs::Scripting::scripts_are_of_histories))]
pub fn scripts_are_of_histories()
    ensures { ScriptsAreOfHistories }
{}

/// It is the text of the replies to the calls on its lines, made one after the other on a new session, so the laws above speak of them.
#[tactic(auto, using(crate::proofs::Scripting::scripts_are_of_calls))]
pub fn scripts_are_of_calls()
    ensures { ScriptsAreOfCalls }
{}

/// A submit's answer is also that of the file with the client's buffers where they lie.
pub fn submits_are_of_places()
    ensures { SubmitsAreOfPlaces }
{}
