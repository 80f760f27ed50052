//! Scripts of calls, and their answers.
ghost use Rattle.std.specs.Prelude.{◌≡◌, ◌≤◌, ◌<◌, ◌^◌, length, IfOk, IfErr, OnOk, None};
ghost use Rattle.script.specs.Replies.{Adds, IsScriptFault};
ghost use Rattle.field_words.specs.Sizes.{most_code};
ghost use Rattle.job_session.specs.Own.{Make, Read, Submit, Id, Accepted, Bytes, Refused, Broken};
ghost use Rattle.job_session.specs.Calls.{fault_line, is_formed as formed, hex_bytes, command_of, Fits};
ghost use Rattle.job_session.specs.Desk.{Desk};
ghost use Rattle.job_session.specs.Replies.{created_reply, denied_reply, done_reply, command_after};
ghost use Rattle.job_session.specs.Text.{reply_line, answer_line, line_reply, line_after, replies};

use super::call::{Request, read_line};
use super::denied::{BrokenRule, Denied};
use super::session::Session;
use field_words::Stop;
use hex::FromHexError;
use script::{Clerk, answer};
use std::alloc::{AllocError, Global};
use std::fmt::Write;

// The bytes that a line's hex writes.
#[tactic(auto, unfolding(crate::specs::Calls::hex_bytes))]
fn decoded(alloc: Global, hex: &[u8]) -> Result<Vec<u8>, AllocError>
    ensures { IfOk result (λ bytes. bytes.items ≡ hex_bytes hex.now) }
{
    match hex::decode(alloc, hex) {
        Ok(bytes) => Ok(bytes),
        Err(FromHexError::OutOfMemory) => Err(AllocError),
        Err(_) => Ok(Vec::new(alloc)),
    }
}

#[tactic(auto, unfolding(crate::specs::Text::reply_line))]
fn put_refused(out: &mut String, refusal: u8) -> Result<(), AllocError>
    ensures { OnOk result (Adds out.old out.new (reply_line (Refused refusal))) }
{
    write!(out, "refused J{refusal}\n")
}

#[tactic(auto, unfolding(crate::specs::Text::reply_line))]
fn put_broken(out: &mut String, broken: BrokenRule) -> Result<(), AllocError>
    ensures { OnOk result (Adds out.old out.new (reply_line (Broken broken))) }
{
    let rule = broken.rule;
    let offset = broken.offset;
    write!(out, "refused {rule} at {offset}\n")
}

fn put_denied(out: &mut String, denied: Denied) -> Result<(), AllocError>
    ensures { OnOk result (Adds out.old out.new (reply_line (denied_reply denied))) }
{
    match denied {
        Denied::Session(refusal) => put_refused(out, refusal),
        Denied::Job(broken) => put_broken(out, broken),
    }
}

#[tactic(auto, unfolding(crate::specs::Text::reply_line))]
fn put_id(out: &mut String, id: u32) -> Result<(), AllocError>
    ensures { OnOk result (Adds out.old out.new (reply_line (Id id))) }
{
    write!(out, "id {id}\n")
}

fn put_created(out: &mut String, answer: Result<u32, u8>) -> Result<(), AllocError>
    ensures { OnOk result (Adds out.old out.new (reply_line (created_reply answer))) }
{
    match answer {
        Ok(id) => put_id(out, id),
        Err(refusal) => put_refused(out, refusal),
    }
}

#[tactic(auto, unfolding(crate::specs::Text::reply_line))]
fn put_done(out: &mut String, answer: Result<(), u8>) -> Result<(), AllocError>
    ensures { OnOk result (Adds out.old out.new (reply_line (done_reply answer))) }
{
    match answer {
        Ok(()) => write!(out, "done\n"),
        Err(refusal) => put_refused(out, refusal),
    }
}

#[tactic(auto, unfolding(crate::specs::Text::reply_line))]
fn put_bytes(alloc: Global, out: &mut String, bytes: &[u8]) -> Result<(), AllocError>
    ensures { OnOk result (Adds out.old out.new (reply_line (Bytes bytes.now))) }
{
    let digits = hex::encode(alloc, bytes)?;
    write!(out, "bytes {digits}\n")
}

#[tactic(auto, unfolding(crate::specs::Text::reply_line))]
fn put_accepted(out: &mut String) -> Result<(), AllocError>
    ensures { OnOk result (Adds out.old out.new (reply_line Accepted)) }
{
    write!(out, "accepted\n")
}

// Makes a shader, and puts the line that answers it.
#[tactic(auto, unfolding(crate::specs::Replies::command_reply, crate::specs::Replies::command_after))]
fn put_code(
    alloc: Global,
    out: &mut String,
    session: &mut Session,
    client: u8,
    hex: &[u8],
) -> Result<(), AllocError>
    requires client { client < 8 }
    requires few { length (hex_bytes hex.now) ≤ most_code }
    ensures line { OnOk result (Adds out.old out.new
        (answer_line session.old client (Make (hex_bytes hex.now)))) }
    ensures left { OnOk result (session.new
        ≡ command_after session.old client (Make (hex_bytes hex.now))) }
{
    let bytes = decoded(alloc, hex)?;
    match session.code(alloc, client, &bytes) {
        Ok(id) => put_id(out, id),
        Err(Stop::Fault(denied)) => put_denied(out, denied),
        Err(Stop::NoMemory) => Err(AllocError),
    }
}

// Reads from a buffer, whose id comes before the first byte and the count, and puts the line that answers it.
#[tactic(auto, unfolding(crate::specs::Replies::command_reply))]
fn put_read(
    alloc: Global,
    out: &mut String,
    session: &Session,
    client: u8,
    span: (u32, u32, u32),
) -> Result<(), AllocError>
    requires { client < 8 }
    ensures { OnOk result (Adds out.old out.new
        (answer_line session.now client (Read span.0 span.1 span.2))) }
{
    let (id, at, len) = span;
    match session.read(alloc, client, id, at, len) {
        Ok(bytes) => put_bytes(alloc, out, &bytes),
        Err(Stop::Fault(refusal)) => put_refused(out, refusal),
        Err(Stop::NoMemory) => Err(AllocError),
    }
}

// Checks a job, and puts the line that answers it.
#[tactic(auto, unfolding(crate::specs::Replies::command_reply))]
fn put_submit(
    alloc: Global,
    out: &mut String,
    session: &Session,
    client: u8,
    hex: &[u8],
) -> Result<(), AllocError>
    requires { client < 8 }
    ensures { OnOk result (Adds out.old out.new
        (answer_line session.now client (Submit (hex_bytes hex.now)))) }
{
    let parts = decoded(alloc, hex)?;
    match session.submit(alloc, client, &parts) {
        Ok(()) => put_accepted(out),
        Err(Stop::Fault(denied)) => put_denied(out, denied),
        Err(Stop::NoMemory) => Err(AllocError),
    }
}

// Makes a call, and puts the line that answers it.
#[tactic(auto, unfolding(crate::specs::Replies::command_reply, crate::specs::Replies::command_after))]
fn put_answer(
    alloc: Global,
    out: &mut String,
    session: &mut Session,
    client: u8,
    request: Request<'_>,
) -> Result<(), AllocError>
    requires client { client < 8 }
    requires fits { Fits request }
    ensures line { OnOk result (Adds out.old out.new
        (answer_line session.old client (command_of request.entry))) }
    ensures left { OnOk result (session.new
        ≡ command_after session.old client (command_of request.entry)) }
{
    match request {
        Request::Create { pages } => put_created(out, session.create(client, pages)),
        Request::Code { hex } => put_code(alloc, out, session, client, hex),
        Request::Write { id, at, hex } => {
            let part = decoded(alloc, hex)?;
            put_done(out, session.write(client, id, at, &part))
        }
        Request::Read { id, at, len } => put_read(alloc, out, session, client, (id, at, len)),
        Request::Free { id } => put_done(out, session.free(client, id)),
        Request::Submit { hex } => put_submit(alloc, out, session, client, hex),
    }
}

impl Clerk for Session {
    ghost Past = { Desk };

    ghost Stands = { λ _ desk session. session ≡ desk };

    ghost formed = { formed };

    ghost reply = { line_reply };

    ghost after = { line_after };

    #[tactic(auto, unfolding(crate::specs::Calls::is_formed))]
    fn is_formed(line: &[u8]) -> bool {
        read_line(line).is_some()
    }

    fn put_reply(
        &mut self,
        alloc: Global,
        out: &mut String,
        line: &[u8],
    ) -> Result<(), AllocError> {
        match read_line(line) {
            Some(call) => put_answer(alloc, out, self, call.client, call.request),
            None => Ok(()),
        }
    }
}

/// Answers a script of calls on a session without buffers: a line for each of its lines. The fault is the number, from 1, of the first
/// line that is no call; no call is made then. An empty script is answered by nothing.
///
/// A script's lines end at line feeds, and the last one may lack it. A line is `create <client> <pages>`, `code <client> <hex>`,
/// `write <client> <id> <at> <hex>`, `read <client> <id> <at> <len>`, `free <client> <id>` or `submit <client> <hex>`, with one space
/// before each word. Clients are from 0 to 7, and the other numbers below 2^32. Hex has two digits of either case for each byte and one
/// byte or more, and in `code` at most 65,536 bytes.
#[tactic(auto, unfolding(crate::specs::Calls::fault_line, crate::specs::Text::replies))]
pub fn script(alloc: Global, text: &[u8]) -> Result<Vec<u8>, Stop<u32>>
    requires { length text.now < 2 ^ 32 }
    ensures answers { IfOk result (λ bytes. (fault_line text.now ≡ None)
        × (bytes.items ≡ replies text.now)) }
    ensures fault { IfErr result (IsScriptFault (fault_line text.now)) }
{
    let mut session = Session::new(alloc)?;
    answer(alloc, &mut session, text)
}
