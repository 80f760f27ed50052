//! Scripts of calls, and their answers.
ghost use Rattle.std.specs.Prelude.{◌≡◌, ◌≤◌, ◌<◌, ◌^◌, length, IfOk, IfErr, OnOk, None};
ghost use Rattle.script.specs.Replies.{Adds, IsScriptFault};
ghost use Rattle.job_queue.specs.Calls.{fault_line, is_formed as formed};
ghost use Rattle.job_queue.specs.Desk.{Agrees};
ghost use Rattle.job_queue.specs.Past.{Past};
ghost use Rattle.job_queue.specs.Text.{refused_line, answer_line, submit_reply, after_submit_line, line_reply, after_line, replies};

use super::call::{Call, put_numbers, read_call};
use super::queue::{Queue, QueueFault};
use field_words::Stop;
use script::{Clerk, answer, cut_at};
use std::alloc::{AllocError, Global};
use std::fmt::Write;

#[tactic(auto, unfolding(crate::specs::Text::refused_line))]
fn put_refused(out: &mut String, fault: QueueFault) -> Result<(), AllocError>
    ensures { OnOk result (Adds out.old out.new (refused_line fault)) }
{
    match fault {
        QueueFault::Unknown { .. } => write!(out, "refused Q1\n"),
        QueueFault::Full => write!(out, "refused Q2\n"),
        QueueFault::Binning { .. } => write!(out, "refused Q3\n"),
        QueueFault::NoJob => write!(out, "refused Q4\n"),
        QueueFault::Waits { writer } => write!(out, "refused Q5 {writer}\n"),
        QueueFault::NotBinning => write!(out, "refused Q6\n"),
        QueueFault::NotBinned => write!(out, "refused Q7\n"),
    }
}

// What a call answers: this word and the job's number, or the refusal.
#[tactic(auto, unfolding(crate::specs::Text::answer_line))]
fn put_answer(
    out: &mut String,
    word: &str,
    answer: Result<u64, QueueFault>,
) -> Result<(), AllocError>
    ensures { OnOk result (Adds out.old out.new (answer_line word.now answer)) }
{
    match answer {
        Ok(job) => write!(out, "{word} {job}\n"),
        Err(fault) => put_refused(out, fault),
    }
}

// Submits a job, and puts the line that answers it. Its buffers stand on this line.
fn put_submit(
    alloc: Global,
    out: &mut String,
    queue: &mut Queue,
    line: &[u8],
) -> Result<(), AllocError>
    requires { queue.old.submitted < 2 ^ 63 }
    ensures line { (past : Past) → Agrees past queue.old
        → OnOk result (Adds out.old out.new (submit_reply past line.now)) }
    ensures kept { (past : Past) → Agrees past queue.old
        → OnOk result (Agrees (after_submit_line past line.now) queue.new) }
{
    let buffers = cut_at(cut_at(line, b' ').rest, b' ');
    let mut reads = Vec::new(alloc);
    put_numbers(&mut reads, buffers.first)?;
    let mut writes = Vec::new(alloc);
    put_numbers(&mut writes, buffers.rest)?;
    put_answer(out, "job", queue.submit(&reads, &writes))
}

// Makes the call that a line is, if any, and puts the line that answers it.
#[tactic(auto, unfolding(crate::specs::Text::call_reply, crate::specs::Text::after_call))]
fn put_line(
    alloc: Global,
    out: &mut String,
    queue: &mut Queue,
    line: &[u8],
) -> Result<(), AllocError>
    requires { queue.old.submitted < 2 ^ 63 }
    ensures line { (past : Past) → Agrees past queue.old
        → OnOk result (Adds out.old out.new (line_reply past line.now)) }
    ensures kept { (past : Past) → Agrees past queue.old
        → OnOk result (Agrees (after_line past line.now) queue.new) }
{
    match read_call(line) {
        Some(Call::Submit) => put_submit(alloc, out, queue, line),
        Some(Call::Start) => put_answer(out, "start", queue.start()),
        Some(Call::Bin) => put_answer(out, "binned", queue.bin_done()),
        Some(Call::Render) => put_answer(out, "rendered", queue.render_done()),
        None => Ok(()),
    }
}

impl Clerk for Queue {
    ghost Past = { Past };

    ghost Stands = { λ lines past queue. Agrees past queue × (length past.jobs ≤ lines) };

    ghost formed = { formed };

    ghost reply = { line_reply };

    ghost after = { after_line };

    #[tactic(auto, unfolding(crate::specs::Calls::is_formed))]
    fn is_formed(line: &[u8]) -> bool {
        read_call(line).is_some()
    }

    #[tactic(auto, using(crate::proofs::Lines::few_more))]
    fn put_reply(
        &mut self,
        alloc: Global,
        out: &mut String,
        line: &[u8],
    ) -> Result<(), AllocError> {
        put_line(alloc, out, self, line)
    }
}

/// Answers a script of calls on a queue without jobs: a line for each of its lines. The fault is the number, from 1, of the first
/// line that is no call; no call is made then. An empty script is answered by nothing.
///
/// A script's lines end at line feeds, and the last one may lack it. A line is `submit <reads> <writes>`, `start`, `bin` or
/// `render`; reads and writes are `-`, or numbers below 2^32 parted by commas.
#[tactic(auto, unfolding(crate::specs::Calls::fault_line, crate::specs::Text::replies))]
pub fn script(alloc: Global, buffers: u32, text: &[u8]) -> Result<Vec<u8>, Stop<u32>>
    requires few { buffers ≤ 1024 }
    requires length { length text.now < 2 ^ 32 }
    ensures answers { IfOk result (λ bytes. (fault_line text.now ≡ None)
        × (bytes.items ≡ replies buffers text.now)) }
    ensures fault { IfErr result (IsScriptFault (fault_line text.now)) }
{
    let mut queue = Queue::new(alloc, buffers)?;
    answer(alloc, &mut queue, text)
}
