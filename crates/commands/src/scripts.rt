//! Commands that answer scripts: `slots`, `queue` and `session`.
ghost use Rattle.std.specs.Prelude.{◌≡◌, ◌≤◌, length, Some, IfOk};
ghost use Rattle.field_words.specs.Sizes.{most_list};
ghost use Rattle.commands.specs.{Answer.IsAnswerTo, Cause.IsRefusal, Scripts.calls_text, Scripts.malformed_text};
ghost use Rattle.commands.specs.declared.cause.Cause.TheVariants.{Call};
ghost use Rattle.commands.specs.declared.command.Command.TheVariants.{Slots, Queue, Session};

use super::answer::Answer;
use super::cause::Cause;
use field_words::{NoMemory, Stop};
use std::alloc::Global;

/// Whose calls a script has.
#[derive(Clone, Copy, Debug, PartialEq, Eq)]
pub enum Script {
    Slots,
    Queue,
    Session,
}

impl Script {
    /// The calls, as a line names them.
    #[tactic(auto, unfolding(crate::specs::Scripts::calls_text))]
    pub fn calls(self) -> &'static str
        ensures { result.now ≡ calls_text self }
    {
        match self {
            Script::Slots => {
                "begin JOB TILES, take JOB, overflow JOB or end JOB, with a job to 31 and tiles to 65025"
            }
            Script::Queue => {
                "submit READS WRITES, start, bin or render, where READS and WRITES are - or numbers parted by commas"
            }
            Script::Session => {
                "create CLIENT PAGES, code CLIENT HEX, write CLIENT ID AT HEX, read CLIENT ID AT LENGTH, free CLIENT ID or submit CLIENT HEX, with a client to 7"
            }
        }
    }
}

// The answer to a script of which this line is the first that is no call.
#[tactic(auto, unfolding(crate::specs::Scripts::malformed_text))]
fn malformed(alloc: Global, script: Script, line: u32) -> Result<Answer, NoMemory>
    ensures { IfOk result (IsRefusal (malformed_text line) (Some (Call script line))) }
{
    let text = format!(in alloc; "line {line} fault 1\n")?.into_bytes();
    Ok(Answer::refused(text, Some(Cause::Call(script, line))))
}

/// What `slots` answers to a script on so many slots: a line for each call, or its first malformed line.
pub fn slots_answer(alloc: Global, slots: u32, text: &[u8]) -> Result<Answer, NoMemory>
    requires some { 1 ≤ slots }
    requires few { slots ≤ 32 }
    requires small { length text.now ≤ most_list }
    ensures { IfOk result (IsAnswerTo (Slots slots) text.now) }
{
    match overflow_slots::script(alloc, slots, text) {
        Ok(text) => Ok(Answer::done(text)),
        Err(Stop::Fault(line)) => malformed(alloc, Script::Slots, line),
        Err(Stop::NoMemory) => Err(NoMemory),
    }
}

/// What `queue` answers to a script on a queue of jobs with so many buffers: a line for each call, or its first malformed line.
pub fn queue_answer(alloc: Global, buffers: u32, text: &[u8]) -> Result<Answer, NoMemory>
    requires few { buffers ≤ 1024 }
    requires small { length text.now ≤ most_list }
    ensures { IfOk result (IsAnswerTo (Queue buffers) text.now) }
{
    match job_queue::script(alloc, buffers, text) {
        Ok(text) => Ok(Answer::done(text)),
        Err(Stop::Fault(line)) => malformed(alloc, Script::Queue, line),
        Err(Stop::NoMemory) => Err(NoMemory),
    }
}

/// What `session` answers to a script on a session without buffers: a line for each call, or its first malformed line.
pub fn session_answer(alloc: Global, text: &[u8]) -> Result<Answer, NoMemory>
    requires { length text.now ≤ most_list }
    ensures { IfOk result (IsAnswerTo Session text.now) }
{
    match job_session::script(alloc, text) {
        Ok(text) => Ok(Answer::done(text)),
        Err(Stop::Fault(line)) => malformed(alloc, Script::Session, line),
        Err(Stop::NoMemory) => Err(NoMemory),
    }
}
