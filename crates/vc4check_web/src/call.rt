//! The call.
ghost use Rattle.std.specs.Prelude.{◌≡◌, ◌≢◌, false, IfOk, OnErr, Some};
ghost use Rattle.commands.specs.declared.command.Command.TheVariants.{Check};
ghost use Rattle.commands.specs.declared.command.Task.TheVariants.{Read};
ghost use Rattle.commands.specs.Run.{Promises};
ghost use Rattle.commands.specs.Words.{task_or_fault, task_of};
ghost use Rattle.promises.specs.MayRun.{MayRun};
ghost use Rattle.vc4check_web.specs.Call.{line_of, words_text, IsReport, IsReported, IsPut};

use crate::kept::KeptSink;
use crate::put::put;
use crate::word::{Word, words_of};
use commands::{Cause, run_with_cause};
use entry::Ended;
use field_words::NoMemory;
use job_io::SteadySource;
use std::alloc::Global;

/// Memory ran out before the answer was there.
const NO_MEMORY: u32 = 5;

/// How many bytes the answer's text and the line have, also where they were cut off.
#[repr(C)]
#[derive(Clone, Copy, Debug, PartialEq, Eq)]
pub struct Lengths {
    pub text: usize,
    pub line: usize,
}

/// What a run answers.
#[derive(Drop)]
struct Report {
    status: u8,
    text: Vec<u8>,
    cause: Option<Cause>,
}

/// The input as a source.
fn source_of(alloc: Global, input: &[u8]) -> Result<SteadySource, NoMemory>
    ensures { IfOk result (λ source. source ≡ input.now) }
{
    let mut bytes = Vec::with_capacity(alloc, input.len())?;
    bytes.extend_from_slice(input)?;
    Ok(SteadySource::new(bytes))
}

/// Does what the words ask for with this input.
fn answer(alloc: Global, words: &[Word], input: &[u8]) -> Result<Report, NoMemory>
    ensures report { IfOk result (λ r. IsReport (task_or_fault (words_text words.now)) input.now
        r.status r.text.items r.cause) }
    ensures safe { task_of (words_text words.now) ≡ Some (Read (Check false))
        → IfOk result (λ r. r.status ≡ 0 → MayRun input.now) }
{
    let words = words_of(alloc, words)?;
    let mut source = source_of(alloc, input)?;
    let mut sink = KeptSink::new(alloc);
    let Ended { status, cause } = run_with_cause(alloc, &words, &mut source, &mut sink);
    // A sink of memory fails only where that runs out.
    if status == 4 || status == 5 {
        return Err(NoMemory);
    }
    Ok(Report {
        status,
        text: sink.into_bytes(),
        cause,
    })
}

/// The line of a cause, which is empty where there is none.
fn line_of(alloc: Global, cause: Option<Cause>) -> Result<Vec<u8>, NoMemory>
    ensures { IfOk result (λ line. line.items ≡ line_of cause) }
{
    match cause {
        Some(cause) => Ok(format!(in alloc; "{cause}")?.into_bytes()),
        None => Ok(Vec::new(alloc)),
    }
}

/// Writes a report into the rooms. Its line is made first, since memory can run out there.
fn write(
    alloc: Global,
    report: &Report,
    text: &mut [u8],
    line: &mut [u8],
) -> Result<Lengths, NoMemory>
    ensures text { IfOk result (λ lengths. IsPut text.old text.new lengths.text
        report.now.text.items) }
    ensures line { IfOk result (λ lengths. IsPut line.old line.new lengths.line
        (line_of report.now.cause)) }
    ensures kept { OnErr result ((text.new ≡ text.old) × (line.new ≡ line.old)) }
{
    let why = line_of(alloc, report.cause)?;
    Ok(Lengths {
        text: put(&report.text, text),
        line: put(&why, line),
    })
}

/// Does what the program does for these words with this input. It writes the answer to the start of `text`, and to the start of `line` what
/// a person reads besides, each cut off where its room is too small; `lengths` says how many bytes both have.
///
/// | Status | Meaning | `text` | `line` |
/// |---|---|---|---|
/// | 0 | done | the command's text | the notes of a shader, a line each, without a line feed behind the last |
/// | 1 | refused | the refusal's text | why, where there is more to say |
/// | 2 | the words ask for nothing that the program does | | which word is wrong |
/// | 5 | want of memory | as before | as before |
/// | 6 | more input than the command's limit | | |
#[unsafe(no_mangle)]
#[tactic(auto, using(commands::proofs::Promised::promises))]
pub extern "C" fn vc4check_run(
    alloc: Global,
    words: &[Word],
    input: &[u8],
    text: &mut [u8],
    line: &mut [u8],
    lengths: &mut Lengths,
) -> u32
    // What each command answers to its input, or which word is wrong.
    ensures report { result ≢ 5 → IsReported (task_or_fault (words_text words.now)) input.now result
        text.old text.new line.old line.new lengths.new }
    ensures kept { result ≡ 5 → (text.new ≡ text.old) × (line.new ≡ line.old)
        × (lengths.new ≡ lengths.old) }
    // Each job of a file that `check` accepts may run from just the memory that is reported.
    ensures safe { task_of (words_text words.now) ≡ Some (Read (Check false)) → result ≡ 0
        → MayRun input.now }
    ensures promises { Promises }
{
    let Ok(report) = answer(alloc, words, input) else {
        return NO_MEMORY;
    };
    match write(alloc, &report, text, line) {
        Ok(written) => {
            *lengths = written;
            u32::from(report.status)
        }
        Err(NoMemory) => NO_MEMORY,
    }
}
