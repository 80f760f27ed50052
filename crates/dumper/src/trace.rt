//! The text of a run.
ghost use Rattle.std.specs.Prelude.{◌≡◌, ◌≤◌, ◌<◌, ◌++◌, IfOk, OnOk, string_bytes};
ghost use Rattle.dumper.specs.Trace.{unit_text, counts_text, reach_text, step_end, step_text, ending_name, ending_text, trace_text};
ghost use Rattle.dumper.specs.Text.{place_text};
ghost use Rattle.std.specs.Fmt.{decimal};

use super::lines::place_digits;
use super::text::place_text;
use field_words::{Actor, NoMemory};
use itoa::Buffer;
use replay::{Ending, Trace, TraceLine};
use std::alloc::{AllocError, Global};

/// Room for a step's line as it mostly is.
const STEP_LINE: usize = 32;

/// Appends a number in decimal.
pub fn push_number(out: &mut Vec<u8>, number: u32) -> Result<(), AllocError>
    ensures { OnOk result (out.new.items ≡ out.old.items ++ decimal number) }
{
    let mut buffer = Buffer::new();
    out.extend_from_slice(buffer.format(number).as_bytes())
}

/// Appends a unit's name: `binner`, `renderer`, `qpu3`, or `tmu3.1`.
#[tactic(auto, unfolding(crate::specs::Trace::unit_text))]
pub fn push_unit(out: &mut Vec<u8>, unit: Actor) -> Result<(), AllocError>
    ensures { OnOk result (out.new.items ≡ out.old.items ++ unit_text unit) }
{
    match unit {
        Actor::Binner => out.extend_from_slice(b"binner"),
        Actor::Renderer => out.extend_from_slice(b"renderer"),
        Actor::Qpu(q) => {
            out.extend_from_slice(b"qpu")?;
            push_number(out, u32::from(q))
        }
        Actor::Tmu(q, n) => {
            out.extend_from_slice(b"tmu")?;
            push_number(out, u32::from(q))?;
            out.extend_from_slice(b".")?;
            push_number(out, u32::from(n))
        }
    }
}

/// Appends a place. One that needs more than eight digits takes memory of its own.
pub fn push_place(alloc: Global, out: &mut Vec<u8>, place: u64) -> Result<(), AllocError>
    ensures { OnOk result (out.new.items ≡ out.old.items ++ place_text place) }
{
    if place >= 1 << 32 {
        return out.extend_from_slice(place_text(alloc, place)?.as_bytes());
    }
    out.extend_from_slice(&place_digits(place as u32))
}

/// Appends from where to where a step reached.
#[tactic(auto, unfolding(crate::specs::Trace::reach_text))]
fn push_reach(alloc: Global, out: &mut Vec<u8>, line: &TraceLine) -> Result<(), AllocError>
    ensures { OnOk result (out.new.items ≡ out.old.items ++ reach_text line.now) }
{
    if line.reads == 0 && line.writes == 0 {
        return out.extend_from_slice(b"- -");
    }
    push_place(alloc, out, line.low)?;
    out.extend_from_slice(b" ")?;
    push_place(alloc, out, line.high)
}

#[tactic(auto, unfolding(crate::specs::Trace::counts_text))]
fn push_counts(out: &mut Vec<u8>, line: &TraceLine) -> Result<(), AllocError>
    ensures { OnOk result (out.new.items ≡ out.old.items ++ counts_text line.now) }
{
    out.extend_from_slice(b" ")?;
    push_number(out, line.reads)?;
    out.extend_from_slice(b" ")?;
    push_number(out, line.writes)?;
    out.extend_from_slice(b" ")
}

#[tactic(auto, unfolding(crate::specs::Trace::step_end))]
fn push_step_end(out: &mut Vec<u8>, version: u32, job: u8) -> Result<(), AllocError>
    ensures { OnOk result (out.new.items ≡ out.old.items ++ step_end version job) }
{
    if version == 1 {
        return out.extend_from_slice(b"\n");
    }
    out.extend_from_slice(b" job ")?;
    push_number(out, u32::from(job))?;
    out.extend_from_slice(b"\n")
}

#[tactic(auto, unfolding(crate::specs::Trace::step_text))]
fn push_step(
    alloc: Global,
    out: &mut Vec<u8>,
    version: u32,
    line: &TraceLine,
) -> Result<(), AllocError>
    ensures { OnOk result (out.new.items ≡ out.old.items ++ step_text version line.now) }
{
    push_unit(out, line.unit)?;
    push_counts(out, line)?;
    push_reach(alloc, out, line)?;
    push_step_end(out, version, line.job)
}

/// How a run ended, in words.
pub fn ending_name(ending: Ending) -> &'static str
    ensures { result.now ≡ ending_name ending }
{
    match ending {
        Ending::Finished => "finished",
        Ending::Waiting => "waiting",
        Ending::Spent => "steps spent",
    }
}

/// The line that says how a run ended, after how many steps.
#[tactic(auto, unfolding(crate::specs::Trace::ending_text))]
pub fn ending_text(alloc: Global, ending: Ending, steps: usize) -> Result<String, AllocError>
    ensures { IfOk result (λ text. string_bytes text ≡ ending_text ending steps) }
{
    let name = ending_name(ending);
    format!(in alloc; "{name} after {steps}\n")
}

/// The text of a run: a line for each step, and how the run ended after how many. A step's line has its unit, how many reads and
/// how many writes it did, and the least place and the greatest end of what it touched, or `- -` where it touched nothing. In a file
/// of version 2 the number of the job that the step was done for comes last.
#[tactic(auto, unfolding(crate::specs::Trace::trace_text))]
pub fn trace_text(alloc: Global, version: u32, trace: &Trace) -> Result<Vec<u8>, NoMemory>
    requires a_version { 1 ≤ version }
    requires known { version ≤ 2 }
    ensures { IfOk result (λ text. text.items ≡ trace_text version trace.now) }
{
    let mut out = Vec::with_capacity(alloc, STEP_LINE.saturating_mul(trace.lines.len()))?;
    for line in &trace.lines {
        push_step(alloc, &mut out, version, line)?;
    }
    out.extend_from_slice(ending_text(alloc, trace.ending, trace.lines.len())?.as_bytes())?;
    Ok(out)
}
