//! What a job file says at the place of a refusal, in words.
ghost use Rattle.std.specs.Prelude.{◌≡◌, ◌≢◌, ◌≤◌, ◌⊎◌, length, IfOk};
ghost use Rattle.field_words.specs.Questions.{first_of};
ghost use Rattle.buffer_table.specs.Table.{most_place};
ghost use Rattle.job_check.specs.Whole.{questions_within};
ghost use Rattle.vc4check_c.specs.Shader.{with_front};
ghost use Rattle.vc4check_c.specs.Sentence.{c_text};
ghost use Rattle.vc4check_c.specs.Facts.{is_report, refusal_reported, facts_reported};

use crate::jobs::{JobsAnswer, letter};
use crate::sentence::put_c_text;
use crate::status::{ACCEPTED, NO_MEMORY};
use buffer_table::MOST_PLACE;
use field_words::{MOST_MEMORY, NoMemory, Stop};
use job_check::check_places;
use job_format::{Refusal, offset_of};
use refusal_facts::{Inside, facts_of};
use std::alloc::Global;

/// The first broken rule of a file whose memory has at most so many bytes.
#[tactic(auto, using(field_words::proofs::Questions::first_is))]
fn first_within(alloc: Global, limit: u32, bytes: &[u8]) -> Result<Option<Refusal>, NoMemory>
    requires { limit ≤ most_place }
    ensures { IfOk result (λ refusal. refusal ≡ first_of (questions_within limit bytes.now)) }
{
    match check_places(alloc, limit, bytes) {
        Ok(_) => Ok(None),
        Err(Stop::Fault(refusal)) => Ok(Some(refusal)),
        Err(Stop::NoMemory) => Err(NoMemory),
    }
}

/// Whether the answer reports this refusal.
fn is_report(bytes: &[u8], answer: &JobsAnswer, refusal: Option<Refusal>) -> bool
    ensures { result ≡ is_report bytes.now answer.now refusal }
{
    match refusal {
        Some(refusal) => {
            let rule = refusal.rule;
            answer.letter == u32::from(letter(rule.stage))
                && answer.number == u32::from(rule.number)
                && u128::from(answer.offset) == offset_of(bytes, refusal.place)
        }
        None => false,
    }
}

/// The refusal that the answer reports.
fn refusal_reported(
    alloc: Global,
    bytes: &[u8],
    answer: &JobsAnswer,
) -> Result<Option<Refusal>, NoMemory>
    ensures { IfOk result (λ refusal. refusal ≡ refusal_reported bytes.now answer.now) }
{
    let first = first_within(alloc, MOST_MEMORY, bytes)?;
    if is_report(bytes, answer, first) {
        return Ok(first);
    }
    let placed = first_within(alloc, MOST_PLACE, bytes)?;
    if is_report(bytes, answer, placed) {
        return Ok(placed);
    }
    Ok(None)
}

/// The facts of the refusal that the answer reports.
fn facts_reported(alloc: Global, bytes: &[u8], answer: &JobsAnswer) -> Result<Vec<u8>, NoMemory>
    ensures { IfOk result (λ text. text.items ≡ facts_reported bytes.now answer.now) }
{
    match refusal_reported(alloc, bytes, answer)? {
        Some(refusal) => {
            let facts = facts_of(alloc, bytes, refusal)?;
            Ok(format!(in alloc; "{}", Inside { facts })?.into_bytes())
        }
        None => Ok(Vec::new(alloc)),
    }
}

/// Tells what the job file says at the place of a refusal, which is reported by the answer of `vc4check_check` or `vc4check_place` to these
/// bytes. The text is put to the room's start as by `vc4check_sentence`, and `size` tells its length without the zero byte: 0 where the
/// file says no more than the rule's sentence, or the answer isn't of these bytes.
///
/// | Status | Meaning | `room` and `size` |
/// |---|---|---|
/// | 0 | done | the text, and its length |
/// | 3 | out of memory | as before |
#[unsafe(no_mangle)]
pub extern "C" fn vc4check_facts(
    alloc: Global,
    bytes: &[u8],
    answer: &JobsAnswer,
    room: &mut [u8],
    size: &mut usize,
) -> u32
    ensures statuses { (result ≡ 0) ⊎ (result ≡ 3) }
    ensures whole { result ≡ 0 → size.new ≡ length (facts_reported bytes.now answer.now) }
    ensures report { result ≡ 0 → room.new ≡ with_front room.old
        (c_text (length room.old) (facts_reported bytes.now answer.now)) }
    ensures kept { result ≢ 0 → room.new ≡ room.old }
    ensures starved { result ≡ 3 → size.new ≡ size.old }
{
    match facts_reported(alloc, bytes, answer) {
        Ok(text) => {
            *size = put_c_text(&text, room);
            ACCEPTED
        }
        Err(_) => NO_MEMORY,
    }
}
