//! What is printed of the bound.
ghost use Rattle.std.specs.Prelude.{◌≡◌, IfOk, IsOk};
ghost use Rattle.field_words.specs.Questions.{Answers, NeverHidesFault, with_answers};
ghost use Rattle.job_format.specs.Faults.{format_questions};
ghost use Rattle.job_format.specs.File.{IsFileOf};
ghost use Rattle.job_format.specs.Reading.{file_at};
ghost use Rattle.job_check.specs.Whole.{all_questions, format_refused};
ghost use Rattle.job_bound.specs.Bound.{bound_in, text_of, bound_text};

use crate::bound::{Bound, find_bound};
use field_words::{NoMemory, Stop};
use job_check::format_refusal;
use job_format::{Refusal, read_parts};
use std::alloc::Global;

/// The lines that are printed of a bound.
fn line(alloc: Global, bound: &Bound) -> Result<Vec<u8>, NoMemory>
    ensures { IfOk result (λ text. text.items ≡ text_of bound.now) }
{
    let line = match *bound {
        Bound::Steps {
            most,
            stay,
            wait: None,
            ..
        } => format!(in alloc; "steps {most} and {stay} a stay\nends\n")?,
        Bound::Steps {
            most,
            stay,
            wait: Some(offset),
            ..
        } => format!(in alloc; "steps {most} and {stay} a stay\nmay wait at {offset}\n")?,
        Bound::Loops { offset } => format!(in alloc; "loops at {offset}\n")?,
    };
    Ok(line.into_bytes())
}

/// The bound of the file that these bytes spell. `Ok` comes exactly where no rule is broken by them.
///
/// # Errors
/// The first broken rule, by its letter, its number and its place in the bytes; or want of memory.
#[tactic(auto, unfolding(job_check::specs::Whole::questions_within))]
pub fn bound_bytes(alloc: Global, bytes: &[u8]) -> Result<Bound, Stop<Refusal>>
    ensures answers { Answers (all_questions bytes.now)
        (λ bound. bound ≡ bound_in (file_at bytes.now)) result }
    ensures format { NeverHidesFault (with_answers format_refused
        (format_questions bytes.now)) result }
    ensures spelled { IsOk result → IsFileOf bytes.now (file_at bytes.now) }
{
    match read_parts(alloc, bytes) {
        Ok(file) => find_bound(alloc, &file),
        Err(stop) => Err(format_refusal(stop)),
    }
}

/// What is printed of the bound of these bytes: `steps N and W a stay` and then `ends` or `may wait at OFFSET`, or `loops at OFFSET` alone.
/// `Ok` comes exactly where no rule is broken by them.
///
/// # Errors
/// The first broken rule, by its letter, its number and its place in the bytes; or want of memory.
#[tactic(auto, unfolding(crate::specs::Bound::bound_text))]
pub fn bound_text(alloc: Global, bytes: &[u8]) -> Result<Vec<u8>, Stop<Refusal>>
    ensures answers { Answers (all_questions bytes.now)
        (λ text. text.items ≡ bound_text (file_at bytes.now)) result }
    ensures spelled { IsOk result → IsFileOf bytes.now (file_at bytes.now) }
{
    let bound = bound_bytes(alloc, bytes)?;
    Ok(line(alloc, &bound)?)
}
