//! The strict check of a job file from its bytes on.
ghost use Rattle.field_words.specs.Questions.{Answers};
ghost use Rattle.strict_check.specs.Whole.{read_questions};

use crate::check::check_strict_parts;
use field_words::Stop;
use job_check::format_refusal;
use job_format::{Refusal, read_parts};
use std::alloc::Global;

/// Asks the rules of the format and the strict rules of these bytes, and no others.
///
/// # Errors
/// The first rule of these that is broken, with its place in the bytes; or want of memory.
#[tactic(auto, unfolding(crate::specs::Whole::read_questions))]
pub fn check_strict_bytes(alloc: Global, bytes: &[u8]) -> Result<(), Stop<Refusal>>
    ensures { Answers (read_questions bytes.now) (λ made. Unit {0}) result }
{
    match read_parts(alloc, bytes) {
        Ok(parts) => check_strict_parts(alloc, &parts),
        Err(stop) => Err(format_refusal(stop)),
    }
}
