//! The check of a job file from its bytes on.
ghost use Rattle.std.specs.Prelude.{◌≡◌, ◌≤◌, length, IfOk, IsOk};
ghost use Rattle.job_check.specs.Region.{IsRegion};
ghost use Rattle.buffer_table.specs.Table.{most_place};
ghost use Rattle.field_words.specs.Questions.{Answers, NeverHidesFault, with_answers};
ghost use Rattle.job_format.specs.Faults.{format_questions};
ghost use Rattle.job_format.specs.Reading.{file_at};
ghost use Rattle.job_format.specs.File.{IsFileOf};
ghost use Rattle.job_check.specs.Emit.{Emits, IsPlaced};
ghost use Rattle.job_check.specs.Whole.{all_questions, questions_within, format_refused, format_stopped};

use super::check::{Checked, check_read};
use super::region::{Region, check_parts};
use field_words::Stop;
use job_format::{FormatFault, Refusal, Rule, Stage, read_parts};
use std::alloc::Global;

/// A fault of the format is a refusal by a rule F.
pub fn format_refusal(stop: Stop<FormatFault>) -> Stop<Refusal>
    ensures { result ≡ format_stopped stop }
{
    stop.map_fault(|fault| Refusal {
        rule: Rule {
            stage: Stage::F,
            number: fault.number,
        },
        place: fault.place,
    })
}

/// The first broken rule for these bytes, or the memory of the jobs that they hold.
///
/// # Errors
/// The first broken rule, by its letter, its number and its place in the bytes; or want of memory, which never hides a rule of the
/// format.
#[tactic(auto, unfolding(crate::specs::Whole::questions_within))]
pub fn check_bytes(alloc: Global, bytes: &[u8]) -> Result<Checked, Stop<Refusal>>
    ensures answers { Answers (all_questions bytes.now) (Emits (file_at bytes.now)) result }
    ensures format { NeverHidesFault (with_answers format_refused
        (format_questions bytes.now)) result }
    ensures placed { IfOk result (λ checked. IsPlaced checked.memory checked.layouts.items) }
    ensures sized { IfOk result (λ checked. length checked.memory ≡ (file_at bytes.now).mem_size) }
    ensures spelled { IsOk result → IsFileOf bytes.now (file_at bytes.now) }
{
    match read_parts(alloc, bytes) {
        Ok(parts) => check_read(alloc, &parts),
        Err(stop) => Err(format_refusal(stop)),
    }
}

/// The first broken rule for these bytes, where the memory may have at most `limit` bytes, or the lists of the jobs that they hold.
/// No memory of the jobs is made, so their places may be a driver's.
///
/// # Errors
/// As those of `check_bytes`.
#[tactic(auto, unfolding(crate::specs::Whole::questions_within))]
pub fn check_places(alloc: Global, limit: u32, bytes: &[u8]) -> Result<Region, Stop<Refusal>>
    requires { limit ≤ most_place }
    ensures answers { Answers (questions_within limit bytes.now)
        (IsRegion (file_at bytes.now)) result }
    ensures format { NeverHidesFault (with_answers format_refused
        (format_questions bytes.now)) result }
    ensures spelled { IsOk result → IsFileOf bytes.now (file_at bytes.now) }
{
    match read_parts(alloc, bytes) {
        Ok(parts) => check_parts(alloc, limit, &parts, None),
        Err(stop) => Err(format_refusal(stop)),
    }
}
