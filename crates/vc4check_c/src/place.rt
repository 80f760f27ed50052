//! The check of a job file whose places are addresses of the bus, with the lists in the caller's window.
ghost use Rattle.std.specs.Prelude.{◌≡◌, ◌≢◌, ◌≤◌, ◌<◌, length, IsOk};
ghost use Rattle.field_words.specs.Questions.{Answers, first_of};
ghost use Rattle.field_words.specs.Writes.{with_bytes};
ghost use Rattle.job_format.specs.File.{IsFileOf};
ghost use Rattle.job_format.specs.Reading.{file_at};
ghost use Rattle.job_check.specs.Region.{region_of, IsRegion};
ghost use Rattle.vc4check_c.specs.Places.{file_questions, ArePlaced, IsNotPlaced};
ghost use Rattle.vc4check_c.specs.Safe.{AreSafeToRun};
ghost use Rattle.vc4check_c.specs.Obeys.{AllObeyGuide};

use crate::hardware::check_for_hardware;
use crate::jobs::{JobsAnswer, accepted, offset_in, put, refused};
use crate::status::{NO_MEMORY, REFUSED};
use field_words::Stop;
use job_check::{Region, format_refusal};
use job_format::{Refusal, read_parts};
use std::alloc::Global;
use strict_check::all_findings;

/// All rules of the job file that these bytes hold, and the lists of its jobs.
fn check(alloc: Global, bytes: &[u8]) -> Result<Region, Stop<Refusal>>
    ensures answers { Answers (file_questions bytes.now) (IsRegion (file_at bytes.now)) result }
    ensures spelled { IsOk result → IsFileOf bytes.now (file_at bytes.now) }
{
    match read_parts(alloc, bytes) {
        Ok(parts) => {
            let findings = all_findings(alloc, &parts)?;
            check_for_hardware(alloc, &parts, None, &findings)
        }
        Err(stop) => Err(format_refusal(stop)),
    }
}

/// Checks the job file that `bytes` hold, of 1 to 8 jobs, whose places are addresses of the bus below 0xFF000000. No memory of the jobs is
/// made. Where no rule is broken, the lists of all jobs, relocated, are put into the window, from its start on, which stands for the start of
/// the lists' region; the window's further bytes stay. `size` tells how many bytes they take, which is never more than the file's size of
/// that region. The strict rules are asked last.
///
/// | Status | Meaning | `answer` | `window` |
/// |---|---|---|---|
/// | 0 | accepted | size, and by job places and lengths | the lists at its start |
/// | 1 | refused | the first broken rule, and its offset | as before |
/// | 2 | accepted, and the window is too short | size, and by job places and lengths | as before |
/// | 3 | want of memory; nothing is said of the file | as before | as before |
#[unsafe(no_mangle)]
#[tactic(auto, using(field_words::proofs::Questions::first_is, crate::proofs::Places::are_placed))]
pub extern "C" fn vc4check_place(
    alloc: Global,
    bytes: &[u8],
    window: &mut [u8],
    answer: &mut JobsAnswer,
) -> u32
    ensures statuses { result ≤ 3 }
    ensures accepted { result ≡ 0 → ArePlaced bytes.now answer.new }
    ensures relocated { result ≡ 0 → window.new
        ≡ with_bytes window.old 0 (region_of (file_at bytes.now)) }
    // With the window's bytes where the answer says, every run of the jobs is safe.
    ensures safe { result ≡ 0 → AreSafeToRun (file_at bytes.now) window.new answer.new }
    // And none does what the hardware's guide forbids.
    ensures strict { result ≡ 0 → AllObeyGuide (file_at bytes.now) window.new answer.new }
    ensures refused { result ≡ 1
        → IsNotPlaced bytes.now (first_of (file_questions bytes.now)) answer.new }
    ensures short { result ≡ 2 → ArePlaced bytes.now answer.new }
    ensures fits { result ≡ 0 → length (region_of (file_at bytes.now)) ≤ length window.old }
    ensures room { result ≡ 2 → length window.old < length (region_of (file_at bytes.now)) }
    ensures kept { result ≢ 0 → window.new ≡ window.old }
    ensures starved { result ≡ 3 → answer.new ≡ answer.old }
{
    match check(alloc, bytes) {
        Ok(region) => {
            *answer = accepted(region.bytes.len() as u32, &region.layouts, &region.lengths);
            put(&region.bytes, window)
        }
        Err(Stop::Fault(refusal)) => match offset_in(bytes, &refusal) {
            Some(offset) => {
                *answer = refused(refusal.rule, offset);
                REFUSED
            }
            None => NO_MEMORY,
        },
        Err(Stop::NoMemory) => NO_MEMORY,
    }
}
