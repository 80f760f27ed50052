//! The bound on the steps of a driver's job.
ghost use Rattle.std.specs.Prelude.{◌≡◌, ◌≢◌, ◌≤◌, None};
ghost use Rattle.field_words.specs.Questions.{Answers, first_of};
ghost use Rattle.job_bound.specs.{Bound.bound_in, Law.KeepsBound, Law.KeepsEnd, Live.KeepsLive};
ghost use Rattle.vc4check_c.specs.Bound.{without_offset, IsSubmissionBounded, IsSubmissionUnbounded};
ghost use Rattle.job_format.specs.Parts.{parts_view};
ghost use Rattle.job_check.specs.{Faults.place_stages, Region.IsRegion};
ghost use Rattle.vc4check_c.specs.Submission.{file_of, own_questions, submission_questions};
ghost use Rattle.vc4check_c.specs.Types.{IsOfTypes};

use crate::bound::{BoundAnswer, bounded, unbounded};
use crate::status::{ACCEPTED, NO_MEMORY, REFUSED};
use crate::submission::{Submission, parts_in};
use buffer_table::MOST_PLACE;
use field_words::Stop;
use job_bound::{Bound, bound_with};
use job_check::{Region, check_parts};
use job_format::{FileParts, Refusal};
use std::alloc::Global;

/// The rules of the submission's file, in which each shader is asked, whatever is known of it.
fn check_afresh(
    alloc: Global,
    given: &Submission,
    parts: &FileParts,
) -> Result<Region, Stop<Refusal>>
    requires own { first_of (own_questions given.now) ≡ None }
    requires parts_are { parts_view parts.now ≡ file_of given.now }
    ensures { Answers (place_stages (file_of given.now)) (IsRegion (file_of given.now)) result }
{
    let _ = given;
    check_parts(alloc, MOST_PLACE, parts, None)
}

/// The bound of a submission's job, where no rule of it is broken.
#[tactic(auto, using(field_words::proofs::Questions::passes, field_words::proofs::Questions::stops))]
fn bound_of(alloc: Global, given: &Submission) -> Result<Bound, Stop<Refusal>>
    requires types { IsOfTypes given.now }
    ensures { Answers (submission_questions given.now)
        (λ bound. bound ≡ bound_in (file_of given.now)) result }
{
    let parts = parts_in(alloc, given)?;
    let region = check_afresh(alloc, given, &parts)?;
    Ok(bound_with(alloc, &parts, &region)?)
}

/// An answer without its offset: a submission has no file.
fn without_offset(answer: BoundAnswer) -> BoundAnswer
    ensures { result ≡ without_offset answer }
{
    BoundAnswer {
        offset: 0,
        ..answer
    }
}

/// Checks a job of a driver, as `vc4check_submit` does, and answers how many steps a run of it takes at most, and whether a program of it may
/// wait for a request that isn't there. Nothing is written but the answer, whose offset is zero. It takes time and memory in proportion to the
/// submission, and longer than `vc4check_submit`: each shader is checked, and the blocks aren't read.
///
/// | Status | Meaning | `answer` |
/// |---|---|---|
/// | 0 | accepted | the numbers and whether a program may wait, or that a shader branches back |
/// | 1 | refused | the first rule that is broken |
/// | 3 | out of memory; nothing is said of the job | as before |
#[unsafe(no_mangle)]
#[tactic(auto, using(field_words::proofs::Questions::first_is))]
pub extern "C" fn vc4check_submission_bound(
    alloc: Global,
    submission: &Submission,
    answer: &mut BoundAnswer,
) -> u32
    requires types { IsOfTypes submission.now }
    ensures statuses { result ≤ 3 }
    ensures accepted { result ≡ 0 → IsSubmissionBounded submission.now answer.new }
    // Each run of the job keeps to the numbers; and where no program may wait, one that can't go on has finished, or waits for room.
    ensures bounds { result ≡ 0 → KeepsBound (file_of submission.now) }
    ensures ends { result ≡ 0 → KeepsEnd (file_of submission.now) }
    // So do the steps for the job alone, where jobs come and go.
    ensures lives { result ≡ 0 → KeepsLive (file_of submission.now) }
    ensures refused { result ≡ 1 → IsSubmissionUnbounded submission.now
        (first_of (submission_questions submission.now)) answer.new }
    ensures starved { result ≡ 3 → answer.new ≡ answer.old }
    ensures known { result ≢ 2 }
{
    match bound_of(alloc, submission) {
        Ok(bound) => {
            *answer = without_offset(bounded(&bound));
            ACCEPTED
        }
        Err(Stop::Fault(refusal)) => {
            *answer = unbounded(refusal.rule, 0);
            REFUSED
        }
        Err(Stop::NoMemory) => NO_MEMORY,
    }
}
