//! The check of a driver's submission, with its lists in the caller's window.
ghost use Rattle.std.specs.Prelude.{◌≡◌, ◌≢◌, ◌≤◌, ◌<◌, length, true, None, IfOk};
ghost use Rattle.field_words.specs.Questions.{Answers, first_of};
ghost use Rattle.field_words.specs.Writes.{with_bytes};
ghost use Rattle.job_format.specs.Parts.{parts_view};
ghost use Rattle.job_check.specs.Region.{region_of, IsLaid, IsRegion};
ghost use Rattle.strict_check.specs.Findings.{all_findings};
ghost use Rattle.vc4check_c.specs.Hardware.{hardware_stages};
ghost use Rattle.vc4check_c.specs.Telling.{AreKnown, AreReadable};
ghost use Rattle.vc4check_c.specs.Types.{IsOfTypes};
ghost use Rattle.vc4check_c.specs.Safe.{IsSafeToRun};
ghost use Rattle.vc4check_c.specs.Obeys.{ObeysGuide};
ghost use Rattle.vc4check_c.specs.Joins.{MayJoin};
ghost use Rattle.vc4check_c.specs.Submission.{file_of, own_questions, hardware_questions};
ghost use Rattle.vc4check_c.specs.Submit.{part_number, accepted_verdict, refused_verdict, IsTaken, IsFront, IsNotTaken};

use crate::hardware::check_for_hardware;
use crate::jobs::{JobLists, NO_LISTS, letter, lists_of, put};
use crate::known::{findings_in, shaders_in};
use crate::status::{NO_MEMORY, REFUSED};
use crate::submission::{Submission, parts_in};
use field_words::{NoMemory, Stop};
use job_check::Region;
use job_format::{FileParts, Part, Refusal};
use relocation::{Layout, Lengths};
use std::alloc::Global;
use strict_check::{Findings, all_findings};

/// What is reported of a submission. Of an accepted one: how many bytes of the window its lists take, where they lie and how long they are. Of a
/// refused one: the rule, by its letter in ASCII and its number, and the place of what it is about: the part (0 the memory, 1 a buffer, 2
/// the job, 3 a buffer's content, 4 the handles, 5 the binner list, 6 the records, 7 the uniforms), of which buffer, and the offset in bytes
/// from the part's start. The other fields are zero.
#[repr(C)]
#[derive(Clone, Copy, Debug, PartialEq, Eq)]
pub struct Verdict {
    pub offset: u64,
    pub letter: u32,
    pub number: u32,
    pub part: u32,
    pub index: u32,
    pub size: u32,
    pub lists: JobLists,
}

/// What is reported of an accepted submission.
#[tactic(auto, unfolding(crate::specs::Submit::accepted_verdict))]
fn accepted(size: u32, layout: &Layout, lengths: &Lengths) -> Verdict
    ensures { result ≡ accepted_verdict size layout.now lengths.now }
{
    Verdict {
        offset: 0,
        letter: 0,
        number: 0,
        part: 0,
        index: 0,
        size,
        lists: lists_of(layout, lengths),
    }
}

/// The number of a part; a submission has no file.
#[tactic(auto, unfolding(crate::specs::Submit::part_number))]
fn part_number(part: Part) -> u32
    ensures { result ≡ part_number part }
{
    match part {
        Part::File | Part::Header => 0,
        Part::Entry => 1,
        Part::JobEntry => 2,
        Part::Contents => 3,
        Part::Handles => 4,
        Part::BinnerList => 5,
        Part::Records => 6,
        Part::Uniforms => 7,
    }
}

/// What is reported of a refused one.
#[tactic(auto, unfolding(crate::specs::Submit::refused_verdict))]
fn refused(refusal: &Refusal) -> Verdict
    ensures { result ≡ refused_verdict refusal.now }
{
    let Refusal { rule, place } = *refusal;
    Verdict {
        offset: place.at,
        letter: u32::from(letter(rule.stage)),
        number: u32::from(rule.number),
        part: part_number(place.part),
        index: place.index,
        size: 0,
        lists: NO_LISTS,
    }
}

/// What was found of the shaders by the strict check: what the blocks tell where all can be read, or what is found now.
fn findings_of(
    alloc: Global,
    given: &Submission,
    parts: &FileParts,
    are_readable: bool,
) -> Result<Vec<Findings>, NoMemory>
    requires own { first_of (own_questions given.now) ≡ None }
    requires parts_are { parts_view parts.now ≡ file_of given.now }
    ensures many { IfOk result (λ findings.
        length findings.items ≡ length parts.now.buffers.items) }
    ensures found { AreKnown given.now.buffers.now
        → (are_readable ≡ true → AreReadable given.now.buffers.now (length given.now.buffers.now))
        → IfOk result (λ findings. findings.items ≡ all_findings (parts_view parts.now)) }
{
    if are_readable {
        return Ok(findings_in(alloc, given.buffers)?);
    }
    Ok(all_findings(alloc, parts)?)
}

/// The rules of the submission's file with the strict ones, in which the shaders are asked only where a block can't be read.
fn check_file(alloc: Global, given: &Submission, parts: &FileParts) -> Result<Region, Stop<Refusal>>
    requires own { first_of (own_questions given.now) ≡ None }
    requires parts_are { parts_view parts.now ≡ file_of given.now }
    ensures laid { IfOk result (IsLaid (file_of given.now)) }
    ensures answers { AreKnown given.now.buffers.now
        → Answers (hardware_stages (file_of given.now)) (IsRegion (file_of given.now)) result }
{
    let report = shaders_in(alloc, given.buffers)?;
    let findings = findings_of(alloc, given, parts, report.is_some())?;
    check_for_hardware(alloc, parts, report, &findings)
}

/// All rules of a submission, and its lists.
#[tactic(auto, using(field_words::proofs::Questions::stops))]
fn check(alloc: Global, given: &Submission) -> Result<Region, Stop<Refusal>>
    ensures laid { IfOk result (IsLaid (file_of given.now)) }
    ensures answers { AreKnown given.now.buffers.now
        → Answers (hardware_questions given.now) (IsRegion (file_of given.now)) result }
{
    let parts = parts_in(alloc, given)?;
    check_file(alloc, given, &parts)
}

/// How many bytes these are, of at most so many.
fn size_of(bytes: &[u8], most: u32) -> u32
    requires { length bytes.now ≤ most }
    ensures { result ≡ length bytes.now }
{
    bytes.len() as u32
}

/// Checks a job of a driver, whose places are addresses of the bus below 0xFF000000. No memory of it is made. Where no rule is broken, its
/// lists, relocated, are put into the window, from its start on, which stands for the start of the lists' region; the window's further bytes
/// stay. The strict rules are asked last.
///
/// A block that can't be read is as good as none: the shaders are checked then. Of a block that can be read, but was made of another shader,
/// the answer may be wrong (`AreKnown`), and nothing else: no block leads to a read or a write outside of what is given.
///
/// | Status | Meaning | `answer` | `window` |
/// |---|---|---|---|
/// | 0 | accepted | size, places and lengths | the lists at its start |
/// | 1 | refused | the first broken rule, and its place | as before |
/// | 2 | accepted, and the window is too short | size, places and lengths | as before |
/// | 3 | out of memory; nothing is said of the job | as before | as before |
#[unsafe(no_mangle)]
#[tactic(auto, using(field_words::proofs::Questions::first_is))]
pub extern "C" fn vc4check_submit(
    alloc: Global,
    submission: &Submission,
    window: &mut [u8],
    answer: &mut Verdict,
) -> u32
    ensures statuses { result ≤ 3 }
    ensures front { result ≡ 0 → IsFront submission.now window.old window.new answer.new }
    ensures accepted { AreKnown submission.now.buffers.now → result ≡ 0
        → IsTaken submission.now answer.new }
    ensures relocated { AreKnown submission.now.buffers.now → result ≡ 0
        → window.new ≡ with_bytes window.old 0 (region_of (file_of submission.now)) }
    // With the window's bytes where the answer says, every run of the job is safe: the numbers are of their types, the blocks are of their
    // shaders, and no more is asked.
    ensures safe { AreKnown submission.now.buffers.now → result ≡ 0 → IsOfTypes submission.now
        → IsSafeToRun submission.now window.new answer.new }
    // It does nothing then that the hardware's guide forbids.
    ensures strict { AreKnown submission.now.buffers.now → result ≡ 0
        → IsOfTypes submission.now → ObeysGuide submission.now window.new answer.new }
    // And it may join jobs that are live, where the driver keeps its duties.
    ensures joins { AreKnown submission.now.buffers.now → result ≡ 0 → IsOfTypes submission.now
        → MayJoin submission.now window.new answer.new }
    ensures refused { AreKnown submission.now.buffers.now → result ≡ 1
        → IsNotTaken submission.now (first_of (hardware_questions submission.now)) answer.new }
    ensures short { AreKnown submission.now.buffers.now → result ≡ 2
        → IsTaken submission.now answer.new }
    ensures fits { AreKnown submission.now.buffers.now → result ≡ 0
        → length (region_of (file_of submission.now)) ≤ length window.old }
    ensures room { AreKnown submission.now.buffers.now → result ≡ 2
        → length window.old < length (region_of (file_of submission.now)) }
    ensures kept { result ≢ 0 → window.new ≡ window.old }
    ensures starved { result ≡ 3 → answer.new ≡ answer.old }
{
    match check(alloc, submission) {
        Ok(region) => {
            let size = size_of(&region.bytes, submission.lists_size);
            *answer = accepted(size, &region.layouts[0], &region.lengths[0]);
            put(&region.bytes, window)
        }
        Err(Stop::Fault(refusal)) => {
            *answer = refused(&refusal);
            REFUSED
        }
        Err(Stop::NoMemory) => NO_MEMORY,
    }
}
