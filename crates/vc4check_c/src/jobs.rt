//! The check of a job file, with the memory of its jobs in the caller's block.
ghost use Rattle.std.specs.Prelude.{◌≡◌, ◌≢◌, ◌≤◌, ◌<◌, ◌⊎◌, ◌^◌, length, IfNone, IfSome};
ghost use Rattle.field_words.specs.Writes.{with_bytes};
ghost use Rattle.job_format.specs.Offsets.{most_jobs};
ghost use Rattle.job_format.specs.Places.{offset_of};
ghost use Rattle.job_format.specs.Reading.{file_at};
ghost use Rattle.job_check.specs.Emit.{memory_of};
ghost use Rattle.job_check.specs.Whole.{refusal_of};
ghost use Rattle.vc4check_c.specs.Jobs.{lists_report, all_lists, letter_code, accepted_jobs, refused_jobs, AreAccepted, AreRefused};

use crate::status::{ACCEPTED, NO_MEMORY, REFUSED, SHORT};
use field_words::Stop;
use job_check::check_bytes;
use job_format::{Refusal, Rule, Stage, offset_of};
use phys_mem::PhysMem;
use relocation::{Layout, Lengths};
use std::alloc::Global;

/// The most jobs of a file.
const MOST: usize = 8;

/// What is reported of one job of an accepted file: the place in memory where its lists begin and that of its tile slot, where each list
/// lies (offsets from where they begin) and how many bytes of each were emitted.
#[repr(C)]
#[derive(Clone, Copy, Debug, PartialEq, Eq)]
pub struct JobLists {
    pub lists: u32,
    pub slot: u32,
    pub bin: u32,
    pub records: u32,
    pub uniforms: u32,
    pub render: u32,
    pub end: u32,
    pub bin_length: u32,
    pub records_length: u32,
    pub uniforms_length: u32,
    pub render_length: u32,
}

/// What is reported of a job file. Of an accepted one: the size of its memory in bytes, how many jobs it has, and their lists in order. Of
/// a refused one: the rule, by its letter in ASCII and its number, and the offset in the file of what it is about. The other fields, and
/// the lists behind the last job's, are zero.
#[repr(C)]
#[derive(Clone, Copy, Debug, PartialEq, Eq)]
pub struct JobsAnswer {
    pub offset: u64,
    pub letter: u32,
    pub number: u32,
    pub size: u32,
    pub jobs: u32,
    pub lists: [JobLists; MOST],
}

/// Of no job.
pub(crate) const NO_LISTS: JobLists = JobLists {
    lists: 0,
    slot: 0,
    bin: 0,
    records: 0,
    uniforms: 0,
    render: 0,
    end: 0,
    bin_length: 0,
    records_length: 0,
    uniforms_length: 0,
    render_length: 0,
};

/// What is reported of one job.
#[tactic(auto, unfolding(crate::specs::Jobs::lists_report))]
pub(crate) fn lists_of(layout: &Layout, lengths: &Lengths) -> JobLists
    ensures { result ≡ lists_report layout.now lengths.now }
{
    JobLists {
        lists: layout.place,
        slot: layout.slot,
        bin: layout.bin,
        records: layout.records,
        uniforms: layout.uniforms,
        render: layout.render,
        end: layout.end,
        bin_length: lengths.bin,
        records_length: lengths.records,
        uniforms_length: lengths.uniforms,
        render_length: lengths.render,
    }
}

/// What is reported of each job.
fn all_lists(layouts: &[Layout], lengths: &[Lengths]) -> [JobLists; MOST]
    requires each { length lengths.now ≡ length layouts.now }
    requires few { length layouts.now ≤ most_jobs }
    ensures { result ≡ all_lists layouts.now lengths.now (length layouts.now) }
{
    let mut all = [NO_LISTS; MOST];
    for job in 0..layouts.len() {
        all[job] = lists_of(&layouts[job], &lengths[job]);
    }
    all
}

/// What is reported of an accepted file.
#[tactic(auto, unfolding(crate::specs::Jobs::accepted_jobs))]
pub(crate) fn accepted(size: u32, layouts: &[Layout], lengths: &[Lengths]) -> JobsAnswer
    requires each { length lengths.now ≡ length layouts.now }
    requires few { length layouts.now ≤ most_jobs }
    ensures { result ≡ accepted_jobs size layouts.now lengths.now }
{
    JobsAnswer {
        offset: 0,
        letter: 0,
        number: 0,
        size,
        jobs: layouts.len() as u32,
        lists: all_lists(layouts, lengths),
    }
}

/// The letter of a stage, as the program prints it.
pub(crate) fn letter(stage: Stage) -> u8
    ensures { result ≡ letter_code stage }
{
    match stage {
        Stage::F => b'F',
        Stage::M => b'M',
        Stage::S => b'S',
        Stage::H => b'H',
        Stage::B => b'B',
        Stage::A => b'A',
        Stage::U => b'U',
        Stage::G => b'G',
        Stage::X => b'X',
        Stage::E => b'E',
    }
}

/// The offset in the file of what a refusal of these bytes is about. None comes where it has more than 64 bits, which is that of no file
/// in a memory.
pub(crate) fn offset_in(bytes: &[u8], refusal: &Refusal) -> Option<u64>
    ensures some { IfSome result (λ offset. offset ≡ offset_of bytes.now refusal.now.place) }
    ensures none { IfNone result (2 ^ 64 ≤ offset_of bytes.now refusal.now.place) }
{
    u64::try_from(offset_of(bytes, refusal.place)).ok()
}

/// What is reported of a refused one.
#[tactic(auto, unfolding(crate::specs::Jobs::refused_jobs))]
pub(crate) fn refused(rule: Rule, offset: u64) -> JobsAnswer
    ensures { result ≡ refused_jobs rule offset }
{
    JobsAnswer {
        offset,
        letter: u32::from(letter(rule.stage)),
        number: u32::from(rule.number),
        size: 0,
        jobs: 0,
        lists: [NO_LISTS; MOST],
    }
}

/// Puts bytes to the room's start, or says that the room is too short.
pub(crate) fn put(bytes: &[u8], room: &mut [u8]) -> u32
    ensures statuses { (result ≡ 0) ⊎ (result ≡ 2) }
    ensures put { result ≡ 0 → room.new ≡ with_bytes room.old 0 bytes.now }
    ensures fits { result ≡ 0 → length bytes.now ≤ length room.old }
    ensures short { result ≡ 2 → length room.old < length bytes.now }
    ensures kept { result ≡ 2 → room.new ≡ room.old }
{
    if room.len() < bytes.len() {
        return SHORT;
    }
    room[..bytes.len()].copy_from_slice(bytes);
    ACCEPTED
}

/// Copies all of the memory into the block, where it has room.
fn deliver(mut memory: PhysMem, block: &mut [u8]) -> u32
    ensures statuses { (result ≡ 0) ⊎ (result ≡ 2) }
    ensures put { result ≡ 0 → block.new ≡ with_bytes block.old 0 memory }
    ensures fits { result ≡ 0 → length memory ≤ length block.old }
    ensures short { result ≡ 2 → length block.old < length memory }
    ensures kept { result ≡ 2 → block.new ≡ block.old }
{
    let size = memory.len();
    put(memory.window(0, size), block)
}

/// Checks the job file that `bytes` hold, of 1 to 8 jobs. Where no rule is broken, the memory that all of them are to run in is put into
/// the block, from its start on, with all lists relocated; the block's further bytes stay.
///
/// | Status | Meaning | `answer` | `block` |
/// |---|---|---|---|
/// | 0 | accepted | size, and by job places and lengths | the memory at its start |
/// | 1 | refused | the first broken rule, and its offset | as before |
/// | 2 | accepted, and the block is too short | size, and by job places and lengths | as before |
/// | 3 | want of memory; nothing is said of the file | as before | as before |
#[unsafe(no_mangle)]
#[tactic(auto, unfolding(job_check::specs::Whole::refusal_of), using(field_words::proofs::Questions::first_is, crate::proofs::Sizes::are_accepted))]
pub extern "C" fn vc4check_check(
    alloc: Global,
    bytes: &[u8],
    block: &mut [u8],
    answer: &mut JobsAnswer,
) -> u32
    ensures statuses { result ≤ 3 }
    ensures accepted { result ≡ 0 → AreAccepted bytes.now answer.new }
    ensures relocated { result ≡ 0 → block.new
        ≡ with_bytes block.old 0 (memory_of (file_at bytes.now)) }
    ensures refused { result ≡ 1 → AreRefused bytes.now (refusal_of bytes.now) answer.new }
    ensures short { result ≡ 2 → AreAccepted bytes.now answer.new }
    ensures fits { result ≡ 0 → length (memory_of (file_at bytes.now)) ≤ length block.old }
    ensures room { result ≡ 2 → length block.old < length (memory_of (file_at bytes.now)) }
    ensures kept { result ≢ 0 → block.new ≡ block.old }
    ensures starved { result ≡ 3 → answer.new ≡ answer.old }
{
    match check_bytes(alloc, bytes) {
        Ok(checked) => {
            let memory = checked.memory;
            *answer = accepted(memory.len(), &checked.layouts, &checked.lengths);
            deliver(memory, block)
        }
        Err(Stop::Fault(refusal)) => match offset_in(bytes, &refusal) {
            Some(offset) => {
                *answer = refused(refusal.rule, offset);
                REFUSED
            }
            None => NO_MEMORY,
        },
        Err(Stop::NoMemory) => NO_MEMORY,
    }
}
