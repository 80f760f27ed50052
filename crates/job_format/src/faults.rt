//! The rules of the format.
ghost use Rattle.std.specs.Prelude.{◌≡◌, ◌+◌, ◌*◌, ◌<◌, ◌≤◌, ◌^◌, length, Some, IfNone};
ghost use Rattle.field_words.specs.Questions.{GoesOn, first_of, each};
ghost use Rattle.job_format.specs.Faults.{is_version, is_miscounted, lacks_slots, header_questions, entry_questions, buffer_questions, job_entry_questions, job_questions, content_questions, parts_questions, end_questions, last_questions, rest_questions, jobs_and_rest_questions, body_questions, format_questions, fault};
ghost use Rattle.job_format.specs.Whole.{HasHeader};
ghost use Rattle.job_format.specs.Offsets.{header_size, entry_size, job_size, most_buffers, most_jobs, buffer_count, job_count, entry_offset, job_offset, content_size, content_offset, handles_offset};

use crate::rule::{FormatFault, FormatRule, Part, Place};
use crate::sizes::{
    ENTRY_SIZE, HEADER_SIZE, JOB_SIZE, MAGIC, MOST_JOBS, MOST_STATES, buffer_limit, entry_offset,
    handle_limit, job_offset,
};
use field_words::{MOST_CODE, MOST_LIST, word_at};

fn fault_of(rule: FormatRule, part: Part, index: usize, at: usize) -> FormatFault
    requires { index < 2 ^ 32 }
    ensures { result ≡ fault rule part index at }
{
    FormatFault {
        number: rule.number(),
        place: Place {
            part,
            index: index as u32,
            at: at as u64,
        },
    }
}

fn fault(rule: FormatRule, part: Part, index: usize, at: usize) -> Option<FormatFault>
    requires { index < 2 ^ 32 }
    ensures { result ≡ Some (fault rule part index at) }
{
    Some(fault_of(rule, part, index, at))
}

#[tactic(auto, unfolding(crate::specs::Faults::is_version))]
fn is_version(version: u32) -> bool
    ensures { result ≡ is_version version }
{
    version == 1 || version == 2
}

/// Whether a version has not this many jobs.
#[tactic(auto, unfolding(crate::specs::Faults::is_miscounted))]
fn is_miscounted(version: u32, jobs: u32) -> bool
    ensures { result ≡ is_miscounted version jobs }
{
    if version == 1 {
        jobs != 1
    } else {
        jobs == 0 || jobs > MOST_JOBS
    }
}

/// Whether a job has no tile slot, though there are slots.
#[tactic(auto, unfolding(crate::specs::Faults::lacks_slots))]
fn lacks_slots(version: u32, slots: u32, jobs: u32) -> bool
    ensures { result ≡ lacks_slots version slots jobs }
{
    version == 2 && slots != 0 && slots < jobs
}

/// The header: F2, F1, F4 and F7.
#[tactic(auto, unfolding(crate::specs::Faults::header_questions))]
fn header_fault(bytes: &[u8]) -> Option<FormatFault>
    ensures first { result ≡ first_of (header_questions bytes.now) }
    ensures inside { IfNone result (header_size ≤ length bytes.now) }
    ensures few_buffers { IfNone result (buffer_count bytes.now ≤ most_buffers) }
    ensures few_jobs { IfNone result (job_count bytes.now ≤ most_jobs) }
{
    if bytes.len() < HEADER_SIZE {
        return fault(FormatRule::EndsEarly, Part::Header, 0, 0);
    }
    if word_at(bytes, 0) != MAGIC {
        return fault(FormatRule::NotAJobFile, Part::Header, 0, 0);
    }
    let version = word_at(bytes, 4);
    if !is_version(version) {
        return fault(FormatRule::NotAJobFile, Part::Header, 0, 4);
    }
    if word_at(bytes, 28) > buffer_limit(version) {
        return fault(FormatRule::OverLimit, Part::Header, 0, 28);
    }
    let jobs = word_at(bytes, 32);
    if is_miscounted(version, jobs) {
        return fault(FormatRule::OverLimit, Part::Header, 0, 32);
    }
    if lacks_slots(version, word_at(bytes, 24), jobs) {
        return fault(FormatRule::LacksSlots, Part::Header, 0, 24);
    }
    None
}

/// The entry of buffer `b`, which begins at `at`: F2, F5 and F4.
#[tactic(auto, unfolding(crate::specs::Faults::entry_questions))]
fn entry_fault(bytes: &[u8], b: usize, at: usize) -> Option<FormatFault>
    requires few { b ≤ most_buffers }
    requires before { at ≤ length bytes.now }
    ensures first { result ≡ first_of (entry_questions bytes.now b at) }
    ensures inside { IfNone result (at + entry_size ≤ length bytes.now) }
{
    if bytes.len() - at < ENTRY_SIZE {
        return fault(FormatRule::EndsEarly, Part::Entry, b, 0);
    }
    let kind = word_at(bytes, at + 12);
    if kind > 1 {
        return fault(FormatRule::WithoutMeaning, Part::Entry, b, 12);
    }
    if kind == 1 && word_at(bytes, at + 16) > MOST_CODE {
        return fault(FormatRule::OverLimit, Part::Entry, b, 16);
    }
    None
}

/// The entry of job `j`, which begins at `at`: F2, F4 and F5.
#[tactic(auto, unfolding(crate::specs::Faults::job_entry_questions))]
fn job_entry_fault(bytes: &[u8], j: usize, at: usize) -> Option<FormatFault>
    requires few { j ≤ most_jobs }
    requires header { header_size ≤ length bytes.now }
    requires before { at ≤ length bytes.now }
    ensures first { result ≡ first_of (job_entry_questions bytes.now j at) }
    ensures inside { IfNone result (at + job_size ≤ length bytes.now) }
{
    if bytes.len() - at < JOB_SIZE {
        return fault(FormatRule::EndsEarly, Part::JobEntry, j, 0);
    }
    if word_at(bytes, at + 4) > 1 {
        return fault(FormatRule::WithoutMeaning, Part::JobEntry, j, 4);
    }
    if word_at(bytes, at + 8) > handle_limit(word_at(bytes, 4)) {
        return fault(FormatRule::OverLimit, Part::JobEntry, j, 8);
    }
    if word_at(bytes, at + 12) > MOST_LIST {
        return fault(FormatRule::OverLimit, Part::JobEntry, j, 12);
    }
    if word_at(bytes, at + 16) > MOST_LIST {
        return fault(FormatRule::OverLimit, Part::JobEntry, j, 16);
    }
    if word_at(bytes, at + 20) > MOST_STATES {
        return fault(FormatRule::OverLimit, Part::JobEntry, j, 20);
    }
    if word_at(bytes, at + 24) > MOST_LIST {
        return fault(FormatRule::OverLimit, Part::JobEntry, j, 24);
    }
    if word_at(bytes, at + 24) % 4 != 0 {
        return fault(FormatRule::WithoutMeaning, Part::JobEntry, j, 24);
    }
    if bytes[at + 121] != 0 {
        return fault(FormatRule::WithoutMeaning, Part::JobEntry, j, 121);
    }
    if bytes[at + 122] != 0 {
        return fault(FormatRule::WithoutMeaning, Part::JobEntry, j, 122);
    }
    if bytes[at + 123] != 0 {
        return fault(FormatRule::WithoutMeaning, Part::JobEntry, j, 123);
    }
    None
}

/// The entry of buffer `b`.
#[tactic(auto, unfolding(crate::specs::Faults::buffer_questions))]
fn buffer_fault(bytes: &[u8], b: usize) -> Option<FormatFault>
    requires few { b ≤ most_buffers }
    requires before { entry_offset b ≤ length bytes.now }
    ensures first { result ≡ first_of (buffer_questions bytes.now b) }
    ensures inside { IfNone result (entry_offset b + entry_size ≤ length bytes.now) }
{
    entry_fault(bytes, b, entry_offset(b))
}

/// The entries of so many buffers.
fn buffers_fault(bytes: &[u8], buffers: usize, jobs: usize) -> Option<FormatFault>
    requires header { HasHeader bytes.now buffers jobs }
    ensures first { result ≡ first_of (each (buffer_questions bytes.now) 0 buffers) }
    ensures inside { IfNone result (entry_offset buffers ≤ length bytes.now) }
{
    for b in 0..buffers {
        if let Some(fault) = buffer_fault(bytes, b) {
            return Some(fault);
        }
    }
    None
}

/// The entry of job `j`.
#[tactic(auto, unfolding(crate::specs::Faults::job_questions))]
fn job_fault(bytes: &[u8], buffers: usize, j: usize) -> Option<FormatFault>
    requires header { header_size ≤ length bytes.now }
    requires named { buffers ≡ buffer_count bytes.now }
    requires few_buffers { buffers ≤ most_buffers }
    requires few_jobs { j ≤ most_jobs }
    requires before { job_offset bytes.now j ≤ length bytes.now }
    ensures first { result ≡ first_of (job_questions bytes.now j) }
    ensures inside { IfNone result (job_offset bytes.now j + job_size ≤ length bytes.now) }
{
    job_entry_fault(bytes, j, job_offset(buffers, j))
}

/// The entries of so many jobs.
fn jobs_fault(bytes: &[u8], buffers: usize, jobs: usize) -> Option<FormatFault>
    requires header { HasHeader bytes.now buffers jobs }
    requires before { entry_offset buffers ≤ length bytes.now }
    ensures first { result ≡ first_of (each (job_questions bytes.now) 0 jobs) }
    ensures inside { IfNone result (job_offset bytes.now jobs ≤ length bytes.now) }
{
    for j in 0..jobs {
        if let Some(fault) = job_fault(bytes, buffers, j) {
            return Some(fault);
        }
    }
    None
}

/// How many bytes of contents the entry of buffer `b` names.
pub(crate) fn content_size(bytes: &[u8], b: usize) -> usize
    requires few { b ≤ most_buffers }
    requires entry { entry_offset b + entry_size ≤ length bytes.now }
    ensures { result ≡ content_size bytes.now b }
{
    word_at(bytes, entry_offset(b) + 16) as usize
}

/// The contents of buffer `b`, which begin at `at`, and the offset where they end.
#[tactic(auto, unfolding(crate::specs::Faults::content_questions), using(crate::proofs::Standing::content_offset_step))]
fn content_fault(bytes: &[u8], b: usize, at: usize) -> Result<usize, FormatFault>
    requires few { b ≤ most_buffers }
    requires entry { entry_offset b + entry_size ≤ length bytes.now }
    requires here { at ≡ content_offset bytes.now b }
    requires before { at ≤ length bytes.now }
    ensures { GoesOn (content_questions bytes.now b)
        (λ end. (end ≡ content_offset bytes.now (b + 1)) × (end ≤ length bytes.now)) result }
{
    let size = content_size(bytes, b);
    if bytes.len() - at < size {
        return Err(fault_of(FormatRule::EndsEarly, Part::Contents, b, 0));
    }
    Ok(at + size)
}

/// The contents of the buffers, and the offset where they end.
fn contents_fault(bytes: &[u8], buffers: usize, jobs: usize) -> Result<usize, FormatFault>
    requires header { HasHeader bytes.now buffers jobs }
    requires before { job_offset bytes.now jobs ≤ length bytes.now }
    ensures { GoesOn (each (content_questions bytes.now) 0 buffers)
        (λ end. (end ≡ handles_offset bytes.now 0) × (end ≤ length bytes.now)) result }
{
    let mut at = job_offset(buffers, jobs);
    for b in 0..buffers {
        match content_fault(bytes, b, at) {
            Ok(end) => at = end,
            Err(fault) => return Err(fault),
        }
    }
    Ok(at)
}

/// The handles, the binner list, the records and the uniforms of job `j`, which begin at `at`, and
/// the offset where they end.
#[tactic(auto, unfolding(crate::specs::Faults::parts_questions, crate::specs::Offsets::bin_offset, crate::specs::Offsets::records_offset, crate::specs::Offsets::uniforms_offset, crate::specs::Offsets::end_offset), using(crate::proofs::Standing::handles_offset_step))]
fn parts_fault(bytes: &[u8], buffers: usize, j: usize, at: usize) -> Result<usize, FormatFault>
    requires named { buffers ≡ buffer_count bytes.now }
    requires few_buffers { buffers ≤ most_buffers }
    requires few_jobs { j < most_jobs }
    requires here { at ≡ handles_offset bytes.now j }
    requires entry { job_offset bytes.now j + job_size ≤ length bytes.now }
    requires before { at ≤ length bytes.now }
    ensures { GoesOn (parts_questions bytes.now j)
        (λ end. (end ≡ handles_offset bytes.now (j + 1)) × (end ≤ length bytes.now)) result }
{
    let job = job_offset(buffers, j);
    let handles = 4 * word_at(bytes, job + 8) as usize;
    if bytes.len() - at < handles {
        return Err(fault_of(FormatRule::EndsEarly, Part::Handles, j, 0));
    }
    let at = at + handles;
    let bin = word_at(bytes, job + 12) as usize;
    if bytes.len() - at < bin {
        return Err(fault_of(FormatRule::EndsEarly, Part::BinnerList, j, 0));
    }
    let at = at + bin;
    let records = word_at(bytes, job + 16) as usize;
    if bytes.len() - at < records {
        return Err(fault_of(FormatRule::EndsEarly, Part::Records, j, 0));
    }
    let at = at + records;
    let uniforms = word_at(bytes, job + 24) as usize;
    if bytes.len() - at < uniforms {
        return Err(fault_of(FormatRule::EndsEarly, Part::Uniforms, j, 0));
    }
    Ok(at + uniforms)
}

/// The parts of the jobs, which begin at `at`, and the offset where they end.
fn all_parts_fault(
    bytes: &[u8],
    buffers: usize,
    jobs: usize,
    at: usize,
) -> Result<usize, FormatFault>
    requires header { HasHeader bytes.now buffers jobs }
    requires here { at ≡ handles_offset bytes.now 0 }
    requires entries { job_offset bytes.now jobs ≤ length bytes.now }
    requires before { at ≤ length bytes.now }
    ensures { GoesOn (each (parts_questions bytes.now) 0 jobs)
        (λ end. (end ≡ handles_offset bytes.now jobs) × (end ≤ length bytes.now)) result }
{
    let mut at = at;
    for j in 0..jobs {
        match parts_fault(bytes, buffers, j, at) {
            Ok(end) => at = end,
            Err(fault) => return Err(fault),
        }
    }
    Ok(at)
}

/// The end of the file, where the parts end at `at`.
#[tactic(auto, unfolding(crate::specs::Faults::end_questions))]
fn end_fault(bytes: &[u8], at: usize) -> Option<FormatFault>
    requires here { at ≡ handles_offset bytes.now (job_count bytes.now) }
    ensures { result ≡ first_of (end_questions bytes.now) }
{
    if at < bytes.len() {
        return fault(FormatRule::BytesFollow, Part::File, 0, at);
    }
    None
}

/// The parts of the jobs, which begin at `at`, and the end of the file.
#[tactic(auto, using(field_words::proofs::Questions::passes, field_words::proofs::Questions::stops))]
fn last_fault(bytes: &[u8], buffers: usize, jobs: usize, at: usize) -> Option<FormatFault>
    requires header { HasHeader bytes.now buffers jobs }
    requires here { at ≡ handles_offset bytes.now 0 }
    requires entries { job_offset bytes.now jobs ≤ length bytes.now }
    requires before { at ≤ length bytes.now }
    ensures { result ≡ first_of (last_questions bytes.now) }
{
    match all_parts_fault(bytes, buffers, jobs, at) {
        Err(fault) => Some(fault),
        Ok(end) => end_fault(bytes, end),
    }
}

/// The contents of the buffers, and the parts after them.
#[tactic(auto, using(field_words::proofs::Questions::passes, field_words::proofs::Questions::stops))]
fn rest_fault(bytes: &[u8], buffers: usize, jobs: usize) -> Option<FormatFault>
    requires header { HasHeader bytes.now buffers jobs }
    requires before { job_offset bytes.now jobs ≤ length bytes.now }
    ensures { result ≡ first_of (rest_questions bytes.now) }
{
    match contents_fault(bytes, buffers, jobs) {
        Err(fault) => Some(fault),
        Ok(at) => last_fault(bytes, buffers, jobs, at),
    }
}

/// The jobs' entries, and what follows them.
#[tactic(auto, using(field_words::proofs::Questions::passes, field_words::proofs::Questions::stops))]
fn jobs_and_rest_fault(bytes: &[u8], buffers: usize, jobs: usize) -> Option<FormatFault>
    requires header { HasHeader bytes.now buffers jobs }
    requires before { entry_offset buffers ≤ length bytes.now }
    ensures { result ≡ first_of (jobs_and_rest_questions bytes.now) }
{
    match jobs_fault(bytes, buffers, jobs) {
        Some(fault) => Some(fault),
        None => rest_fault(bytes, buffers, jobs),
    }
}

/// The buffers' entries, and what follows them.
#[tactic(auto, using(field_words::proofs::Questions::passes, field_words::proofs::Questions::stops))]
fn body_fault(bytes: &[u8], buffers: usize, jobs: usize) -> Option<FormatFault>
    requires header { HasHeader bytes.now buffers jobs }
    ensures { result ≡ first_of (body_questions bytes.now) }
{
    match buffers_fault(bytes, buffers, jobs) {
        Some(fault) => Some(fault),
        None => jobs_and_rest_fault(bytes, buffers, jobs),
    }
}

/// The first of F1 to F5 and F7.
#[tactic(auto, unfolding(crate::specs::Faults::format_questions), using(field_words::proofs::Questions::passes, field_words::proofs::Questions::stops))]
pub(crate) fn format_fault(bytes: &[u8]) -> Option<FormatFault>
    ensures { result ≡ first_of (format_questions bytes.now) }
{
    match header_fault(bytes) {
        Some(fault) => Some(fault),
        None => body_fault(
            bytes,
            word_at(bytes, 28) as usize,
            word_at(bytes, 32) as usize,
        ),
    }
}
