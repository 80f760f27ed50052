//! The values of a job file in which no format rule is broken.
ghost use Rattle.std.specs.Prelude.{◌≡◌, ◌↔◌, ◌+◌, ◌*◌, ◌<◌, ◌≤◌, length, map, None, IfOk};
ghost use Rattle.field_words.specs.Words.{u16_at};
ghost use Rattle.field_words.specs.Questions.{first_of, Answers, NamesFirst, NeverHidesFault};
ghost use Rattle.job_format.specs.Faults.{format_questions};
ghost use Rattle.job_format.specs.File.{IsFileOf, Reads};
ghost use Rattle.job_format.specs.Model.{FileModel, file_view};
ghost use Rattle.job_format.specs.Parts.{job_parts_view, parts_view};
ghost use Rattle.job_format.specs.Offsets.{header_size, entry_size, job_size, most_buffers, most_handles, most_jobs, buffer_count, job_count, entry_offset, job_offset, job_word, handles_offset, bin_offset, records_offset, uniforms_offset, end_offset};
ghost use Rattle.job_format.specs.Whole.{HasParts};
ghost use Rattle.job_format.specs.Reading.{bytes_cut, regions_at, entry_at, surface_at, frame_at, kind_of, words_at, buffers_at, contents_at, job_at, jobs_at, file_at};

use crate::faults::{content_size, format_fault};
use crate::file::{Frame, JobFile, Surface};
use crate::parts::{FileParts, JobParts, Numbers};
use crate::rule::FormatFault;
use crate::sizes::{entry_offset, job_offset};
use buffer_table::{Buffer, Kind, Regions};
use field_words::{Stop, get_u16, word_at};
use std::alloc::{AllocError, Global};

/// The number of two bytes at `at`.
fn half(bytes: &[u8], at: usize) -> u16
    requires inside { at + 2 ≤ length bytes.now }
    ensures { result ≡ u16_at bytes.now at }
{
    get_u16(bytes, at).unwrap_or(0)
}

#[tactic(auto, unfolding(crate::specs::Reading::regions_at))]
fn regions(bytes: &[u8]) -> Regions
    requires inside { header_size ≤ length bytes.now }
    ensures { result ≡ regions_at bytes.now }
{
    Regions {
        lists_place: word_at(bytes, 12),
        lists_size: word_at(bytes, 16),
        tile_place: word_at(bytes, 20),
        tile_slots: word_at(bytes, 24),
    }
}

fn kind(number: u32) -> Kind
    ensures { result ≡ kind_of number }
{
    if number == 1 { Kind::Code } else { Kind::Plain }
}

/// A buffer's entry.
#[tactic(auto, unfolding(crate::specs::Reading::entry_at))]
fn entry(bytes: &[u8], at: usize) -> Buffer
    requires inside { at + entry_size ≤ length bytes.now }
    ensures { result ≡ entry_at bytes.now at }
{
    Buffer {
        place: word_at(bytes, at),
        size: word_at(bytes, at + 4),
        client: word_at(bytes, at + 8),
        kind: kind(word_at(bytes, at + 12)),
        content: word_at(bytes, at + 16),
    }
}

#[tactic(auto, unfolding(crate::specs::Reading::surface_at))]
fn surface(bytes: &[u8], at: usize) -> Surface
    requires inside { at + 12 ≤ length bytes.now }
    ensures { result ≡ surface_at bytes.now at }
{
    Surface {
        hindex: word_at(bytes, at),
        offset: word_at(bytes, at + 4),
        bits: half(bytes, at + 8),
        flags: half(bytes, at + 10),
    }
}

/// The frame in a job's entry, which begins at `at`.
#[tactic(auto, unfolding(crate::specs::Reading::frame_at))]
fn frame(bytes: &[u8], at: usize) -> Frame
    requires inside { at + job_size ≤ length bytes.now }
    ensures { result ≡ frame_at bytes.now at }
{
    Frame {
        width: half(bytes, at + 28),
        height: half(bytes, at + 30),
        min_x: bytes[at + 32],
        min_y: bytes[at + 33],
        max_x: bytes[at + 34],
        max_y: bytes[at + 35],
        surfaces: [
            surface(bytes, at + 36),
            surface(bytes, at + 48),
            surface(bytes, at + 60),
            surface(bytes, at + 72),
            surface(bytes, at + 84),
            surface(bytes, at + 96),
        ],
        clear: word_at(bytes, at + 4) == 1,
        clear_color: [word_at(bytes, at + 108), word_at(bytes, at + 112)],
        clear_z: word_at(bytes, at + 116),
        clear_s: bytes[at + 120],
    }
}

/// `count` words from `at` on.
#[tactic(auto, using(crate::proofs::Listed::words_none, crate::proofs::Listed::words_more))]
fn words(alloc: Global, bytes: &[u8], at: usize, count: usize) -> Result<Vec<u32>, AllocError>
    requires few { count ≤ most_handles }
    requires inside { at + 4 * count ≤ length bytes.now }
    ensures { IfOk result (λ v. v.items ≡ words_at bytes.now at count) }
{
    let mut words = Vec::new(alloc);
    for i in 0..count {
        words.push(word_at(bytes, at + 4 * i))?;
    }
    Ok(words)
}

/// The entries of `count` buffers.
#[tactic(auto, using(crate::proofs::Listed::buffers_none, crate::proofs::Listed::buffers_more))]
fn buffers(alloc: Global, bytes: &[u8], count: usize) -> Result<Vec<Buffer>, AllocError>
    requires few { count ≤ most_buffers }
    requires inside { entry_offset count ≤ length bytes.now }
    ensures { IfOk result (λ v. v.items ≡ buffers_at bytes.now count) }
{
    let mut buffers = Vec::new(alloc);
    for b in 0..count {
        buffers.push(entry(bytes, entry_offset(b)))?;
    }
    Ok(buffers)
}

/// `size` bytes from `at` on.
fn bytes_at(bytes: &[u8], at: usize, size: usize) -> &[u8]
    requires inside { at + size ≤ length bytes.now }
    ensures { result.now ≡ bytes_cut bytes.now at size }
{
    &bytes[at..at + size]
}

/// The contents of so many buffers, one after the other, and the offset where they end.
#[tactic(auto, using(crate::proofs::Listed::contents_none, crate::proofs::Standing::content_offset_first, crate::proofs::Standing::handles_offset_first))]
fn contents<'a>(
    alloc: Global,
    bytes: &'a [u8],
    buffers: usize,
    jobs: usize,
) -> Result<(Vec<&'a [u8]>, usize), AllocError>
    requires whole { HasParts bytes.now buffers jobs }
    ensures values { IfOk result (λ v. map (λ c. c.now) v.0.items ≡ contents_at bytes.now buffers) }
    ensures end { IfOk result (λ v. v.1 ≡ handles_offset bytes.now 0) }
{
    let mut contents = Vec::new(alloc);
    let mut at = job_offset(buffers, jobs);
    for b in 0..buffers {
        let size = content_size(bytes, b);
        contents.push(bytes_at(bytes, at, size))?;
        at += size;
    }
    Ok((contents, at))
}

/// Job `j`, whose parts begin at `handles`, and the offset where they end.
#[tactic(auto, unfolding(crate::specs::Reading::job_at, crate::specs::Offsets::bin_offset, crate::specs::Offsets::records_offset, crate::specs::Offsets::uniforms_offset, crate::specs::Offsets::end_offset), using(crate::proofs::Standing::handles_offset_step))]
fn job<'a>(
    alloc: Global,
    bytes: &'a [u8],
    buffers: usize,
    j: usize,
    handles: usize,
) -> Result<(JobParts<'a>, usize), AllocError>
    requires named { buffers ≡ buffer_count bytes.now }
    requires few_buffers { buffers ≤ most_buffers }
    requires few_jobs { j < most_jobs }
    requires entry { job_offset bytes.now j + job_size ≤ length bytes.now }
    requires few_handles { job_word bytes.now j 8 ≤ most_handles }
    requires here { handles ≡ handles_offset bytes.now j }
    requires inside { handles_offset bytes.now (j + 1) ≤ length bytes.now }
    ensures value { IfOk result (λ v. job_parts_view v.0 ≡ job_at bytes.now j) }
    ensures end { IfOk result (λ v. v.1 ≡ handles_offset bytes.now (j + 1)) }
{
    let at = job_offset(buffers, j);
    let count = word_at(bytes, at + 8) as usize;
    let bin = handles + 4 * count;
    let bin_size = word_at(bytes, at + 12) as usize;
    let records = bin + bin_size;
    let records_size = word_at(bytes, at + 16) as usize;
    let uniforms = records + records_size;
    let uniforms_size = word_at(bytes, at + 24) as usize;
    let job = JobParts {
        client: word_at(bytes, at),
        handles: Numbers::Own(words(alloc, bytes, handles, count)?),
        bin: bytes_at(bytes, bin, bin_size),
        records: bytes_at(bytes, records, records_size),
        declared: word_at(bytes, at + 20),
        uniforms: bytes_at(bytes, uniforms, uniforms_size),
        frame: frame(bytes, at),
    };
    Ok((job, uniforms + uniforms_size))
}

/// So many jobs, the parts of the first beginning at `handles`.
fn jobs<'a>(
    alloc: Global,
    bytes: &'a [u8],
    buffers: usize,
    jobs: usize,
    handles: usize,
) -> Result<Vec<JobParts<'a>>, AllocError>
    requires whole { HasParts bytes.now buffers jobs }
    requires here { handles ≡ handles_offset bytes.now 0 }
    ensures { IfOk result (λ v. map job_parts_view v.items ≡ jobs_at bytes.now jobs) }
{
    let mut read = Vec::new(alloc);
    let mut at = handles;
    for j in 0..jobs {
        let (job, end) = job(alloc, bytes, buffers, j, at)?;
        read.push(job)?;
        at = end;
    }
    Ok(read)
}

/// The parts of the file that the bytes are.
#[tactic(auto, unfolding(crate::specs::Reading::file_at))]
fn parts_of<'a>(alloc: Global, bytes: &'a [u8]) -> Result<FileParts<'a>, AllocError>
    requires whole { HasParts bytes.now (buffer_count bytes.now) (job_count bytes.now) }
    ensures { IfOk result (λ f. parts_view f ≡ file_at bytes.now) }
{
    let count = word_at(bytes, 28) as usize;
    let job_count = word_at(bytes, 32) as usize;
    let (contents, handles) = contents(alloc, bytes, count, job_count)?;
    Ok(FileParts {
        version: word_at(bytes, 4),
        mem_size: word_at(bytes, 8),
        regions: regions(bytes),
        buffers: buffers(alloc, bytes, count)?,
        contents,
        jobs: jobs(alloc, bytes, count, job_count, handles)?,
    })
}

/// The parts, or the first fault.
fn found_parts<'a>(alloc: Global, bytes: &'a [u8]) -> Result<FileParts<'a>, Stop<FormatFault>>
    ensures answers { Answers (format_questions bytes.now)
        (λ f. parts_view f ≡ file_at bytes.now) result }
    ensures memory { NeverHidesFault (format_questions bytes.now) result }
{
    match format_fault(bytes) {
        Some(fault) => Err(Stop::Fault(fault)),
        None => Ok(parts_of(alloc, bytes)?),
    }
}

/// Reads a job file of either version, and copies neither contents nor lists. The fault is the first of F1 to F5 and F7, part by part and
/// in a part by field. Finding it takes no memory.
pub fn read_parts<'a>(alloc: Global, bytes: &'a [u8]) -> Result<FileParts<'a>, Stop<FormatFault>>
    // Which fault it is, and the fields of the file.
    ensures read { Answers (format_questions bytes.now)
        (λ f. parts_view f ≡ file_at bytes.now) result }
    ensures first { NamesFirst (format_questions bytes.now) result }
    ensures memory { NeverHidesFault (format_questions bytes.now) result }
    // The file that is read is the one that the bytes spell.
    ensures found { IfOk result (λ f. IsFileOf bytes.now (parts_view f)) }
    // No rule is broken exactly where a file belongs to the bytes.
    ensures exact { (first_of (format_questions bytes.now) ≡ None)
        ↔ ((f : FileModel) × IsFileOf bytes.now f) }
    // Bytes that spell a file are read, unless memory runs out.
    ensures only { (f : FileModel) → IsFileOf bytes.now f → Reads parts_view f result }
{
    found_parts(alloc, bytes)
}

/// The file that was read, or its first fault.
fn file(alloc: Global, bytes: &[u8]) -> Result<JobFile, Stop<FormatFault>>
    ensures answers { Answers (format_questions bytes.now)
        (λ f. file_view f ≡ file_at bytes.now) result }
    ensures memory { NeverHidesFault (format_questions bytes.now) result }
{
    let parts = found_parts(alloc, bytes)?;
    Ok(parts.to_file(alloc)?)
}

/// The file that was read, with contents and lists of its own.
pub fn read_job(alloc: Global, bytes: &[u8]) -> Result<JobFile, Stop<FormatFault>>
    ensures read { Answers (format_questions bytes.now)
        (λ f. file_view f ≡ file_at bytes.now) result }
    ensures first { NamesFirst (format_questions bytes.now) result }
    ensures memory { NeverHidesFault (format_questions bytes.now) result }
    ensures found { IfOk result (λ f. IsFileOf bytes.now (file_view f)) }
    ensures exact { (first_of (format_questions bytes.now) ≡ None)
        ↔ ((f : FileModel) × IsFileOf bytes.now f) }
    ensures only { (f : FileModel) → IsFileOf bytes.now f → Reads file_view f result }
{
    file(alloc, bytes)
}
