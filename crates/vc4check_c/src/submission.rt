//! A driver's submission as C hands it over, and the parts of a job file that it stands for.
ghost use Rattle.std.specs.Prelude.{◌≡◌, ◌≤◌, ◌<◌, ◌^◌, length, map, slice_get, Some, IfNone, IfOk};
ghost use Rattle.field_words.specs.Sizes.{most_code};
ghost use Rattle.field_words.specs.Questions.{Answers, first_of};
ghost use Rattle.job_format.specs.declared.rule.Stage.TheVariants.{F as StageF};
ghost use Rattle.job_format.specs.Parts.{job_parts_view, parts_view};
ghost use Rattle.job_format.specs.Places.{place_in};
ghost use Rattle.job_format.specs.Offsets.{most_buffers};
ghost use Rattle.job_format.specs.Rules.{format_rule_number};
ghost use Rattle.job_check.specs.Faults.{refusal_by};
ghost use Rattle.vc4check_c.specs.Submission.{surface_in, frame_in, content_in, entry_in, job_in, file_of, entry_questions, buffer_questions, entries_questions, job_questions, own_questions};

use crate::block::Known;
use buffer_table::{Buffer, Kind, Regions};
use field_words::{MOST_CODE, MOST_LIST, Stop};
use job_check::refusal;
use job_format::{
    FileParts, FormatRule, Frame, JobParts, MOST_BUFFERS, MOST_HANDLES, MOST_STATES, Numbers, Part,
    Refusal, Stage, Surface,
};
use std::alloc::{AllocError, Global};

/// A buffer: where it lies, its size, its owner, its kind as a number, and of a Code buffer the shader in it with what was kept of it when
/// it was checked, or no entry.
#[repr(C)]
#[derive(Clone, Copy, Debug)]
pub struct GivenBuffer<'a> {
    pub address: u32,
    pub size: u32,
    pub client: u32,
    pub kind: u32,
    pub content: &'a [u8],
    pub known: &'a [Known],
}

/// A surface of the frame, as `Surface` is.
#[repr(C)]
#[derive(Clone, Copy, Debug)]
pub struct GivenSurface {
    pub hindex: u32,
    pub offset: u32,
    pub bits: u16,
    pub flags: u16,
}

/// The frame, 96 bytes as in a job's entry.
#[repr(C)]
#[derive(Clone, Copy, Debug)]
pub struct GivenFrame {
    pub width: u16,
    pub height: u16,
    pub min_x: u8,
    pub min_y: u8,
    pub max_x: u8,
    pub max_y: u8,
    pub surfaces: [GivenSurface; 6],
    pub clear_color: [u32; 2],
    pub clear_z: u32,
    pub clear_s: u8,
    pub pad: [u8; 3],
}

/// One job with all that it names. Places are addresses of the bus, and sizes bytes; `end` is the first address behind the memory.
#[repr(C)]
#[derive(Clone, Copy, Debug)]
pub struct Submission<'a> {
    pub buffers: &'a [GivenBuffer<'a>],
    pub handles: &'a [u32],
    pub bin: &'a [u8],
    pub records: &'a [u8],
    pub uniforms: &'a [u8],
    pub client: u32,
    pub flags: u32,
    pub states: u32,
    pub end: u32,
    pub lists: u32,
    pub lists_size: u32,
    pub slot: u32,
    pub frame: GivenFrame,
}

/// A surface.
#[tactic(auto, unfolding(crate::specs::Submission::surface_in))]
fn surface_in(given: &GivenSurface) -> Surface
    ensures { result ≡ surface_in given.now }
{
    Surface {
        hindex: given.hindex,
        offset: given.offset,
        bits: given.bits,
        flags: given.flags,
    }
}

/// The frame of a job with these flags.
#[tactic(auto, unfolding(crate::specs::Submission::frame_in))]
fn frame_in(given: &GivenFrame, flags: u32) -> Frame
    ensures { result ≡ frame_in given.now flags }
{
    let [one, two, three, four, five, six] = &given.surfaces;
    Frame {
        width: given.width,
        height: given.height,
        min_x: given.min_x,
        min_y: given.min_y,
        max_x: given.max_x,
        max_y: given.max_y,
        surfaces: [
            surface_in(one),
            surface_in(two),
            surface_in(three),
            surface_in(four),
            surface_in(five),
            surface_in(six),
        ],
        clear: flags == 1,
        clear_color: given.clear_color,
        clear_z: given.clear_z,
        clear_s: given.clear_s,
    }
}

/// The shader in a Code buffer; nothing of a data buffer.
#[tactic(auto, unfolding(crate::specs::Submission::content_in))]
fn content_in<'a>(given: &GivenBuffer<'a>) -> &'a [u8]
    ensures { result.now ≡ content_in given.now }
{
    if given.kind == 1 { given.content } else { &[] }
}

/// A buffer's entry.
#[tactic(auto, unfolding(crate::specs::Submission::entry_in))]
fn entry_in(given: &GivenBuffer) -> Buffer
    requires { length (content_in given.now) ≤ most_code }
    ensures { result ≡ entry_in given.now }
{
    Buffer {
        place: given.address,
        size: given.size,
        client: given.client,
        kind: if given.kind == 1 {
            Kind::Code
        } else {
            Kind::Plain
        },
        content: content_in(given).len() as u32,
    }
}

/// A rule of the format that is broken, at this byte of the part of this number.
fn limit(rule: FormatRule, part: Part, index: usize, at: u64) -> Refusal
    requires { index < 2 ^ 32 }
    ensures { result ≡ refusal_by StageF (format_rule_number rule) (place_in part index at) }
{
    refusal(Stage::F, rule.number(), part, index, at)
}

/// F5 and F4 of buffer `b`.
#[tactic(auto, unfolding(crate::specs::Submission::entry_questions))]
fn entry_fault(given: &GivenBuffer, b: usize) -> Option<Refusal>
    requires { b < 2 ^ 32 }
    ensures first { result ≡ first_of (entry_questions given.now b) }
    ensures few { IfNone result (length (content_in given.now) ≤ most_code) }
{
    if given.kind > 1 {
        return Some(limit(FormatRule::WithoutMeaning, Part::Entry, b, 12));
    }
    if content_in(given).len() > MOST_CODE as usize {
        return Some(limit(FormatRule::OverLimit, Part::Entry, b, 16));
    }
    None
}

/// The entry of buffer `b`, where nothing is wrong with its kind and its shader's length.
#[tactic(auto, unfolding(crate::specs::Submission::buffer_questions))]
fn entry_at(buffers: &[GivenBuffer], b: usize) -> Result<Buffer, Stop<Refusal>>
    requires few { b ≤ most_buffers }
    requires inside { b < length buffers.now }
    ensures { Answers (buffer_questions buffers.now b)
        (λ buffer. slice_get (map entry_in buffers.now) b ≡ Some buffer) result }
{
    match buffers.get(b) {
        Some(given) => match entry_fault(given, b) {
            Some(refusal) => Err(Stop::Fault(refusal)),
            None => Ok(entry_in(given)),
        },
        None => Err(Stop::NoMemory),
    }
}

/// The entries of all buffers.
fn entries(alloc: Global, buffers: &[GivenBuffer]) -> Result<Vec<Buffer>, Stop<Refusal>>
    requires { length buffers.now ≤ most_buffers }
    ensures { Answers (entries_questions buffers.now)
        (λ entries. entries.items ≡ map entry_in buffers.now) result }
{
    let mut entries = Vec::with_capacity(alloc, buffers.len())?;
    for b in 0..buffers.len() {
        match entry_at(buffers, b) {
            Ok(entry) => entries.push(entry)?,
            Err(stop) => return Err(stop),
        }
    }
    Ok(entries)
}

/// F5 and F4 of the job.
#[tactic(auto, unfolding(crate::specs::Submission::job_questions))]
fn job_fault(given: &Submission) -> Option<Refusal>
    ensures { result ≡ first_of (job_questions given.now) }
{
    let over = FormatRule::OverLimit;
    let unknown = FormatRule::WithoutMeaning;
    if given.flags > 1 {
        return Some(limit(unknown, Part::JobEntry, 0, 4));
    }
    if given.handles.len() > MOST_HANDLES as usize {
        return Some(limit(over, Part::JobEntry, 0, 8));
    }
    if given.bin.len() > MOST_LIST as usize {
        return Some(limit(over, Part::JobEntry, 0, 12));
    }
    if given.records.len() > MOST_LIST as usize {
        return Some(limit(over, Part::JobEntry, 0, 16));
    }
    if given.states > MOST_STATES {
        return Some(limit(over, Part::JobEntry, 0, 20));
    }
    if given.uniforms.len() > MOST_LIST as usize {
        return Some(limit(over, Part::JobEntry, 0, 24));
    }
    if given.uniforms.len() % 4 != 0 {
        return Some(limit(unknown, Part::JobEntry, 0, 24));
    }
    let [first, second, third] = given.frame.pad;
    if first != 0 {
        return Some(limit(unknown, Part::JobEntry, 0, 121));
    }
    if second != 0 {
        return Some(limit(unknown, Part::JobEntry, 0, 122));
    }
    if third != 0 {
        return Some(limit(unknown, Part::JobEntry, 0, 123));
    }
    None
}

/// The contents of all buffers.
fn contents<'a>(alloc: Global, buffers: &[GivenBuffer<'a>]) -> Result<Vec<&'a [u8]>, AllocError>
    ensures { IfOk result (λ contents. map (λ c. c.now) contents.items
        ≡ map content_in buffers.now) }
{
    let mut contents = Vec::with_capacity(alloc, buffers.len())?;
    for given in buffers {
        contents.push(content_in(given))?;
    }
    Ok(contents)
}

/// The job.
#[tactic(auto, unfolding(crate::specs::Submission::job_in))]
fn job_in<'a>(given: &Submission<'a>) -> JobParts<'a>
    ensures { job_parts_view result ≡ job_in given.now }
{
    JobParts {
        client: given.client,
        handles: Numbers::Lent(given.handles),
        bin: given.bin,
        records: given.records,
        declared: given.states,
        uniforms: given.uniforms,
        frame: frame_in(&given.frame, given.flags),
    }
}

/// The entries of the buffers, where nothing is wrong with the submission's own numbers.
#[tactic(auto, unfolding(crate::specs::Submission::own_questions), using(field_words::proofs::Questions::passes, field_words::proofs::Questions::stops))]
fn checked_entries(alloc: Global, given: &Submission) -> Result<Vec<Buffer>, Stop<Refusal>>
    ensures { Answers (own_questions given.now)
        (λ entries. entries.items ≡ map entry_in given.now.buffers.now) result }
{
    let count = given.buffers.len();
    if count > MOST_BUFFERS as usize {
        return Err(Stop::Fault(limit(FormatRule::OverLimit, Part::Header, 0, 28)));
    }
    let entries = entries(alloc, given.buffers)?;
    match job_fault(given) {
        Some(refusal) => Err(Stop::Fault(refusal)),
        None => Ok(entries),
    }
}

/// The parts of the job file that the submission stands for, where nothing is wrong with its own numbers.
#[tactic(auto, unfolding(crate::specs::Submission::file_of))]
pub(crate) fn parts_in<'a>(
    alloc: Global,
    given: &Submission<'a>,
) -> Result<FileParts<'a>, Stop<Refusal>>
    ensures { Answers (own_questions given.now)
        (λ parts. parts_view parts ≡ file_of given.now) result }
{
    let buffers = checked_entries(alloc, given)?;
    Ok(FileParts {
        version: 2,
        mem_size: given.end,
        regions: Regions {
            lists_place: given.lists,
            lists_size: given.lists_size,
            tile_place: given.slot,
            tile_slots: 1,
        },
        buffers,
        contents: contents(alloc, given.buffers)?,
        jobs: vec![in alloc; job_in(given)]?,
    })
}
