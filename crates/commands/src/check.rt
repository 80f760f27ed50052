//! The command `check`.
ghost use Rattle.std.specs.Prelude.{◌≡◌, ◌∷◌, [], ◌++◌, length, map, Some, IfOk, IsOk};
ghost use Rattle.field_words.specs.Sizes.{most_memory};
ghost use Rattle.field_words.specs.Questions.{Answers};
ghost use Rattle.job_format.specs.File.{IsWellFormed, IsFileOf};
ghost use Rattle.job_format.specs.Parts.{parts_view};
ghost use Rattle.job_format.specs.Reading.{file_at};
ghost use Rattle.job_check.specs.Emit.{content_parts};
ghost use Rattle.job_check.specs.Faults.{file_stages};
ghost use Rattle.job_check.specs.Whole.{all_questions};
ghost use Rattle.dumper.specs.Parts.{part_at, parts_sorted, Ascend};
ghost use Rattle.dumper.specs.{Spans.parts_of, Text.refused_text};
ghost use Rattle.strict_check.specs.Whole.{strict_questions};
ghost use Rattle.commands.specs.{Answer.IsReplyTo, Cause.rule_cause, Cause.IsRefusal, Image.IsAccepted, Reply.image_text};
ghost use Rattle.commands.specs.Asked.{questions_by, refusal_by};
ghost use Rattle.commands.specs.Verdict.{image_of};
ghost use Rattle.commands.specs.declared.command.Command.TheVariants.{Check};

use super::answer::Answer;
use super::cause::Cause;
use super::reply::{Image, Reply};
use buffer_table::Buffer;
use dumper::{Span, image_head, insert_span, refusal_text};
use field_words::{MOST_MEMORY, NoMemory, Stop};
use job_check::{Region, check_parts, format_refusal};
use job_format::{FileParts, Refusal, read_parts};
use refusal_facts::line_of;
use std::alloc::Global;
use std::borrow::CowSlice;
use strict_check::check_strict_parts;

/// A file in which no rule is broken, whose contents are slices of its bytes, and the lists of its jobs.
#[derive(Drop)]
pub struct Accepted<'a> {
    pub file: FileParts<'a>,
    pub region: Region,
}

// The rules of a file that was read.
fn accept_parts<'a>(alloc: Global, file: FileParts<'a>) -> Result<Accepted<'a>, Stop<Refusal>>
    requires { IsWellFormed (parts_view file) }
    ensures { Answers (file_stages (parts_view file.entry))
        (IsAccepted (parts_view file.entry)) result }
{
    let region = check_parts(alloc, MOST_MEMORY, &file, None)?;
    Ok(Accepted { file, region })
}

/// All rules of these bytes but the strict ones. Nothing of them is copied but the numbers of entries and frames.
pub(crate) fn accept<'a>(alloc: Global, bytes: &'a [u8]) -> Result<Accepted<'a>, Stop<Refusal>>
    ensures answers { Answers (all_questions bytes.now) (IsAccepted (file_at bytes.now)) result }
    ensures spelled { IsOk result → IsFileOf bytes.now (file_at bytes.now) }
{
    match read_parts(alloc, bytes) {
        Ok(file) => accept_parts(alloc, file),
        Err(stop) => Err(format_refusal(stop)),
    }
}

/// The same with the strict rules last.
#[tactic(auto, unfolding(strict_check::specs::Whole::strict_questions))]
fn accept_strict<'a>(alloc: Global, bytes: &'a [u8]) -> Result<Accepted<'a>, Stop<Refusal>>
    ensures answers { Answers (strict_questions bytes.now) (IsAccepted (file_at bytes.now)) result }
    ensures spelled { IsOk result → IsFileOf bytes.now (file_at bytes.now) }
{
    let accepted = accept(alloc, bytes)?;
    check_strict_parts(alloc, &accepted.file)?;
    Ok(accepted)
}

/// The rules that are asked of these bytes.
fn accept_by<'a>(
    alloc: Global,
    strict: bool,
    bytes: &'a [u8],
) -> Result<Accepted<'a>, Stop<Refusal>>
    ensures answers { Answers (questions_by strict bytes.now) (IsAccepted (file_at bytes.now))
        result }
    ensures spelled { IsOk result → IsFileOf bytes.now (file_at bytes.now) }
{
    if strict {
        return accept_strict(alloc, bytes);
    }
    accept(alloc, bytes)
}

/// The first broken rule of those that are asked of these bytes, where one is.
pub fn refusal_in(alloc: Global, strict: bool, bytes: &[u8]) -> Result<Option<Refusal>, NoMemory>
    ensures { IfOk result (λ refusal. refusal ≡ refusal_by strict bytes.now) }
{
    match accept_by(alloc, strict, bytes) {
        Ok(_) => Ok(None),
        Err(Stop::Fault(refusal)) => Ok(Some(refusal)),
        Err(Stop::NoMemory) => Err(NoMemory),
    }
}

// What a file's memory has by ascending place: the contents of its buffers, which stay where they are, and its lists, which begin at
// this place.
fn spans_of<'a>(
    alloc: Global,
    buffers: &[Buffer],
    mut contents: Vec<&'a [u8]>,
    place: u32,
    lists: Vec<u8>,
) -> Result<Vec<Span<'a>>, NoMemory>
    requires { length contents.items ≡ length buffers.now }
    ensures { IfOk result (λ spans. parts_of spans.items
        ≡ parts_sorted (content_parts buffers.now (map (λ c. c.now) contents.entry.items)
        ++ part_at place lists.items ∷ [])) }
{
    let mut spans = Vec::new(alloc);
    let bytes = CowSlice::Owned(lists);
    insert_span(&mut spans, Span { place, bytes })?;
    while let Some(content) = contents.pop() {
        let place = buffers[contents.len()].place;
        let bytes = CowSlice::Borrowed(content);
        insert_span(&mut spans, Span { place, bytes })?;
    }
    Ok(spans)
}

// The image of an accepted file.
fn image_of<'a>(alloc: Global, accepted: Accepted<'a>) -> Result<Image<'a>, NoMemory>
    requires accepted { IsAccepted (parts_view accepted.file) accepted }
    requires well_formed { IsWellFormed (parts_view accepted.file) }
    ensures text { IfOk result (λ image. image_text image
        ≡ image_of (parts_view accepted.entry.file)) }
    ensures ready { IfOk result (λ image. Ascend 0 most_memory (parts_of image.spans.items)) }
{
    let Accepted { file, region } = accepted;
    let FileParts {
        version,
        mem_size,
        regions,
        buffers,
        contents,
        jobs: _,
    } = file;
    let Region {
        bytes,
        layouts,
        lengths,
    } = region;
    let head = image_head(alloc, version, mem_size, &layouts, &lengths)?;
    let spans = spans_of(alloc, &buffers, contents, regions.lists_place, bytes)?;
    Ok(Image { head, spans })
}

/// The answer to these bytes where this rule is the first that is broken.
pub(crate) fn refused(alloc: Global, bytes: &[u8], refusal: Refusal) -> Result<Answer, NoMemory>
    ensures { IfOk result (IsRefusal (refused_text bytes.now refusal)
        (rule_cause bytes.now (Some refusal))) }
{
    let text = refusal_text(alloc, bytes, &refusal)?;
    let line = line_of(alloc, bytes, refusal)?;
    Ok(Answer::refused(text, Some(Cause::Rule(line))))
}

/// The answer to these bytes where this rule is the first that is broken and a picture is expected: nothing is written.
pub(crate) fn refused_picture(
    alloc: Global,
    bytes: &[u8],
    refusal: Refusal,
) -> Result<Answer, NoMemory>
    ensures { IfOk result (IsRefusal [] (rule_cause bytes.now (Some refusal))) }
{
    let line = line_of(alloc, bytes, refusal)?;
    Ok(Answer::refused(Vec::new(alloc), Some(Cause::Rule(line))))
}

/// What `check` answers to these bytes: the memory of an accepted file, or a refusal.
#[tactic(auto, using(field_words::proofs::Questions::first_is))]
pub fn check_answer(alloc: Global, strict: bool, bytes: &[u8]) -> Result<Reply<'_>, NoMemory>
    ensures { IfOk result (IsReplyTo (Check strict) bytes.now) }
{
    match accept_by(alloc, strict, bytes) {
        Ok(accepted) => Ok(Reply::Image(image_of(alloc, accepted)?)),
        Err(Stop::Fault(refusal)) => Ok(Reply::Text(refused(alloc, bytes, refusal)?)),
        Err(Stop::NoMemory) => Err(NoMemory),
    }
}
