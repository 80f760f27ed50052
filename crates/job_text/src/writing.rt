//! A file as text.
ghost use Rattle.std.specs.Prelude.{◌≡◌, ◌++◌, false, length, List, IfOk, OnOk, Ok};
ghost use Rattle.job_text.specs.declared.note.Piece.{Piece as PieceModel};
ghost use Rattle.job_text.specs.Shown.{offset_text, remark, is_in, reason_text, end_text, whole_line, line_text, look_of, text_shown};
ghost use Rattle.job_text.specs.Cuts.{AreLines, AreAllLines};
ghost use Rattle.job_make.specs.Made.{text_bytes};

use crate::code::{Taking, next, uniform_of};
use crate::cuts::cuts_of;
use crate::meanings::put_if;
use crate::note::{Cut, Note};
use crate::notes::put_note;
use crate::numbers::{instruction, put_number};
use crate::span::Span;
use crate::view::{Omitted, View};
use field_words::NoMemory;
use script::cut_at;
use std::alloc::{AllocError, Global};

/// How many bytes a remark has at most, as a rule.
const USUAL_REMARK: usize = 128;

#[tactic(auto, unfolding(crate::specs::Shown::offset_text))]
fn put_offset(out: &mut Vec<u8>, omitted: Omitted, at: usize) -> Result<(), AllocError>
    ensures { OnOk result (out.new.items ≡ out.old.items ++ offset_text omitted at) }
{
    if omitted.offsets {
        return Ok(());
    }
    put_number(out, at)?;
    out.extend_from_slice(b" ")
}

// Writes the offset of bytes and what they are, up to a line's end.
#[tactic(auto, unfolding(crate::specs::Shown::remark))]
fn put_remark(
    alloc: Global,
    out: &mut Vec<u8>,
    omitted: Omitted,
    span: Span<'_>,
    note: Note,
) -> Result<(), AllocError>
    ensures { OnOk result (out.new.items
        ≡ out.old.items ++ remark omitted span.entry.at span.entry.bytes.now note) }
{
    let mut said = Vec::with_capacity(alloc, USUAL_REMARK)?;
    put_offset(&mut said, omitted, span.at)?;
    put_note(&mut said, note, span.bytes)?;
    out.extend_from_slice(cut_at(&said, b'\n').first)
}

#[tactic(auto, unfolding(crate::specs::Shown::reason_text))]
fn put_reason(out: &mut Vec<u8>, is: bool, why: &[u8]) -> Result<(), AllocError>
    ensures { OnOk result (out.new.items ≡ out.old.items ++ reason_text is why.now) }
{
    if is {
        out.extend_from_slice(b"# ")?;
        out.extend_from_slice(cut_at(why, b'\n').first)?;
        out.extend_from_slice(b"\n")?;
    }
    Ok(())
}

// Writes a line's end, and the lines of the mark and the reason where it is refused there.
fn put_end(out: &mut Vec<u8>, is: bool, view: View<'_>) -> Result<(), AllocError>
    ensures { OnOk result (out.new.items ≡ out.old.items ++ end_text is (look_of view.entry)) }
{
    if is {
        put_if(out, !view.behind, " <== refused here")?;
        out.extend_from_slice(b"\n")?;
        put_reason(out, view.behind, b"<== refused here")?;
        put_reason(out, true, view.why)
    } else {
        out.extend_from_slice(b"\n")?;
        Ok(())
    }
}

// Writes the line of bytes, and the reason where they are refused.
#[tactic(auto, unfolding(crate::specs::Shown::whole_line), using(crate::proofs::Texts::four_parts))]
fn put_whole_line(
    alloc: Global,
    out: &mut Vec<u8>,
    span: Span<'_>,
    note: Note,
    view: View<'_>,
) -> Result<(), NoMemory>
    ensures { OnOk result (out.new.items ≡ out.old.items
        ++ whole_line (look_of view.entry) span.entry.at span.entry.bytes.now note
        (is_in span.entry.at (length span.entry.bytes.now) view.entry.refused)) }
{
    let refused = view.is_refused_in(span.at, span.bytes.len());
    let digits = hex::encode(alloc, span.bytes)?;
    out.extend_from_slice(digits.as_bytes())?;
    out.extend_from_slice(b"  # ")?;
    put_remark(alloc, out, view.omitted, span, note)?;
    put_end(out, refused, view)?;
    Ok(())
}

/// Writes the line of bytes, unless it is left out, and the reason where they are refused.
#[tactic(auto, unfolding(crate::specs::Shown::line_text))]
pub(crate) fn put_line(
    alloc: Global,
    out: &mut Vec<u8>,
    span: Span<'_>,
    note: Note,
    view: View<'_>,
) -> Result<(), NoMemory>
    ensures { OnOk result (out.new.items ≡ out.old.items
        ++ line_text (look_of view.entry) span.entry.at span.entry.bytes.now note) }
{
    let refused = view.is_refused_in(span.at, span.bytes.len());
    if span.bytes.is_empty() || view.leaves_out(note, refused) {
        return Ok(());
    }
    put_whole_line(alloc, out, span, note, view)
}

// Writes the lines of a buffer's code, one for each instruction.
fn put_code(
    alloc: Global,
    out: &mut Vec<u8>,
    code: Span<'_>,
    buffer: u32,
    view: View<'_>,
) -> Result<(), NoMemory>
    ensures { OnOk result (AreLines (look_of view.entry) out.old.items out.new.items
        code.entry.at code.entry.bytes.now) }
{
    let mut now = Taking::default();
    let mut rest = code.bytes;
    let mut number = 0;
    while !rest.is_empty() {
        let (front, back) = rest.split_at(rest.len().min(8));
        let at = code.at + (code.bytes.len() - rest.len());
        let word = instruction(front);
        let note = Note::Instruction(buffer, number, uniform_of(now, word));
        put_line(alloc, out, Span { at, bytes: front }, note, view)?;
        now = next(now, word);
        number += 1;
        rest = back;
    }
    Ok(())
}

fn put_cut(
    alloc: Global,
    out: &mut Vec<u8>,
    span: Span<'_>,
    cut: Cut,
    view: View<'_>,
) -> Result<(), NoMemory>
    ensures { OnOk result (AreLines (look_of view.entry) out.old.items out.new.items
        span.entry.at span.entry.bytes.now) }
{
    match cut {
        Cut::Line(piece) => {
            put_line(alloc, out, span, piece.note, view)?;
            Ok(())
        }
        Cut::Code(buffer, _) => put_code(alloc, out, span, buffer, view),
    }
}

/// Writes the lines of bytes, part by part.
pub(crate) fn put_lines(
    alloc: Global,
    out: &mut Vec<u8>,
    span: Span<'_>,
    cuts: &[Cut],
    view: View<'_>,
) -> Result<(), NoMemory>
    ensures { OnOk result (AreAllLines (look_of view.entry) out.old.items out.new.items
        span.entry.at span.entry.bytes.now) }
{
    let mut rest = span.bytes;
    let mut at = span.at;
    for cut in cuts {
        let (front, back) = rest.split_at(cut.size().min(rest.len()));
        put_cut(alloc, out, Span { at, bytes: front }, *cut, view)?;
        at += front.len();
        rest = back;
    }
    put_line(alloc, out, Span { at, bytes: rest }, Note::Unread, view)?;
    Ok(())
}

/// Any bytes as lines of text: on each line some of them in hexadecimal, a `#`, their offset and what they are, as far as they
/// are a job file. All bytes stand on the lines, in order and each once, so that `make` gives them back; unless contents are left out.
/// Where they are refused at an offset, its line is marked, or behind it a line of its own, and the reason follows, up to its first line
/// feed, on a line of its own; or it stands at the end, where the offset is no byte's. Which lines a file has isn't pinned: the clauses
/// hold for any cut into pieces. Want of memory is the only error.
#[tactic(auto, unfolding(crate::specs::Shown::text_shown))]
pub fn show(alloc: Global, bytes: &[u8], view: View<'_>) -> Result<Vec<u8>, NoMemory>
    ensures text { IfOk result (λ text. (pieces : List PieceModel)
        × (text.items ≡ text_shown (look_of view.entry) bytes.now pieces)) }
    ensures again { IfOk result (λ text. view.entry.omitted.contents ≡ false
        → text_bytes text.items ≡ Ok bytes.now) }
{
    let cuts = cuts_of(alloc, bytes)?;
    let mut out = Vec::new(alloc);
    put_lines(alloc, &mut out, Span { at: 0, bytes }, &cuts, view)?;
    put_reason(&mut out, view.is_refused_past(bytes.len()), view.why)?;
    Ok(out)
}
