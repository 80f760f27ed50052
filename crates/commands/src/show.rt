//! The command `show`.
ghost use Rattle.std.specs.Prelude.{◌≡◌, false, Ok, IfOk};
ghost use Rattle.job_make.specs.Made.{text_bytes};
ghost use Rattle.job_text.specs.Shown.{look_of};
ghost use Rattle.commands.specs.{Answer.IsAnswerTo, Show.IsShown, Show.is_end, Show.marked_at, Show.look_at};
ghost use Rattle.commands.specs.declared.command.Command.TheVariants.{Show};

use super::answer::Answer;
use super::check::refusal_in;
use field_words::NoMemory;
use job_format::{Place, Refusal, offset_of};
use job_text::{Omitted, View, show, show_draws};
use refusal_facts::{line_of, size_of};
use std::alloc::Global;

/// What is asked of `show`: whether the strict rules count too, whether only the draws are shown, and what is left out.
#[derive(Clone, Copy, Debug, PartialEq, Eq)]
pub struct Showing {
    pub strict: bool,
    pub draws: bool,
    pub omitted: Omitted,
}

// Whether a place is the end of a part that has bytes.
#[tactic(auto, unfolding(crate::specs::Show::is_end))]
fn is_end(bytes: &[u8], place: Place) -> bool
    ensures { result ≡ is_end bytes.now place }
{
    place.at != 0 && place.at == size_of(bytes, place.part, place.index)
}

// The offset of the byte that is marked: that of a place, or the last before an end.
#[tactic(auto, unfolding(crate::specs::Show::marked_at))]
fn marked_at(bytes: &[u8], place: Place) -> u128
    ensures { result ≡ marked_at bytes.now place }
{
    let offset = offset_of(bytes, place);
    match is_end(bytes, place) {
        true => offset.saturating_sub(1),
        false => offset,
    }
}

// The text of bytes, or of their draws alone.
fn text_in(alloc: Global, draws: bool, bytes: &[u8], view: View<'_>) -> Result<Vec<u8>, NoMemory>
    ensures text { IfOk result (λ text. IsShown draws (look_of view.entry) bytes.now text.items) }
    ensures again { IfOk result (λ text. draws ≡ false → view.entry.omitted.contents ≡ false
        → text_bytes text.items ≡ Ok bytes.now) }
{
    match draws {
        true => show_draws(alloc, bytes, view),
        false => show(alloc, bytes, view),
    }
}

// The text of bytes that this rule refuses, or none.
fn shown_text(
    alloc: Global,
    showing: Showing,
    bytes: &[u8],
    refusal: Option<Refusal>,
) -> Result<Vec<u8>, NoMemory>
    ensures text { IfOk result (λ text.
        IsShown showing.draws (look_at showing.omitted bytes.now refusal) bytes.now text.items) }
    ensures again { IfOk result (λ text. showing.draws ≡ false → showing.omitted.contents ≡ false
        → text_bytes text.items ≡ Ok bytes.now) }
{
    let omitted = showing.omitted;
    match refusal {
        None => {
            let view = View {
                omitted,
                refused: None,
                behind: false,
                why: b"",
            };
            text_in(alloc, showing.draws, bytes, view)
        }
        Some(refusal) => {
            let line = line_of(alloc, bytes, refusal)?;
            let why = format!(in alloc; "{line}")?;
            let view = View {
                omitted,
                refused: Some(marked_at(bytes, refusal.place)),
                behind: is_end(bytes, refusal.place),
                why: why.as_bytes(),
            };
            text_in(alloc, showing.draws, bytes, view)
        }
    }
}

/// What `show` answers to any bytes: lines of text on which all of them stand, but for what is left out, or those of the draws alone.
/// Where a rule refuses them, the line of its offset is marked, or a line of its own behind its part, and the line that tells the refusal
/// follows. A strict rule is marked if no other refuses the bytes.
pub fn show_answer(alloc: Global, showing: Showing, bytes: &[u8]) -> Result<Answer, NoMemory>
    ensures { IfOk result (IsAnswerTo (Show showing) bytes.now) }
{
    let refusal = refusal_in(alloc, showing.strict, bytes)?;
    let text = shown_text(alloc, showing, bytes, refusal)?;
    Ok(Answer::done(text))
}
