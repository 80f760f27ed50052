//! A text as words.
ghost use Rattle.std.specs.Prelude.{◌≡◌, ◌<◌, ◌≤◌, ◌+◌, ◌^◌, Ok, length, IfOk, IfErr, vec_len};
ghost use Rattle.field_words.specs.declared.stop.Stop.TheVariants.{Fault};
ghost use Rattle.qpu_asm.specs.Labels.{is_before};
ghost use Rattle.qpu_asm.specs.Faults.{fault_on as fault_by, text_faults, AnswersLeast};
ghost use Rattle.qpu_asm.specs.Assembly.{Assembled, IsFaultOf};
ghost use Rattle.qpu_asm.specs.Walk.{line_words};
ghost use Rattle.qpu_asm.specs.Seen.{line_seen, spots_in};

use crate::fault::{AsmFault, Mistake};
use crate::item::read_code;
use crate::label::{Labels, find_labels, find_spot};
use crate::lines::{Line, read_line};
use field_words::Stop;
use script::next_line;
use std::alloc::Global;

/// Assembles a text of lines into the words of its instructions. The fault is the least of all that the text has, by line and
/// then by kind. A label may stand before or after its use, so all labels are found first.
pub fn assemble(alloc: Global, text: &[u8]) -> Result<Vec<u64>, Stop<AsmFault>>
    requires { length text.now < 2 ^ 32 }
    ensures words { IfOk result (λ words. Assembled text.now ≡ Ok words.items) }
    ensures fault { IfErr result (IsFaultOf (Assembled text.now)) }
    ensures least { AnswersLeast (text_faults text.now) result }
{
    let labels = find_labels(alloc, text)?;
    let mut words = Vec::new(alloc);
    let mut rest = text;
    let mut line: u64 = 1;
    while !rest.is_empty() {
        let cut = next_line(rest);
        put_line(&mut words, &labels, read_line(cut.first), line as u32)?;
        rest = cut.rest;
        line += 1;
    }
    Ok(words)
}

// Puts the word of an instruction's line to those of the lines above it. A label is a fault where it stands on an earlier line.
#[tactic(auto, unfolding(crate::specs::Walk::line_words))]
fn put_line<'a>(
    words: &mut Vec<u64>,
    labels: &Labels<'a>,
    line: Line<'a>,
    number: u32,
) -> Result<(), Stop<AsmFault>>
    requires { vec_len words.old < 2 ^ 32 }
    ensures words { IfOk result (λ _. line_words (spots_in labels.now) number words.old.items
        (line_seen line.entry) ≡ Ok words.new.items) }
    ensures fault { IfErr result (IsFaultOf (line_words (spots_in labels.now) number words.old.items
        (line_seen line.entry))) }
    ensures more { IfOk result (λ _. vec_len words.new ≤ vec_len words.old + 1) }
{
    match line {
        Line::Blank => Ok(()),
        Line::Label(name) => {
            if stands_before(labels, name, number) {
                return Err(fault_on(number, Mistake::LabelTwice));
            }
            Ok(())
        }
        Line::BadLabel => Err(fault_on(number, Mistake::UnknownWord)),
        Line::Coded(code) => match read_code(labels, words.len() as u32, code) {
            Ok(word) => {
                words.push(word)?;
                Ok(())
            }
            Err(mistake) => Err(fault_on(number, mistake)),
        },
    }
}

fn fault_on(line: u32, mistake: Mistake) -> Stop<AsmFault>
    ensures { result ≡ Fault (fault_by line mistake) }
{
    Stop::Fault(AsmFault {
        line,
        kind: mistake.number(),
    })
}

fn stands_before<'a>(labels: &Labels<'a>, name: &'a [u8], line: u32) -> bool
    ensures { result ≡ is_before line ((spots_in labels.now) name.now) }
{
    match find_spot(labels, name) {
        Some(spot) => spot.line < line,
        None => false,
    }
}
