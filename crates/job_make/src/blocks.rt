//! The lines between `asm` and `end`: assembler text.
ghost use Rattle.std.specs.Prelude.{◌≡◌, ◌≤◌, ◌<◌, ◌^◌, ◌-◌, ◌++◌, Ok, Err, length, IfOk, IfErr};
ghost use Rattle.std.specs.List.{flat_map};
ghost use Rattle.std.specs.Int.{to_le_bytes, w64};
ghost use Rattle.script.specs.Lines.{lines_of};
ghost use Rattle.job_make.specs.Made.{with_spaces, asm_line, both, block_text, words_made, bytes_assembled, block_read, IsFaultOf};

use crate::fault::{MakeFault, Mistake};
use crate::words::{is_blank, says};
use field_words::Stop;
use qpu_asm::{AsmFault, assemble, fault_place};
use script::{cut_at, next_line};
use std::alloc::{AllocError, Global};

#[tactic(auto, unfolding(crate::specs::Made::with_spaces))]
fn spaced(character: u8) -> u8
    ensures { result ≡ with_spaces character }
{
    if is_blank(character) {
        return b' ';
    }
    character
}

// Appends a line as the assembler reads it: without its note, each blank a space.
#[tactic(auto, unfolding(crate::specs::Made::asm_line))]
fn put_asm_line(out: &mut Vec<u8>, line: &[u8]) -> Result<(), AllocError>
    ensures { IfOk result (λ _. out.new.items ≡ out.old.items ++ asm_line line.now) }
{
    let front = cut_at(line, b'#').first;
    for character in front {
        out.push(spaced(*character))?;
    }
    out.push(b'\n')?;
    Ok(())
}

// The assembler text on lines up to one that says `end`. The `asm` before them is on the line of this number.
fn block_text(alloc: Global, line: usize, lines: &[u8]) -> Result<Vec<u8>, Stop<MakeFault>>
    ensures text { IfOk result (λ text. block_text line (lines_of lines.now) ≡ Ok text.items) }
    ensures fault { IfErr result (IsFaultOf (block_text line (lines_of lines.now))) }
{
    let mut text = Vec::new(alloc);
    let mut rest = lines;
    while !rest.is_empty() {
        let cut = next_line(rest);
        if says(b"end", cut.first) {
            return Ok(text);
        }
        put_asm_line(&mut text, cut.first)?;
        rest = cut.rest;
    }
    Err(Stop::Fault(MakeFault::new(line, 1, Mistake::NoEnd)))
}

// Appends instruction words, of each the lowest byte first.
fn put_words(out: &mut Vec<u8>, words: &[u64]) -> Result<(), AllocError>
    ensures { IfOk result (λ _. out.new.items ≡ out.old.items
        ++ flat_map (to_le_bytes w64) words.now) }
{
    for word in words {
        out.extend_from_slice(&word.to_le_bytes())?;
    }
    Ok(())
}

// The assembler's fault in the text between `asm`, on the line of this number, and `end`.
fn fault_in(
    alloc: Global,
    line: usize,
    text: &[u8],
    fault: AsmFault,
) -> Result<MakeFault, AllocError>
    requires small { length text.now < 2 ^ 32 - 1 }
    requires line { line ≤ 2 ^ 63 }
    ensures { IfOk result (λ placed. words_made line text.now (Err fault) ≡ Err placed) }
{
    let place = fault_place(alloc, text, fault)?;
    Ok(MakeFault {
        line: line + fault.line as usize,
        column: place.column as usize,
        mistake: Mistake::Assembler(fault.kind),
    })
}

// Appends the bytes that assembler text gives.
#[tactic(auto, unfolding(crate::specs::Made::bytes_assembled))]
fn put_assembled(
    alloc: Global,
    out: &mut Vec<u8>,
    line: usize,
    text: &[u8],
) -> Result<(), Stop<MakeFault>>
    requires { line ≤ 2 ^ 63 }
    ensures bytes { IfOk result (λ _. both (Ok out.old.items) (bytes_assembled line text.now)
        ≡ Ok out.new.items) }
    ensures fault { IfErr result (IsFaultOf (bytes_assembled line text.now)) }
{
    if text.len() >= 4_294_967_295 {
        return Err(Stop::Fault(MakeFault::new(line, 1, Mistake::LongBlock)));
    }
    match assemble(alloc, text) {
        Ok(words) => {
            put_words(out, &words)?;
            Ok(())
        }
        Err(Stop::Fault(fault)) => {
            let placed = fault_in(alloc, line, text, fault)?;
            Err(Stop::Fault(placed))
        }
        Err(Stop::NoMemory) => Err(Stop::NoMemory),
    }
}

/// Appends the bytes of the assembler text that these lines begin with, behind an `asm` on the line of this number.
#[tactic(auto, unfolding(crate::specs::Made::block_read))]
pub(crate) fn put_block(
    alloc: Global,
    out: &mut Vec<u8>,
    line: usize,
    lines: &[u8],
) -> Result<(), Stop<MakeFault>>
    requires { line ≤ 2 ^ 63 }
    ensures bytes { IfOk result (λ _. both (Ok out.old.items) (block_read line (lines_of lines.now))
        ≡ Ok out.new.items) }
    ensures fault { IfErr result (IsFaultOf (block_read line (lines_of lines.now))) }
{
    match block_text(alloc, line, lines) {
        Ok(text) => put_assembled(alloc, out, line, &text),
        Err(stop) => Err(stop),
    }
}
