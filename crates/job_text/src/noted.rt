//! Shader text with notes.
ghost use Rattle.std.specs.Prelude.{◌≡◌, ◌++◌, IfOk, OnOk};
ghost use Rattle.job_text.specs.Noted.{noted_line, noted_text};

use crate::code::{Taking, next, uniform_of};
use crate::instructions::put_description;
use crate::numbers::put_number;
use field_words::NoMemory;
use qpu_asm::put_word;
use std::alloc::{AllocError, Global};

// Appends the line of an instruction of a number, and above it its note.
#[tactic(auto, unfolding(crate::specs::Noted::noted_line, qpu_asm::specs::Printed::line_text))]
fn put_noted(
    out: &mut Vec<u8>,
    index: usize,
    word: u64,
    uniform: Option<usize>,
) -> Result<(), AllocError>
    ensures { OnOk result (out.new.items ≡ out.old.items ++ noted_line index word uniform) }
{
    out.extend_from_slice(b"# ")?;
    put_number(out, index)?;
    out.extend_from_slice(b": ")?;
    put_description(out, word, uniform)?;
    out.extend_from_slice(b"\n")?;
    put_word(out, word)?;
    out.extend_from_slice(b"\n")
}

/// Writes the words of a shader as a text that assembles to them, with a note above each instruction: its number from 0, its familiar
/// text, and the uniform that it takes.
///
/// # Errors
/// Want of memory is the only one.
pub fn disassemble_noted(alloc: Global, words: &[u64]) -> Result<Vec<u8>, NoMemory>
    ensures { IfOk result (λ text. text.items ≡ noted_text words.now) }
{
    let mut text = Vec::new(alloc);
    let mut now = Taking::default();
    for (index, word) in words.iter().enumerate() {
        put_noted(&mut text, index, *word, uniform_of(now, *word))?;
        now = next(now, *word);
    }
    Ok(text)
}
