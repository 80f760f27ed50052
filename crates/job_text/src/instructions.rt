//! What a line says of an instruction.
ghost use Rattle.std.specs.Prelude.{◌≡◌, ◌++◌, OnOk};
ghost use Rattle.job_text.specs.Notes.{taken_text, description, instruction_text, numbered_text};

use crate::numbers::put_number;
use qpu_asm::put_word;
use qpu_text::put_familiar;
use std::alloc::AllocError;

// Appends the uniform that an instruction takes, where it takes one.
fn put_taken(out: &mut Vec<u8>, uniform: Option<usize>) -> Result<(), AllocError>
    ensures { OnOk result (out.new.items ≡ out.old.items ++ taken_text uniform) }
{
    match uniform {
        None => Ok(()),
        Some(uniform) => {
            out.extend_from_slice(b"; takes uniform ")?;
            put_number(out, uniform)
        }
    }
}

/// Appends an instruction as familiar text, and the uniform that it takes.
#[tactic(auto, unfolding(crate::specs::Notes::description))]
pub(crate) fn put_description(
    out: &mut Vec<u8>,
    word: u64,
    uniform: Option<usize>,
) -> Result<(), AllocError>
    ensures { OnOk result (out.new.items ≡ out.old.items ++ description word uniform) }
{
    put_familiar(out, word)?;
    put_taken(out, uniform)
}

/// Appends an instruction as assembler text and as familiar text, and the uniform that it takes.
#[tactic(auto, unfolding(crate::specs::Notes::instruction_text))]
pub(crate) fn put_instruction(
    out: &mut Vec<u8>,
    word: u64,
    uniform: Option<usize>,
) -> Result<(), AllocError>
    ensures { OnOk result (out.new.items ≡ out.old.items ++ instruction_text word uniform) }
{
    put_word(out, word)?;
    out.extend_from_slice(b" | ")?;
    put_description(out, word, uniform)
}

/// Appends the number of a buffer's instruction.
#[tactic(auto, unfolding(crate::specs::Notes::numbered_text))]
pub(crate) fn put_numbered(out: &mut Vec<u8>, buffer: u32, index: usize) -> Result<(), AllocError>
    ensures { OnOk result (out.new.items ≡ out.old.items ++ numbered_text buffer index) }
{
    out.extend_from_slice(b"buffer ")?;
    put_number(out, buffer as usize)?;
    out.extend_from_slice(b" instruction ")?;
    put_number(out, index)?;
    out.extend_from_slice(b": ")?;
    Ok(())
}
