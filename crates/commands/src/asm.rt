//! The command `asm`.
ghost use Rattle.std.specs.Prelude.{◌≡◌, ◌≤◌, length, Some, IfOk};
ghost use Rattle.field_words.specs.Sizes.{most_list};
ghost use Rattle.qpu_asm.specs.Place.{fault_place};
ghost use Rattle.commands.specs.declared.cause.Cause.TheVariants.{Kind};
ghost use Rattle.commands.specs.declared.command.Command.TheVariants.{Asm};
ghost use Rattle.commands.specs.{Answer.IsAnswerTo, Cause.IsRefusal, Shader.fault_text, Shader.bytes_of};

use super::answer::Answer;
use super::cause::Cause;
use byteorder::{ByteOrder, LittleEndian};
use field_words::{NoMemory, Stop};
use qpu_asm::{AsmFault, assemble, fault_place};
use std::alloc::{AllocError, Global};

/// The answer to a text whose first fault this is.
#[tactic(auto, unfolding(crate::specs::Shader::fault_text))]
pub(crate) fn text_refused(alloc: Global, text: &[u8], fault: AsmFault) -> Result<Answer, NoMemory>
    requires { length text.now ≤ most_list }
    ensures { IfOk result (IsRefusal (fault_text fault)
        (Some (Kind fault (fault_place text.now fault)))) }
{
    let AsmFault { line, kind } = fault;
    let out = format!(in alloc; "line {line} fault {kind}\n")?.into_bytes();
    let place = fault_place(alloc, text, fault)?;
    Ok(Answer::refused(out, Some(Cause::Kind(fault, place))))
}

// The bytes of words, 8 each, the lowest first.
#[tactic(auto, unfolding(crate::specs::Shader::bytes_of))]
fn bytes_of(alloc: Global, words: &[u64]) -> Result<Vec<u8>, AllocError>
    ensures { IfOk result (λ bytes. bytes.items ≡ bytes_of words.now) }
{
    let mut bytes = vec![in alloc; 0u8; 8 * words.len()]?;
    LittleEndian::write_u64_into(words, &mut bytes);
    Ok(bytes)
}

/// What `asm` answers to a text: the words of its instructions, or its first fault.
pub fn asm_answer(alloc: Global, text: &[u8]) -> Result<Answer, NoMemory>
    requires { length text.now ≤ most_list }
    ensures { IfOk result (IsAnswerTo Asm text.now) }
{
    match assemble(alloc, text) {
        Ok(words) => Ok(Answer::done(bytes_of(alloc, &words)?)),
        Err(Stop::Fault(fault)) => text_refused(alloc, text, fault),
        Err(Stop::NoMemory) => Err(NoMemory),
    }
}
