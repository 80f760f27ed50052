//! The command `disasm`.
ghost use Rattle.std.specs.Prelude.{◌≡◌, ◌≤◌, length, Some, IfOk};
ghost use Rattle.field_words.specs.Sizes.{most_list};
ghost use Rattle.commands.specs.declared.cause.Cause.TheVariants.{Part};
ghost use Rattle.commands.specs.declared.command.Command.TheVariants.{Disasm};
ghost use Rattle.commands.specs.{Answer.IsAnswerTo, Cause.IsRefusal, Shader.words_text, Shader.length_text};

use super::answer::Answer;
use super::cause::Cause;
use field_words::NoMemory;
use job_check::words_of;
use job_text::disassemble_noted;
use qpu_asm::disassemble;
use std::alloc::Global;

/// The answer to so many bytes, which are no whole words.
#[tactic(auto, unfolding(crate::specs::Shader::length_text))]
fn part_refused(alloc: Global, length: usize) -> Result<Answer, NoMemory>
    ensures { IfOk result (IsRefusal (length_text length) (Some (Part length))) }
{
    let text = format!(in alloc; "length {length}\n")?.into_bytes();
    Ok(Answer::refused(text, Some(Cause::Part(length as u64))))
}

/// The text of words, where notes are wanted with one above each line.
fn words_text(alloc: Global, notes: bool, words: &[u64]) -> Result<Vec<u8>, NoMemory>
    ensures { IfOk result (λ text. text.items ≡ words_text notes words.now) }
{
    if notes {
        return disassemble_noted(alloc, words);
    }
    disassemble(alloc, words)
}

/// What `disasm` answers to bytes: the text of their words, or their length where it is no multiple of 8.
pub fn disasm_answer(alloc: Global, notes: bool, bytes: &[u8]) -> Result<Answer, NoMemory>
    requires { length bytes.now ≤ most_list }
    ensures { IfOk result (IsAnswerTo (Disasm notes) bytes.now) }
{
    if bytes.len() % 8 != 0 {
        return part_refused(alloc, bytes.len());
    }
    let words = words_of(alloc, bytes)?;
    Ok(Answer::done(words_text(alloc, notes, &words)?))
}
