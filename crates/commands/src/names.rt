//! Names of files behind a command's words, and what stands before the answer for each.
ghost use Rattle.std.specs.Prelude.{◌≡◌, ◌≤◌, length, IfOk};
ghost use Rattle.commands.specs.Json.{is_json, name_line, heading_text};
ghost use Rattle.commands.specs.Line.{texts};
ghost use Rattle.commands.specs.Names.{reads_several, takes_several, count_after, name_count};
ghost use Rattle.commands.specs.Words.{task_or_fault};

use super::choice::option_letter;
use super::command::{Command, Task};
use super::json::push_escaped;
use super::verdict::Form;
use super::word_fault::WordFault;
use super::words::{names_file, names_output, task_of};
use std::alloc::{AllocError, Global};

/// Whether the task reads any number of files.
fn reads_several(task: Result<Task, WordFault>) -> bool
    ensures { result ≡ reads_several task }
{
    matches!(
        task,
        Ok(Task::Read(Command::Check { .. } | Command::Verdict { .. }))
    )
}

/// Whether any number of names may stand behind these words: where the output goes to no file.
pub fn takes_several(words: &[String]) -> bool
    ensures { result ≡ takes_several (texts words.now) }
{
    !names_output(words) && reads_several(task_of(words))
}

/// How many of these words stand behind the last one that is meant as an option.
#[tactic(auto, unfolding(crate::specs::Names::count_after))]
fn count_behind(words: &[String]) -> usize
    ensures value { result ≡ count_after 0 words.now }
    ensures within { result ≤ length words.now }
{
    let mut count = 0;
    let mut rest = words;
    while let Some((word, more)) = rest.split_first() {
        count = match option_letter(word.as_bytes()) {
            None => count + 1,
            Some(_) => 0,
        };
        rest = more;
    }
    count
}

/// How many of the last of these words are names of files: those behind the last option where any number of names may stand, and else one
/// at most. It takes no memory.
#[tactic(auto, unfolding(crate::specs::Names::name_count, crate::specs::Names::count_after, crate::specs::Words::task_or_fault))]
pub fn name_count(words: &[String]) -> usize
    ensures value { result ≡ name_count words.now }
    ensures within { result ≤ length words.now }
{
    let Some((_, behind)) = words.split_first() else {
        return 0;
    };
    let count = count_behind(behind);
    if takes_several(&words[..words.len() - count]) {
        return count;
    }
    if names_file(words) { 1 } else { 0 }
}

/// Whether these words ask for a line of JSON.
fn is_json(words: &[String]) -> bool
    ensures { result ≡ is_json (task_or_fault (texts words.now)) }
{
    matches!(
        task_of(words),
        Ok(Task::Read(Command::Verdict {
            form: Form::Json,
            ..
        }))
    )
}

/// A line with the file's name where there are several.
fn name_line(alloc: Global, name: &str, count: usize) -> Result<Vec<u8>, AllocError>
    ensures { IfOk result (λ text. text.items ≡ name_line name.now count) }
{
    let mut text = Vec::new(alloc);
    if count <= 1 {
        return Ok(text);
    }
    push_escaped(alloc, &mut text, name.as_bytes())?;
    text.extend_from_slice(b":\n")?;
    Ok(text)
}

/// What stands before the answer for the file of this name, which is one of so many: the beginning of a JSON object up to its next member
/// where JSON is asked for, and else a line with the name where there are several.
#[tactic(auto, unfolding(crate::specs::Json::heading_text))]
pub fn heading(
    alloc: Global,
    words: &[String],
    name: &str,
    count: usize,
) -> Result<Vec<u8>, AllocError>
    ensures { IfOk result (λ text. text.items
        ≡ heading_text (task_or_fault (texts words.now)) name.now count) }
{
    if !is_json(words) {
        return name_line(alloc, name, count);
    }
    let mut text = Vec::new(alloc);
    text.extend_from_slice(b"{\"file\":\"")?;
    push_escaped(alloc, &mut text, name.as_bytes())?;
    text.extend_from_slice(b"\",")?;
    Ok(text)
}
