//! The commands `check --quiet` and `check --json`.
ghost use Rattle.std.specs.Prelude.{◌≡◌, ◌++◌, IfOk, OnOk};
ghost use Rattle.commands.specs.{Answer.IsAnswerTo, Json.refused_head, Json.facts_member, Json.refused_members, Json.verdict_text};
ghost use Rattle.commands.specs.declared.command.Command.TheVariants.{Verdict};

use super::answer::Answer;
use super::check::refusal_in;
use super::json::push_escaped;
use field_words::NoMemory;
use job_format::{Refusal, offset_of};
use refusal_facts::{Inside, facts_of};
use rule_words::{RuleName, Spot};
use std::alloc::{AllocError, Global};

/// How the verdict on a file is reported where the memory of an accepted one isn't wanted.
#[derive(Clone, Copy, Debug, PartialEq, Eq)]
pub enum Form {
    /// By its status alone.
    Quiet,
    /// By a line of JSON.
    Json,
}

/// The members of a refusal of these bytes behind the file's name, up to the sentence.
#[tactic(auto, unfolding(crate::specs::Json::refused_head))]
fn refused_head(alloc: Global, bytes: &[u8], refusal: Refusal) -> Result<Vec<u8>, AllocError>
    ensures { IfOk result (λ text. text.items ≡ refused_head bytes.now refusal) }
{
    let rule = refusal.rule;
    let place = Spot { refusal };
    let offset = offset_of(bytes, refusal.place);
    Ok(format!(in alloc;
        "\"verdict\":\"refused\",\"rule\":\"{rule}\",\"place\":\"{place}\",\"offset\":{offset},\"sentence\":\""
    )?.into_bytes())
}

/// Appends the member of what the file says at a refusal's place, up to its last quote, where it says anything.
#[tactic(auto, unfolding(crate::specs::Json::facts_member))]
fn push_facts(alloc: Global, text: &mut Vec<u8>, facts: &[u8]) -> Result<(), AllocError>
    ensures { OnOk result (text.new.items ≡ text.old.items ++ facts_member facts.now) }
{
    if facts.is_empty() {
        return Ok(());
    }
    text.extend_from_slice(b"\",\"facts\":\"")?;
    push_escaped(alloc, text, facts)
}

/// The members of a refusal of these bytes behind the file's name.
fn refused_members(alloc: Global, bytes: &[u8], refusal: Refusal) -> Result<Vec<u8>, NoMemory>
    ensures { IfOk result (λ text. text.items ≡ refused_members bytes.now refusal) }
{
    let mut text = refused_head(alloc, bytes, refusal)?;
    let sentence = RuleName::of_rule(refusal.rule).sentence();
    push_escaped(alloc, &mut text, sentence.as_bytes())?;
    let facts = facts_of(alloc, bytes, refusal)?;
    let inside = format!(in alloc; "{}", Inside { facts })?;
    push_facts(alloc, &mut text, inside.as_bytes())?;
    text.extend_from_slice(b"\"}\n")?;
    Ok(text)
}

/// The verdict as text.
fn verdict_text(
    alloc: Global,
    form: Form,
    bytes: &[u8],
    refusal: Option<Refusal>,
) -> Result<Vec<u8>, NoMemory>
    ensures { IfOk result (λ text. text.items ≡ verdict_text form bytes.now refusal) }
{
    match (form, refusal) {
        (Form::Quiet, _) => Ok(Vec::new(alloc)),
        (Form::Json, None) => Ok(Vec::from_slice(alloc, b"\"verdict\":\"accepted\"}\n")?),
        (Form::Json, Some(refusal)) => refused_members(alloc, bytes, refusal),
    }
}

/// What `check --quiet` and `check --json` answer to these bytes: nothing, or the members of a line of JSON behind the file's name.
pub fn verdict_answer(
    alloc: Global,
    strict: bool,
    form: Form,
    bytes: &[u8],
) -> Result<Answer, NoMemory>
    ensures { IfOk result (IsAnswerTo (Verdict strict form) bytes.now) }
{
    let refusal = refusal_in(alloc, strict, bytes)?;
    let text = verdict_text(alloc, form, bytes, refusal)?;
    match refusal {
        None => Ok(Answer::done(text)),
        Some(_) => Ok(Answer::refused(text, None)),
    }
}
