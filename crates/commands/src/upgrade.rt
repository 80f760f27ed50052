//! The command `upgrade`.
ghost use Rattle.std.specs.Prelude.{◌≡◌, IfOk, IsOk};
ghost use Rattle.field_words.specs.Questions.{Answers};
ghost use Rattle.job_format.specs.File.{IsFileOf, file_upgraded};
ghost use Rattle.job_format.specs.Reading.{file_at};
ghost use Rattle.job_format.specs.Text.{file_text};
ghost use Rattle.commands.specs.{Answer.IsAnswerTo, Upgrade.format_rules};
ghost use Rattle.commands.specs.declared.command.Command.TheVariants.{Upgrade};

use super::answer::Answer;
use super::check::refused;
use field_words::{NoMemory, Stop};
use job_check::format_refusal;
use job_format::{Refusal, read_job, upgrade_file, write_job};
use std::alloc::Global;

// The text of the file as version 2.
fn upgraded(alloc: Global, bytes: &[u8]) -> Result<Vec<u8>, Stop<Refusal>>
    ensures answers { Answers (format_rules bytes.now)
        (λ text. text.items ≡ file_text (file_upgraded (file_at bytes.now))) result }
    ensures spelled { IsOk result → IsFileOf bytes.now (file_at bytes.now) }
{
    match read_job(alloc, bytes) {
        Ok(file) => Ok(write_job(alloc, &upgrade_file(file))?),
        Err(stop) => Err(format_refusal(stop)),
    }
}

/// What `upgrade` answers to these bytes: the same file as version 2, or the first broken rule of the format.
#[tactic(auto, using(field_words::proofs::Questions::first_is))]
pub fn upgrade_answer(alloc: Global, bytes: &[u8]) -> Result<Answer, NoMemory>
    ensures { IfOk result (IsAnswerTo Upgrade bytes.now) }
{
    match upgraded(alloc, bytes) {
        Ok(text) => Ok(Answer::done(text)),
        Err(Stop::Fault(refusal)) => refused(alloc, bytes, refusal),
        Err(Stop::NoMemory) => Err(NoMemory),
    }
}
