//! The commands `replay` and `picture --run`.
ghost use Rattle.std.specs.Prelude.{◌≡◌, ◌++◌, Some, IfOk};
ghost use Rattle.commands.specs.{Answer.IsAnswerTo, Cause.IsRefusal, Cause.rule_cause, Verdict.refused_run_text, Verdict.columns, Verdict.heading};
ghost use Rattle.commands.specs.declared.command.Command.TheVariants.{Runs};
ghost use Rattle.seeded_runs.specs.Report.{IsTrialWithin};

use super::answer::Answer;
use super::check::{refused, refused_picture};
use field_words::{NoMemory, Stop};
use job_format::Refusal;
use seeded_runs::{Look, Trial, report_text};
use std::alloc::{AllocError, Global};

/// The answer to these bytes where this rule is the first that is broken.
fn refused_run(
    alloc: Global,
    look: Look,
    bytes: &[u8],
    refusal: Refusal,
) -> Result<Answer, NoMemory>
    ensures { IfOk result (IsRefusal (refused_run_text look bytes.now refusal)
        (rule_cause bytes.now (Some refusal))) }
{
    match look {
        Look::Picture => refused_picture(alloc, bytes, refusal),
        Look::Steps | Look::Accesses | Look::Seeds(_) => refused(alloc, bytes, refusal),
    }
}

/// Names of the columns of what is reported of runs.
#[tactic(auto, unfolding(crate::specs::Verdict::columns))]
fn columns(look: Look) -> &'static str
    ensures { result.now ≡ columns look }
{
    match look {
        Look::Steps => "# UNIT READS WRITES FROM TO [job JOB]\n",
        Look::Accesses => "# STEP UNIT job JOB WAY PLACE BYTES WHERE\n",
        Look::Picture => "",
        Look::Seeds(_) => "# seed SEED ENDING after STEPS\n",
    }
}

/// What is reported of runs, behind names of its columns where they are wanted.
fn with_heading(
    alloc: Global,
    headed: bool,
    look: Look,
    rows: Vec<u8>,
) -> Result<Vec<u8>, AllocError>
    ensures { IfOk result (λ text. text.items ≡ heading headed look ++ rows.items) }
{
    if !headed {
        return Ok(rows);
    }
    let mut text = Vec::from_slice(alloc, columns(look).as_bytes())?;
    text.extend_from_slice(&rows)?;
    Ok(text)
}

/// What `replay` answers to these bytes: the text of runs of the job's machine, behind a line with names of columns where it is wanted; or
/// a refusal. A picture of a run is as `picture` has it.
#[tactic(auto, unfolding(job_check::specs::Whole::refusal_of), using(field_words::proofs::Questions::first_is))]
pub fn replay_answer(
    alloc: Global,
    headed: bool,
    trial: Trial,
    bytes: &[u8],
) -> Result<Answer, NoMemory>
    requires { IsTrialWithin trial }
    ensures { IfOk result (IsAnswerTo (Runs headed trial) bytes.now) }
{
    match report_text(alloc, trial, bytes) {
        Ok(rows) => {
            let text = with_heading(alloc, headed, trial.look, rows)?;
            Ok(Answer::done(text))
        }
        Err(Stop::Fault(refusal)) => refused_run(alloc, trial.look, bytes, refusal),
        Err(Stop::NoMemory) => Err(NoMemory),
    }
}
