//! The command `bound`.
ghost use Rattle.std.specs.Prelude.{IfOk};
ghost use Rattle.commands.specs.Answer.{IsAnswerTo};
ghost use Rattle.commands.specs.declared.command.Command.TheVariants.{Bound};

use super::answer::Answer;
use super::check::refused;
use field_words::{NoMemory, Stop};
use job_bound::bound_text;
use std::alloc::Global;

/// What `bound` answers to these bytes: how many steps the jobs of an accepted file take at most and whether they may wait for a request
/// that isn't there, or a refusal.
#[tactic(auto, unfolding(job_check::specs::Whole::refusal_of), using(field_words::proofs::Questions::first_is))]
pub fn bound_answer(alloc: Global, bytes: &[u8]) -> Result<Answer, NoMemory>
    ensures { IfOk result (IsAnswerTo Bound bytes.now) }
{
    match bound_text(alloc, bytes) {
        Ok(text) => Ok(Answer::done(text)),
        Err(Stop::Fault(refusal)) => refused(alloc, bytes, refusal),
        Err(Stop::NoMemory) => Err(NoMemory),
    }
}
