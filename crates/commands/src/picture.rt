//! The command `picture`.
ghost use Rattle.std.specs.Prelude.{IfOk};
ghost use Rattle.commands.specs.Answer.{IsAnswerTo};
ghost use Rattle.commands.specs.declared.command.Command.TheVariants.{Drawn};

use super::answer::Answer;
use super::check::{accept, refused_picture};
use field_words::{NoMemory, Stop};
use pictures::memory_picture;
use std::alloc::Global;

/// What `picture` answers to these bytes: the picture of an accepted file's memory, or nothing.
#[tactic(auto, unfolding(job_check::specs::Whole::refusal_of), using(field_words::proofs::Questions::first_is))]
pub fn picture_answer(alloc: Global, bytes: &[u8]) -> Result<Answer, NoMemory>
    ensures { IfOk result (IsAnswerTo Drawn bytes.now) }
{
    match accept(alloc, bytes) {
        Ok(accepted) => {
            let text = memory_picture(alloc, &accepted.file)?;
            Ok(Answer::done(text))
        }
        Err(Stop::Fault(refusal)) => refused_picture(alloc, bytes, refusal),
        Err(Stop::NoMemory) => Err(NoMemory),
    }
}
