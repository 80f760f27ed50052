//! The command `make`.
ghost use Rattle.std.specs.Prelude.{IfOk};
ghost use Rattle.commands.specs.Answer.{IsAnswerTo};
ghost use Rattle.commands.specs.declared.command.Command.TheVariants.{FromText};

use super::answer::Answer;
use super::cause::Cause;
use field_words::{NoMemory, Stop};
use job_make::make;
use std::alloc::Global;

/// What `make` answers to a text: its bytes, or nothing where it has a fault, of which a person learns.
pub fn make_answer(alloc: Global, text: &[u8]) -> Result<Answer, NoMemory>
    ensures { IfOk result (IsAnswerTo FromText text.now) }
{
    match make(alloc, text) {
        Ok(bytes) => Ok(Answer::done(bytes)),
        Err(Stop::Fault(fault)) => {
            let nothing = Vec::new(alloc);
            Ok(Answer::refused(nothing, Some(Cause::Mistake(fault))))
        }
        Err(Stop::NoMemory) => Err(NoMemory),
    }
}
