//! E9, E10 and E13: the binner list of a job.
ghost use Rattle.std.specs.Prelude.{◌<◌, length};
ghost use Rattle.field_words.specs.Questions.{GoesOn};
ghost use Rattle.job_format.specs.File.{IsWellFormed};
ghost use Rattle.job_format.specs.Parts.{parts_view};
ghost use Rattle.strict_check.specs.Stages.{list_stage};

use job_check::{job_at, refusal};
use job_format::{FileParts, Part, Refusal, Stage};
use strict_lists::check_list;

/// E9, E10 and E13 of the job of this number.
#[tactic(auto, unfolding(crate::specs::Stages::list_stage), using(field_words::proofs::Questions::answered_none, field_words::proofs::Questions::answered_some))]
pub(crate) fn list_stage(file: &FileParts, number: usize) -> Result<(), Refusal>
    requires well_formed { IsWellFormed (parts_view file.now) }
    requires inside { number < length file.now.jobs.items }
    ensures { GoesOn (list_stage (parts_view file.now) number) (λ made. Unit {0}) result }
{
    match check_list(job_at(file, number).bin) {
        Ok(()) => Ok(()),
        Err(fault) => {
            let (rule, at) = (fault.rule.number(), u64::from(fault.at));
            Err(refusal(Stage::E, rule, Part::BinnerList, number, at))
        }
    }
}
