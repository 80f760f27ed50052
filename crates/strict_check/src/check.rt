//! The strict check of a file.
ghost use Rattle.std.specs.Prelude.{◌≡◌, ◌<◌, length};
ghost use Rattle.field_words.specs.Questions.{Answers, GoesOn};
ghost use Rattle.job_format.specs.File.{IsWellFormed};
ghost use Rattle.job_format.specs.Parts.{parts_view};
ghost use Rattle.strict_check.specs.Findings.{all_findings};
ghost use Rattle.strict_check.specs.Stages.{job_stages, strict_stages};

use crate::findings::{Findings, all_findings};
use crate::lists::list_stage;
use crate::records::records_stage;
use crate::shaders::codes_stage;
use field_words::Stop;
use job_format::{FileParts, Refusal};
use std::alloc::Global;

/// The strict rules of the job of this number, where `findings` has what was found of the shader of each buffer.
#[tactic(auto, unfolding(crate::specs::Stages::job_stages), using(field_words::proofs::Questions::passes, field_words::proofs::Questions::stops))]
fn job_fault(file: &FileParts, number: usize, findings: &[Findings]) -> Result<(), Refusal>
    requires well_formed { IsWellFormed (parts_view file.now) }
    requires inside { number < length file.now.jobs.items }
    ensures { findings.now ≡ all_findings (parts_view file.now)
        → GoesOn (job_stages (parts_view file.now) number) (λ made. Unit {0}) result }
{
    list_stage(file, number)?;
    records_stage(file, number, findings)
}

/// Asks the strict rules of a file of whose shaders this was found, one entry for each buffer: of all shaders by buffer (E1 to E7), and then
/// job by job of its binner list (E9, E10, E13) and of its shader records (E8, E11). They are meant for a file that breaks no other rule; the
/// answer holds of any. `Ok` comes exactly where none of them is broken. Where `findings` are others, the answer may be wrong.
///
/// # Errors
/// The first rule that is broken, in this order, with its place in the file.
pub fn check_strict_findings(file: &FileParts, findings: &[Findings]) -> Result<(), Refusal>
    requires well_formed { IsWellFormed (parts_view file.now) }
    requires many { length findings.now ≡ length file.now.buffers.items }
    ensures { findings.now ≡ all_findings (parts_view file.now)
        → GoesOn (strict_stages (parts_view file.now)) (λ made. Unit {0}) result }
{
    codes_stage(file, findings)?;
    for number in 0..file.jobs.len() {
        if let Err(refusal) = job_fault(file, number, findings) {
            return Err(refusal);
        }
    }
    Ok(())
}

/// The strict rules of a file whose shaders are looked at first.
///
/// # Errors
/// The first rule that is broken, in this order, with its place in the file; or want of memory.
pub fn check_strict_parts(alloc: Global, file: &FileParts) -> Result<(), Stop<Refusal>>
    requires { IsWellFormed (parts_view file.now) }
    ensures { Answers (strict_stages (parts_view file.now)) (λ made. Unit {0}) result }
{
    let findings = all_findings(alloc, file)?;
    match check_strict_findings(file, &findings) {
        Ok(()) => Ok(()),
        Err(refusal) => Err(Stop::Fault(refusal)),
    }
}
