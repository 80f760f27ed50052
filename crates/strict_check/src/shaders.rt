//! E1 to E7: the shaders of a file, by buffer.
ghost use Rattle.std.specs.Prelude.{◌≡◌, ◌<◌, ◌^◌, length};
ghost use Rattle.field_words.specs.Questions.{GoesOn};
ghost use Rattle.job_format.specs.File.{IsWellFormed};
ghost use Rattle.job_format.specs.Parts.{parts_view};
ghost use Rattle.strict_check.specs.Findings.{all_findings};
ghost use Rattle.strict_check.specs.Stages.{code_refused, code_stage, codes_stage};

use crate::findings::Findings;
use job_check::refusal;
use job_format::{FileParts, Part, Refusal, Stage};
use strict_rules::StrictFault;

/// A strict rule that the shader in buffer `b` breaks.
fn code_refusal(b: usize, fault: &StrictFault) -> Refusal
    requires { b < 2 ^ 32 }
    ensures { result ≡ code_refused b fault.now }
{
    let at = 8 * u64::from(fault.at);
    refusal(Stage::E, fault.rule.number(), Part::Contents, b, at)
}

/// E1 to E7 of the shader in buffer `b`.
#[tactic(auto, using(crate::proofs::Named::code_passes, crate::proofs::Named::code_broken))]
fn code_stage(file: &FileParts, b: usize, findings: &[Findings]) -> Result<(), Refusal>
    requires well_formed { IsWellFormed (parts_view file.now) }
    requires inside { b < length file.now.buffers.items }
    requires many { length findings.now ≡ length file.now.buffers.items }
    ensures { findings.now ≡ all_findings (parts_view file.now)
        → GoesOn (code_stage (parts_view file.now) b) (λ made. Unit {0}) result }
{
    match findings[b].fault {
        Some(fault) => Err(code_refusal(b, &fault)),
        None => Ok(()),
    }
}

/// E1 to E7 of the shaders in all Code buffers, where `findings` has what was found of the shader of each buffer.
pub(crate) fn codes_stage(file: &FileParts, findings: &[Findings]) -> Result<(), Refusal>
    requires well_formed { IsWellFormed (parts_view file.now) }
    requires many { length findings.now ≡ length file.now.buffers.items }
    ensures { findings.now ≡ all_findings (parts_view file.now)
        → GoesOn (codes_stage (parts_view file.now)) (λ made. Unit {0}) result }
{
    for b in 0..file.buffers.len() {
        if let Err(refusal) = code_stage(file, b, findings) {
            return Err(refusal);
        }
    }
    Ok(())
}
