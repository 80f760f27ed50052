//! The rules of shaders and of jobs in a session: those of the checker of job files.
ghost use Rattle.std.specs.Prelude.{◌≡◌, ◌≤◌, ◌<◌, length, None, IfOk, IfErr, IsOk};
ghost use Rattle.field_words.specs.Sizes.{most_code};
ghost use Rattle.job_session.specs.Checked.{at_instruction, rule_in, file_refusal, shader_refusal};
ghost use Rattle.job_session.specs.Desk.{job_answer, IsRefusal};

use super::denied::{BrokenRule, Denied};
use field_words::{MOST_MEMORY, Stop};
use job_check::{check_places, shader_in};
use job_format::{Refusal, Rule, Stage, offset_of};
use shader_check::ShaderFault;
use std::alloc::Global;

// A rule of shaders that is broken, at the byte of its instruction.
fn shader_fault(fault: &ShaderFault) -> BrokenRule
    ensures { result ≡ at_instruction fault.now }
{
    BrokenRule {
        rule: Rule {
            stage: Stage::S,
            number: fault.number,
        },
        offset: 8 * u128::from(fault.index),
    }
}

// A rule of jobs that is broken, at the offset of its place in the file.
fn rule_in(file: &[u8], refusal: &Refusal) -> BrokenRule
    ensures { result ≡ rule_in file.now refusal.now }
{
    BrokenRule {
        rule: refusal.rule,
        offset: offset_of(file, refusal.place),
    }
}

/// The rules of shaders. No shader is without bytes.
#[tactic(auto, using(crate::proofs::Refusals::passes, crate::proofs::Refusals::breaks, crate::proofs::Refusals::has_bytes))]
pub fn check_shader(alloc: Global, bytes: &[u8]) -> Result<(), Stop<Denied>>
    requires { length bytes.now ≤ most_code }
    ensures passed { IsOk result → shader_refusal bytes.now ≡ None }
    ensures refused { IfErr result (IsRefusal (job_answer (shader_refusal bytes.now))) }
    ensures some { IfOk result (λ _. 0 < length bytes.now) }
{
    match shader_in(alloc, bytes) {
        Ok(_) => Ok(()),
        Err(stop) => Err(stop.map_fault(|fault| Denied::Job(shader_fault(&fault)))),
    }
}

/// All rules of a file: the first that is broken, or none.
#[tactic(auto, unfolding(job_check::specs::Whole::refusal_of, crate::specs::Checked::file_refusal))]
pub fn check_file(alloc: Global, file: &[u8]) -> Result<(), Stop<Denied>>
    ensures accepted { IfOk result (λ done. job_answer (file_refusal file.now) ≡ Ok done) }
    ensures refused { IfErr result (IsRefusal (job_answer (file_refusal file.now))) }
{
    match check_places(alloc, MOST_MEMORY, file) {
        Ok(_) => Ok(()),
        Err(stop) => Err(stop.map_fault(|refusal| Denied::Job(rule_in(file, &refusal)))),
    }
}
