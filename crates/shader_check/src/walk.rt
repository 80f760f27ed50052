//! The walk over a shader: at each instruction all rules, its sample, and what is known past it.
ghost use Rattle.std.specs.Prelude.{◌≡◌, ◌<◌, ◌≤◌, ◌+◌, ◌*◌, length};
ghost use Rattle.field_words.specs.Questions.{each, Answers};
ghost use Rattle.shader_flow.specs.Flow.{checked_of, IsFlow};
ghost use Rattle.uniform_stream.specs.Stream.{IsStream};
ghost use Rattle.shader_check.specs.Info.{samples_of};
ghost use Rattle.shader_check.specs.Rules.{questions_at};

use crate::facts::{here_at, index_fault};
use crate::fault::ShaderFault;
use crate::samples::{count_samples, note};
use clamp_facts::{FactTable, learn};
use field_words::{Steps, Stop};
use qpu_isa::Sample;
use shader_flow::{Flow, checked};
use std::alloc::Global;
use std::sync::ledger::Ledger;
use uniform_stream::Stream;

// The most set-up words that a TMU keeps before the one that sends its request.
const MOST_KEPT: usize = 3;

/// The first fault at a checked instruction; else all samples in program order. At most eight steps an instruction.
#[tactic(auto, unfolding(crate::specs::Info::samples_of))]
pub(crate) fn walk<L: Ledger>(
    alloc: Global,
    code: &[u64],
    flow: &Flow,
    stream: &Stream,
    steps: &mut Steps<L>,
) -> Result<Vec<Sample>, Stop<ShaderFault>>
    requires made { IsFlow code.now flow.now }
    requires counted { IsStream code.now stream.now }
    ensures answers { Answers (each (questions_at code.now) 0 (checked_of code.now))
        (λ v. v.items ≡ samples_of code.now) result }
    ensures steps { steps.new ≤ steps.old + 8 * length code.now }
{
    let last = checked(code, flow.end);
    let mut samples = Vec::with_capacity(alloc, count_samples(code, last))?;
    let mut kept0 = Vec::with_capacity(alloc, MOST_KEPT)?;
    let mut kept1 = Vec::with_capacity(alloc, MOST_KEPT)?;
    let mut table = FactTable::new();
    for at in 0..last {
        let index = at as u32;
        if let Some(number) = index_fault(code, flow, stream, index, &table, steps) {
            return Err(Stop::Fault(ShaderFault { number, index }));
        }
        note(
            &here_at(code, stream, index, &table),
            &mut kept0,
            &mut kept1,
            &mut samples,
            steps,
        )?;
        learn(code, flow, index, stream.counts[at], &mut table, steps);
    }
    Ok(samples)
}
