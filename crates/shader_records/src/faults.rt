//! The rules of all states.
ghost use Rattle.std.specs.Prelude.{◌≡◌, ◌+◌, ◌<◌, ◌≤◌, length, IfOk};
ghost use Rattle.field_words.specs.Questions.{GoesOn, first_of, each};
ghost use Rattle.shader_records.specs.Inputs.{Fits};
ghost use Rattle.shader_records.specs.Sources.{state_at, source_size, record_source, uniform_source, taken_before, IsEnd};
ghost use Rattle.shader_records.specs.Rules.{shader_questions, state_questions, all_questions};

use crate::fault::RecordFault;
use crate::inputs::Inputs;
use crate::record_rules::{Source, record_fault};
use crate::sizes::source_size;
use crate::uniform_rules::use_fault;

/// The first rule that the uniforms of a record's shaders break, which begin at `from`, or else where
/// they end.
#[tactic(auto, unfolding(crate::specs::Rules::shader_questions), using(field_words::proofs::Questions::each_on, field_words::proofs::Questions::each_stop, field_words::proofs::Questions::each_end, crate::proofs::Steps::taken_zero, crate::proofs::Steps::taken_next))]
fn uses_fault(inputs: &Inputs, at: usize, from: usize) -> Result<usize, RecordFault>
    requires fits { Fits inputs.now }
    requires inside { at + 12 ≤ length inputs.now.records }
    requires from { from ≤ length inputs.now.uniforms }
    ensures { GoesOn (each (shader_questions inputs.now at from) 0 3)
        (IsEnd inputs.now (from + taken_before inputs.now at 3)) result }
{
    let mut here = from;
    for s in 0..3usize {
        match use_fault(inputs, at, s, here) {
            Ok(end) => here = end,
            Err(fault) => return Err(fault),
        }
    }
    Ok(here)
}

/// The source of state `k`'s record.
pub(crate) fn source_of(inputs: &Inputs, k: usize, at: usize) -> Source
    requires inside { k < length inputs.now.states }
    ensures { result ≡ record {
      at = at;
      state = (state_at inputs.now k).word;
      max_index
          = (state_at inputs.now k).max_index;
    } }
{
    let state = inputs.state(k);
    Source {
        at,
        state: state.word,
        max_index: state.max_index,
    }
}

/// The first rule that state `k` breaks, or else where its uniforms end.
#[tactic(auto, unfolding(crate::specs::Rules::state_questions, crate::specs::Sources::source_size, crate::specs::Sources::handles_size), using(field_words::proofs::Questions::passes, field_words::proofs::Questions::stops, crate::proofs::Steps::uniforms_next))]
fn state_fault(inputs: &Inputs, k: usize, at: usize, from: usize) -> Result<usize, RecordFault>
    requires fits { Fits inputs.now }
    requires inside { k < length inputs.now.states }
    requires record { at ≡ record_source inputs.now k }
    requires uniforms { from ≡ uniform_source inputs.now k }
    requires room_records { at ≤ length inputs.now.records }
    requires room { from ≤ length inputs.now.uniforms }
    ensures uniforms { GoesOn (state_questions inputs.now k)
        (IsEnd inputs.now (uniform_source inputs.now (k + 1))) result }
    ensures record { IfOk result (λ _. at + source_size (state_at inputs.now k).word
        ≤ length inputs.now.records) }
{
    match record_fault(inputs, source_of(inputs, k, at)) {
        Some(fault) => Err(fault),
        None => uses_fault(inputs, at, from),
    }
}

/// The first broken rule, state by state.
#[tactic(auto, unfolding(crate::specs::Rules::all_questions), using(field_words::proofs::Questions::each_on, field_words::proofs::Questions::each_stop, field_words::proofs::Questions::each_end, crate::proofs::Steps::record_zero, crate::proofs::Steps::uniforms_zero, crate::proofs::Steps::record_next))]
pub(crate) fn first_fault(inputs: &Inputs) -> Option<RecordFault>
    requires fits { Fits inputs.now }
    ensures { result ≡ first_of (all_questions inputs.now) }
{
    let mut at = 0;
    let mut from = 0;
    for k in 0..inputs.count() {
        match state_fault(inputs, k, at, from) {
            Ok(end) => from = end,
            Err(fault) => return Some(fault),
        }
        at += source_size(inputs.state(k).word);
    }
    None
}
