//! The samples of a shader: which uniforms each of its requests to a texture unit takes.
ghost use Rattle.std.specs.Prelude.{◌≡◌, ◌<◌, ◌≤◌, ◌+◌, ◌++◌, ◌∷◌, [], false, true, map, length, slice_get, OnOk};
ghost use Rattle.std.specs.Option.{option_to_list};
ghost use Rattle.shader_flow.specs.Flow.{word, checked_of};
ghost use Rattle.shader_flow.specs.Pending.{count_of, pending_of};
ghost use Rattle.shader_check.specs.Info.{held_words, asked_words, samples_before, asks, sample_tmu, is_direct_sample, clamp_parts, sample_of};

use crate::facts::Here;
use clamp_facts::Known;
use field_words::{NoMemory, Steps};
use qpu_isa::Sample;
use qpu_isa::operands::first_register;
use qpu_isa::writes::{is_direct, writes_s, writes_tmu};
use std::sync::ledger::Ledger;
use uniform_stream::writes_registers;

// The uniforms that are taken before the instruction.
fn count(known: &Known) -> u32
    ensures { result ≡ count_of known.now.code known.now.at }
{
    known.count
}

// What a TMU keeps after the checked instruction: nothing where it sends, and one uniform more where it is written.
fn keep(known: &Known, tmu: u8, kept: &mut Vec<u32>) -> Result<(), NoMemory>
    requires checked { known.now.at < checked_of known.now.code }
    requires number { tmu < 2 }
    requires before { kept.old.items ≡ held_words known.now.code tmu known.now.at }
    ensures { OnOk result (kept.new.items ≡ held_words known.now.code tmu (known.now.at + 1)) }
{
    if writes_s(known.word(), tmu) {
        kept.clear();
        return Ok(());
    }
    if writes_tmu(known.word(), tmu) {
        kept.push(count(known))?;
    }
    Ok(())
}

// Number `k` of these numbers and then `last`.
fn number(numbers: &[u32], last: u32, k: usize) -> Option<u32>
    ensures { result ≡ slice_get (numbers.now ++ (last ∷ [])) k }
{
    if k < numbers.len() {
        return Some(numbers[k]);
    }
    if k == numbers.len() {
        return Some(last);
    }
    None
}

// The uniform that clamps a direct sample's address.
fn bound<L: Ledger>(known: &Known, steps: &mut Steps<L>) -> Option<u32>
    ensures value { option_to_list result
        ≡ map (count_of known.now.code) (clamp_parts known.now.code known.now.at) }
    ensures steps { steps.new ≤ steps.old + 1 }
{
    match first_register(known.word()) {
        Some(reg) => known.look(reg, steps).bound(),
        None => None,
    }
}

// The direct sample that the instruction asks for.
fn direct_sample<L: Ledger>(known: &Known, steps: &mut Steps<L>) -> Sample
    requires direct { is_direct_sample known.now.code known.now.at ≡ true }
    ensures value { result ≡ sample_of known.now.code known.now.at }
    ensures steps { steps.new ≤ steps.old + 1 }
{
    let second = bound(known, steps);
    Sample {
        p: [Some(count(known)), second, None, None],
        direct: true,
    }
}

// The sample by setup words that the instruction asks for.
fn setup_sample(known: &Known, kept: &[u32]) -> Sample
    requires before { kept.now ≡ asked_words known.now.code known.now.at }
    requires not_direct { is_direct_sample known.now.code known.now.at ≡ false }
    ensures { result ≡ sample_of known.now.code known.now.at }
{
    let last = count(known);
    Sample {
        p: [
            number(kept, last, 0),
            number(kept, last, 1),
            number(kept, last, 2),
            number(kept, last, 3),
        ],
        direct: false,
    }
}

// The instruction asks for a sample.
#[tactic(auto, unfolding(crate::specs::Info::asks))]
fn asks(word: u64) -> bool
    ensures { result ≡ asks word }
{
    writes_s(word, 0) || writes_s(word, 1)
}

/// How many of the first `n` instructions ask for a sample.
pub(crate) fn count_samples(code: &[u64], n: usize) -> usize
    requires { n ≤ length code.now }
    ensures { result ≤ n }
{
    let mut count = 0;
    for at in 0..n {
        if asks(code[at]) {
            count += 1;
        }
    }
    count
}

// The sample that the instruction asks for of the TMU `tmu`, which keeps the setup words of the uniforms `kept`, `pending` of
// them.
#[tactic(auto, unfolding(crate::specs::Info::is_direct_sample))]
fn sample_at<L: Ledger>(
    known: &Known,
    tmu: u8,
    pending: u16,
    kept: &[u32],
    steps: &mut Steps<L>,
) -> Sample
    requires number { tmu < 2 }
    requires asked { tmu ≡ sample_tmu (word known.now.code known.now.at) }
    requires waiting { pending ≡ pending_of known.now.code
        (sample_tmu (word known.now.code known.now.at)) known.now.at }
    requires before { kept.now ≡ asked_words known.now.code known.now.at }
    ensures value { result ≡ sample_of known.now.code known.now.at }
    ensures steps { steps.new ≤ steps.old + 1 }
{
    if is_direct(known.word(), tmu, pending) {
        return direct_sample(known, steps);
    }
    setup_sample(known, kept)
}

// The sample that the instruction asks for, of the TMU that it asks.
#[tactic(auto, unfolding(crate::specs::Info::sample_tmu))]
fn asked_sample<L: Ledger>(
    here: &Here,
    kept0: &[u32],
    kept1: &[u32],
    steps: &mut Steps<L>,
) -> Sample
    requires first { kept0.now ≡ held_words here.now.code 0 here.now.at }
    requires second { kept1.now ≡ held_words here.now.code 1 here.now.at }
    ensures value { result ≡ sample_of here.now.code here.now.at }
    ensures steps { steps.new ≤ steps.old + 1 }
{
    if writes_s(here.word(), 0) {
        return sample_at(&here.known, 0, here.pending0, kept0, steps);
    }
    sample_at(&here.known, 1, here.pending1, kept1, steps)
}

// Puts the sample of the checked instruction to the others, where it asks for one. At most one step.
fn add_sample<L: Ledger>(
    here: &Here,
    kept0: &[u32],
    kept1: &[u32],
    samples: &mut Vec<Sample>,
    steps: &mut Steps<L>,
) -> Result<(), NoMemory>
    requires checked { here.now.at < checked_of here.now.code }
    requires first { kept0.now ≡ held_words here.now.code 0 here.now.at }
    requires second { kept1.now ≡ held_words here.now.code 1 here.now.at }
    requires before { samples.old.items ≡ samples_before here.now.code here.now.at }
    ensures samples { OnOk result (samples.new.items
        ≡ samples_before here.now.code (here.now.at + 1)) }
    ensures steps { steps.new ≤ steps.old + 1 }
{
    if !asks(here.word()) {
        return Ok(());
    }
    let sample = asked_sample(here, kept0, kept1, steps);
    samples.push(sample)?;
    Ok(())
}

/// Puts the sample of the checked instruction to the others, where it asks for one, and keeps what the TMUs keep after it. At
/// most one step.
pub(crate) fn note<L: Ledger>(
    here: &Here,
    kept0: &mut Vec<u32>,
    kept1: &mut Vec<u32>,
    samples: &mut Vec<Sample>,
    steps: &mut Steps<L>,
) -> Result<(), NoMemory>
    requires checked { here.now.at < checked_of here.now.code }
    requires first { kept0.old.items ≡ held_words here.now.code 0 here.now.at }
    requires second { kept1.old.items ≡ held_words here.now.code 1 here.now.at }
    requires before { samples.old.items ≡ samples_before here.now.code here.now.at }
    ensures first { OnOk result (kept0.new.items ≡ held_words here.now.code 0 (here.now.at + 1)) }
    ensures second { OnOk result (kept1.new.items ≡ held_words here.now.code 1 (here.now.at + 1)) }
    ensures samples { OnOk result (samples.new.items
        ≡ samples_before here.now.code (here.now.at + 1)) }
    ensures steps { steps.new ≤ steps.old + 1 }
{
    if writes_registers(here.word()) {
        return Ok(());
    }
    add_sample(here, kept0, kept1, samples, steps)?;
    keep(&here.known, 0, kept0)?;
    keep(&here.known, 1, kept1)?;
    Ok(())
}
