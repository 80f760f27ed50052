//! A shader that is checked once, when it is made: what the check found out is kept in a block of the caller's.
ghost use Rattle.std.specs.Prelude.{◌≡◌, ◌≢◌, ◌≤◌, ◌<◌, ◌+◌, ◌^◌, ◌↔◌, ◌⊎◌, ℕ, true, length, map, Some, IfOk, IfSome};
ghost use Rattle.field_words.specs.Sizes.{most_code};
ghost use Rattle.field_words.specs.Questions.{Answers, first_of};
ghost use Rattle.qpu_isa.specs.Shader.{shader_view, sample_at, address_at};
ghost use Rattle.shader_records.specs.Inputs.{IsShapedSample};
ghost use Rattle.job_check.specs.Shaders.{code_questions};
ghost use Rattle.vc4check_c.specs.Shader.{with_front};
ghost use Rattle.vc4check_c.specs.Block.{known_sample, known_address, findings_word, block_of, block_of_code, made_answer, rule_in, findings_in_words, findings_in_block, position_in, sample_in, address_in, whole_word, read_of, IsReadable, IsBlockOf, IsUnmade};

use crate::shader::position;
use crate::status::{ACCEPTED, NO_MEMORY, REFUSED, SHORT, TOO_LONG};
use field_words::{MOST_CODE, Stop};
use job_check::shader_in;
use qpu_isa::{Sample, ShaderInfo};
use shader_check::ShaderFault;
use std::alloc::{AllocError, Global};
use strict_check::{Findings, Uses, findings_in};
use strict_rules::{StrictFault, StrictRule};

/// An entry of what is kept of a checked shader. The first has the number of uniforms, that of samples, that of address words, the word of
/// what was found (`findings_word`), and the instruction where a strict rule is broken; then comes one for each sample and each address word.
#[repr(C)]
#[derive(Clone, Copy, Debug, PartialEq, Eq)]
pub struct Known {
    pub words: [u32; 5],
}

/// What is reported of a shader that is to be kept. Of an accepted one: how many entries its block takes. Of a refused one: the number of the
/// rule S, and the index of the instruction, which is the number of instructions for a rule on the whole shader. The other fields are zero.
#[repr(C)]
#[derive(Clone, Copy, Debug, PartialEq, Eq)]
pub struct MadeAnswer {
    pub number: u32,
    pub index: u32,
    pub entries: usize,
}

/// The entry of a sample.
#[tactic(auto, unfolding(crate::specs::Block::known_sample))]
fn known_sample(sample: &Sample) -> Known
    ensures { result ≡ known_sample sample.now }
{
    let [first, second, third, fourth] = sample.p;
    Known {
        words: [
            position(first),
            position(second),
            position(third),
            position(fourth),
            u32::from(sample.direct),
        ],
    }
}

/// The entries of all samples.
fn known_samples(alloc: Global, samples: &[Sample]) -> Result<Vec<Known>, AllocError>
    ensures { IfOk result (λ entries. entries.items ≡ map known_sample samples.now) }
{
    let mut entries = Vec::with_capacity(alloc, samples.len())?;
    for sample in samples {
        entries.push(known_sample(sample))?;
    }
    Ok(entries)
}

/// The entries of all address words.
fn known_addresses(alloc: Global, words: &[u32]) -> Result<Vec<Known>, AllocError>
    ensures { IfOk result (λ entries. entries.items ≡ map known_address words.now) }
{
    let mut entries = Vec::with_capacity(alloc, words.len())?;
    for word in words {
        let words = [*word, 0, 0, 0, 0];
        entries.push(Known { words })?;
    }
    Ok(entries)
}

/// In one word: the number of a strict rule that is broken, 0 for none, and 8 where the shader uses the VPM, 16 where it uses the tile buffer,
/// and 32 where it switches threads.
#[tactic(auto, unfolding(crate::specs::Block::findings_word))]
fn findings_word(threaded: bool, findings: &Findings) -> u32
    ensures { result ≡ findings_word threaded findings.now }
{
    let number = match findings.fault {
        Some(fault) => u32::from(fault.rule.number()),
        None => 0,
    };
    number
        + 8 * u32::from(findings.uses.vpm)
        + 16 * u32::from(findings.uses.tile)
        + 32 * u32::from(threaded)
}

/// What is kept of a shader.
#[tactic(auto, unfolding(crate::specs::Block::block_of))]
fn block_of(alloc: Global, info: &ShaderInfo, findings: &Findings) -> Result<Vec<Known>, AllocError>
    requires samples { length info.now.samples.items < 2 ^ 32 }
    requires address_words { length info.now.address_words.items < 2 ^ 32 }
    ensures { IfOk result (λ block. block.items ≡ block_of (shader_view info.now) findings.now) }
{
    let place = match findings.fault {
        Some(fault) => fault.at,
        None => 0,
    };
    let words = [
        info.uniforms,
        info.samples.len() as u32,
        info.address_words.len() as u32,
        findings_word(info.threaded, findings),
        place,
    ];
    let mut block = vec![in alloc; Known { words }]?;
    block.extend_from_slice(&known_samples(alloc, &info.samples)?)?;
    block.extend_from_slice(&known_addresses(alloc, &info.address_words)?)?;
    Ok(block)
}

/// The checker's answer, and what is kept of an accepted shader.
fn made(alloc: Global, code: &[u8]) -> Result<Vec<Known>, Stop<ShaderFault>>
    requires { length code.now ≤ most_code }
    ensures { Answers (code_questions code.now) (λ block. IsBlockOf code.now block.items) result }
{
    let info = shader_in(alloc, code)?;
    let findings = findings_in(alloc, code)?;
    Ok(block_of(alloc, &info, &findings)?)
}

/// Puts a block to the room's start, or says that the room is too small.
fn put_block(block: &[Known], room: &mut [Known]) -> u32
    ensures statuses { (result ≡ 0) ⊎ (result ≡ 2) }
    ensures put { result ≡ 0 → room.new ≡ with_front room.old block.now }
    ensures short { result ≡ 2 → length room.old < length block.now }
    ensures kept { result ≡ 2 → room.new ≡ room.old }
{
    if room.len() < block.len() {
        return SHORT;
    }
    room[..block.len()].copy_from_slice(block);
    ACCEPTED
}

/// Checks the shader that these bytes hold, at most 65,536 of them. Where no rule is broken, what the check found out is put into the room,
/// from its start on, for `vc4check_submit`; what further room there is stays.
///
/// | Status | Meaning | `answer` | `room` |
/// |---|---|---|---|
/// | 0 | accepted | how many entries the block takes | the block at its start |
/// | 1 | refused | the rule's number, and the index where it is broken | as before |
/// | 2 | accepted, and there is too little room | how many entries the block takes | as before |
/// | 3 | out of memory; nothing is said of the shader | as before | as before |
/// | 4 | more than 65,536 bytes; no rule was asked | as before | as before |
#[unsafe(no_mangle)]
#[tactic(auto, using(field_words::proofs::Questions::first_is))]
pub extern "C" fn vc4check_make_shader(
    alloc: Global,
    code: &[u8],
    room: &mut [Known],
    answer: &mut MadeAnswer,
) -> u32
    ensures statuses { result ≤ 4 }
    ensures accepted { (result ≡ 0) ⊎ (result ≡ 2) → IsBlockOf code.now (block_of_code code.now) }
    ensures report { (result ≡ 0) ⊎ (result ≡ 2)
        → answer.new ≡ made_answer (block_of_code code.now) }
    ensures written { result ≡ 0 → room.new ≡ with_front room.old (block_of_code code.now) }
    ensures refused { result ≡ 1 → IsUnmade code.now (first_of (code_questions code.now))
        answer.new }
    ensures room { result ≡ 2 → length room.old < length (block_of_code code.now) }
    ensures long { (result ≡ 4) ↔ (most_code < length code.now) }
    ensures kept { result ≢ 0 → room.new ≡ room.old }
    ensures silent { 2 < result → answer.new ≡ answer.old }
{
    if code.len() > MOST_CODE as usize {
        return TOO_LONG;
    }
    match made(alloc, code) {
        Ok(block) => {
            *answer = MadeAnswer {
                number: 0,
                index: 0,
                entries: block.len(),
            };
            put_block(&block, room)
        }
        Err(Stop::Fault(fault)) => {
            *answer = MadeAnswer {
                number: u32::from(fault.number),
                index: fault.index,
                entries: 0,
            };
            REFUSED
        }
        Err(Stop::NoMemory) => NO_MEMORY,
    }
}

/// A position of a sample, none for all ones.
fn position_in(word: u32) -> Option<u32>
    ensures { result ≡ position_in word }
{
    if word == u32::MAX { None } else { Some(word) }
}

/// The sample of an entry.
#[tactic(auto, unfolding(crate::specs::Block::sample_in))]
fn sample_in(entry: &Known) -> Sample
    ensures { result ≡ sample_in entry.now }
{
    let [first, second, third, fourth, direct] = entry.words;
    Sample {
        p: [
            position_in(first),
            position_in(second),
            position_in(third),
            position_in(fourth),
        ],
        direct: direct == 1,
    }
}

/// The samples of these entries.
fn samples_in(alloc: Global, entries: &[Known]) -> Result<Vec<Sample>, AllocError>
    ensures { IfOk result (λ samples. samples.items ≡ map sample_in entries.now) }
{
    let mut samples = Vec::with_capacity(alloc, entries.len())?;
    for entry in entries {
        samples.push(sample_in(entry))?;
    }
    Ok(samples)
}

/// The address words of these entries.
fn addresses_in(alloc: Global, entries: &[Known]) -> Result<Vec<u32>, AllocError>
    ensures { IfOk result (λ words. words.items ≡ map address_in entries.now) }
{
    let mut words = Vec::with_capacity(alloc, entries.len())?;
    for entry in entries {
        words.push(entry.words[0])?;
    }
    Ok(words)
}

/// What a block tells of a shader, which has as many entries as its first says.
#[tactic(auto, unfolding(crate::specs::Block::read_of))]
fn read(alloc: Global, block: &[Known]) -> Result<ShaderInfo, AllocError>
    requires { 1 + whole_word block.now 1 ≤ length block.now }
    ensures { IfOk result (λ info. shader_view info ≡ read_of block.now) }
{
    let [uniforms, samples, _, word, _] = block[0].words;
    let end = 1 + samples as usize;
    Ok(ShaderInfo {
        uniforms,
        samples: samples_in(alloc, &block[1..end])?,
        address_words: addresses_in(alloc, &block[end..])?,
        threaded: word / 32 == 1,
    })
}

/// A strict rule by its number, the last for any other.
fn rule_in(number: u32) -> StrictRule
    ensures { result ≡ rule_in number }
{
    match number {
        1 => StrictRule::SetupAtSwitch,
        2 => StrictRule::SetupAtEnd,
        3 => StrictRule::Requests,
        4 => StrictRule::Stretch,
        5 => StrictRule::LastThree,
        6 => StrictRule::Coupled,
        _ => StrictRule::Mutex,
    }
}

/// What was found of a shader by the strict check, in two words.
#[tactic(auto, unfolding(crate::specs::Block::findings_in_words))]
fn findings_in_words(word: u32, at: u32) -> Findings
    ensures { result ≡ findings_in_words word at }
{
    let number = word % 8;
    let fault = if number == 0 {
        None
    } else {
        Some(StrictFault {
            rule: rule_in(number),
            at,
        })
    };
    let uses = Uses {
        vpm: word / 8 % 2 == 1,
        tile: word / 16 % 2 == 1,
    };
    Findings { fault, uses }
}

/// What a block tells of that: nothing where it has no entry.
#[tactic(auto, unfolding(crate::specs::Block::findings_in_words))]
pub(crate) fn findings_in_block(block: &[Known]) -> Findings
    ensures { result ≡ findings_in_block block.now }
{
    if block.is_empty() {
        return findings_in_words(0, 0);
    }
    let [_, _, _, word, at] = block[0].words;
    findings_in_words(word, at)
}

/// Whether a position of a sample is in the stream of so many uniforms, or there is none.
fn is_inside(position: Option<u32>, uniforms: u32) -> bool
    ensures { result ≡ true → (k : ℕ) → position ≡ Some k → k < uniforms }
{
    match position {
        Some(k) => k < uniforms,
        None => true,
    }
}

/// Whether a sample's first position is there, and all are in the shader's stream.
fn is_sample_shaped(info: &ShaderInfo, sample: &Sample) -> bool
    ensures { result ≡ true → IsShapedSample (shader_view info.now) sample.now }
{
    let [first, second, third, fourth] = sample.p;
    first.is_some()
        && is_inside(first, info.uniforms)
        && is_inside(second, info.uniforms)
        && is_inside(third, info.uniforms)
        && is_inside(fourth, info.uniforms)
}

/// Whether all samples have their shape.
fn are_samples_shaped(info: &ShaderInfo) -> bool
    ensures { result ≡ true → (i : ℕ) → i < length info.now.samples.items →
        IsShapedSample (shader_view info.now) (sample_at (shader_view info.now) i) }
{
    for i in 0..info.samples.len() {
        if !is_sample_shaped(info, &info.samples[i]) {
            return false;
        }
    }
    true
}

/// Whether all address words are in the shader's stream.
fn are_addresses_inside(info: &ShaderInfo) -> bool
    ensures { result ≡ true → (j : ℕ) → j < length info.now.address_words.items →
        address_at (shader_view info.now) j < info.now.uniforms }
{
    for j in 0..info.address_words.len() {
        if info.uniforms <= info.address_words[j] {
            return false;
        }
    }
    true
}

/// What a block tells of a shader, and `None` where it can't be read: where it isn't as long as it says, or what it tells hasn't the shape
/// that the check asks. Whose shader it is isn't asked.
pub(crate) fn shader_in_block(
    alloc: Global,
    block: &[Known],
) -> Result<Option<ShaderInfo>, AllocError>
    ensures { IfOk result (λ found. IfSome found
        (λ info. IsReadable block.now × (shader_view info ≡ read_of block.now))) }
{
    if block.is_empty()
        || block.len() != 1 + block[0].words[1] as usize + block[0].words[2] as usize
    {
        return Ok(None);
    }
    let info = read(alloc, block)?;
    if are_samples_shaped(&info) && are_addresses_inside(&info) {
        return Ok(Some(info));
    }
    Ok(None)
}
