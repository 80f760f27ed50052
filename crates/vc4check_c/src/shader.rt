//! The check of a shader alone.
ghost use Rattle.std.specs.Prelude.{◌≡◌, ◌≢◌, ◌≤◌, ◌<◌, ◌*◌, ◌↔◌, ◌⊎◌, ℕ, List, length, map, IfOk};
ghost use Rattle.field_words.specs.Sizes.{most_words};
ghost use Rattle.field_words.specs.Questions.{Answers, first_of};
ghost use Rattle.qpu_isa.specs.Shader.{IsSoundShader};
ghost use Rattle.job_check.specs.Shaders.{report_of};
ghost use Rattle.shader_check.specs.Info.{IsInfo, samples_of};
ghost use Rattle.shader_check.specs.Rules.{shader_questions};
ghost use Rattle.uniform_stream.specs.Stream.{address_words_of};
ghost use Rattle.vc4check_c.specs.Shader.{position_report, sample_report, shader_report, fault_report, with_front, IsAcceptedShader, IsRefusedShader};

use crate::status::{ACCEPTED, NO_MEMORY, REFUSED, SHORT, TOO_LONG};
use field_words::{MOST_WORDS, Stop};
use qpu_isa::{Sample, ShaderInfo};
use shader_check::{ShaderFault, check_code};
use std::alloc::Global;

/// What is reported of a shader. Of an accepted one: how many uniforms it takes, how many samples it asks for, how many address words
/// its stream has, and whether it switches threads (1) or not (0). Of a refused one: the number of the rule S, and the
/// index of the instruction, which is the number of words for a rule on the whole shader. The other fields are zero.
#[repr(C)]
#[derive(Clone, Copy, Debug, PartialEq, Eq)]
pub struct ShaderAnswer {
    pub number: u32,
    pub index: u32,
    pub uniforms: u32,
    pub threaded: u32,
    pub samples: usize,
    pub address_words: usize,
}

/// One texture or memory access of a shader: the numbers of the uniforms that its set-up words are, in order, all ones after the
/// last; and whether it reads memory at an address that the shader computed (1) or asks for a texture's pixel (0).
#[repr(C)]
#[derive(Clone, Copy, Debug, PartialEq, Eq)]
pub struct ShaderSample {
    pub positions: [u32; 4],
    pub direct: u32,
}

/// A position, all ones for none.
pub(crate) fn position(position: Option<u32>) -> u32
    ensures { result ≡ position_report position }
{
    position.unwrap_or(u32::MAX)
}

/// A sample as C knows it.
#[tactic(auto, unfolding(crate::specs::Shader::sample_report))]
fn sample(sample: &Sample) -> ShaderSample
    ensures { result ≡ sample_report sample.now }
{
    let [first, second, third, fourth] = sample.p;
    ShaderSample {
        positions: [
            position(first),
            position(second),
            position(third),
            position(fourth),
        ],
        direct: u32::from(sample.direct),
    }
}

/// Writes the samples from the room's start on.
fn put_samples(samples: &[Sample], room: &mut [ShaderSample])
    requires { length samples.now ≤ length room.old }
    ensures { room.new ≡ with_front room.old (map sample_report samples.now) }
{
    for k in 0..samples.len() {
        room[k] = sample(&samples[k]);
    }
}

/// Writes the numbers from the room's start on.
fn put_numbers(numbers: &[u32], room: &mut [u32])
    requires { length numbers.now ≤ length room.old }
    ensures { room.new ≡ with_front room.old numbers.now }
{
    room[..numbers.len()].copy_from_slice(numbers);
}

/// What is reported of an accepted shader.
#[tactic(auto, unfolding(crate::specs::Shader::shader_report))]
fn accepted(info: &ShaderInfo) -> ShaderAnswer
    ensures { (code : List ℕ) → IsInfo code info.now → result ≡ shader_report code }
{
    ShaderAnswer {
        number: 0,
        index: 0,
        uniforms: info.uniforms,
        threaded: u32::from(info.threaded),
        samples: info.samples.len(),
        address_words: info.address_words.len(),
    }
}

/// What is reported of a refused one.
#[tactic(auto, unfolding(crate::specs::Shader::fault_report))]
fn refused(fault: &ShaderFault) -> ShaderAnswer
    ensures { result ≡ fault_report fault.now }
{
    ShaderAnswer {
        number: u32::from(fault.number),
        index: fault.index,
        uniforms: 0,
        threaded: 0,
        samples: 0,
        address_words: 0,
    }
}

/// The checker's answer.
#[tactic(auto, unfolding(job_check::specs::Shaders::report_of))]
fn checked(alloc: Global, code: &[u64]) -> Result<ShaderInfo, Stop<ShaderFault>>
    requires { length code.now ≤ most_words }
    ensures answers { Answers (shader_questions code.now) (IsInfo code.now) result }
    ensures sound { IfOk result (λ _. IsSoundShader (report_of code.now)) }
{
    check_code(alloc, code)
}

/// Checks a shader of at most 8,192 words. Where no rule is broken, its samples are put into `samples` and the numbers of its address
/// words into `address_words`, each from its start on; what further room there is stays.
///
/// | Status | Meaning | `answer` | `samples`, `address_words` |
/// |---|---|---|---|
/// | 0 | accepted | what the shader takes, and the two counts | written |
/// | 1 | refused | the rule's number, and the index where it is broken | as before |
/// | 2 | accepted, and one of the two has too little room | what the shader takes, and the two counts | as before |
/// | 3 | want of memory; nothing is said of the shader | as before | as before |
/// | 4 | more than 8,192 words; no rule was asked | as before | as before |
#[unsafe(no_mangle)]
#[tactic(auto, using(field_words::proofs::Questions::first_is))]
pub extern "C" fn vc4check_shader(
    alloc: Global,
    code: &[u64],
    samples: &mut [ShaderSample],
    address_words: &mut [u32],
    answer: &mut ShaderAnswer,
) -> u32
    ensures statuses { result ≤ 4 }
    ensures accepted { result ≡ 0 → IsAcceptedShader code.now answer.new }
    ensures sound { result ≡ 0 → IsSoundShader (report_of code.now) }
    ensures samples { result ≡ 0 → samples.new
        ≡ with_front samples.old (map sample_report (samples_of code.now)) }
    ensures address_words { result ≡ 0 → address_words.new
        ≡ with_front address_words.old (address_words_of code.now) }
    ensures refused { result ≡ 1 → IsRefusedShader code.now (first_of (shader_questions code.now))
        answer.new }
    ensures short { result ≡ 2 → IsAcceptedShader code.now answer.new }
    ensures room { result ≡ 2 → ((length samples.old < length (samples_of code.now))
        ⊎ (length address_words.old < length (address_words_of code.now))) }
    ensures long { (result ≡ 4) ↔ (most_words < length code.now) }
    ensures samples_kept { result ≢ 0 → samples.new ≡ samples.old }
    ensures address_words_kept { result ≢ 0 → address_words.new ≡ address_words.old }
    ensures silent { 2 < result → answer.new ≡ answer.old }
{
    if code.len() > MOST_WORDS as usize {
        return TOO_LONG;
    }
    match checked(alloc, code) {
        Ok(info) => {
            *answer = accepted(&info);
            if samples.len() < info.samples.len()
                || address_words.len() < info.address_words.len()
            {
                return SHORT;
            }
            put_samples(&info.samples, samples);
            put_numbers(&info.address_words, address_words);
            ACCEPTED
        }
        Err(Stop::Fault(fault)) => {
            *answer = refused(&fault);
            REFUSED
        }
        Err(Stop::NoMemory) => NO_MEMORY,
    }
}
