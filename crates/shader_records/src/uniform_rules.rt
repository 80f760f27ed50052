//! The rules of the uniforms that shaders take.
ghost use Rattle.std.specs.Prelude.{◌≡◌, ◌+◌, ◌*◌, ◌<◌, ◌≤◌, ◌^◌, length, Some, None};
ghost use Rattle.field_words.specs.Sizes.{most_list};
ghost use Rattle.field_words.specs.Questions.{GoesOn, first_of, each};
ghost use Rattle.qpu_isa.specs.Shader.{shader_view, sample_at, first_position};
ghost use Rattle.emitted_facts.specs.Facts.{setup};
ghost use Rattle.shader_records.specs.Inputs.{Fits, IsShaped, IsShapedSample};
ghost use Rattle.shader_records.specs.Sources.{shader_used, taken_by, sample_number, source_word, IsEnd, HasUniforms};
ghost use Rattle.shader_records.specs.Faults.{sample_fault as sample_fault_of};
ghost use Rattle.shader_records.specs.Rules.{setup_questions, first_word_at, sample_questions, use_questions};

use crate::fault::RecordFault;
use crate::inputs::Inputs;
use crate::rule::RecordRule;
use job_format::Stage;
use qpu_isa::{Sample, ShaderInfo};
use texture_layouts::{direct_fits, texture_fits};

/// A fault of rule U`number` at a place in the uniforms.
fn fault(at: usize, number: u8) -> RecordFault
    requires { at < 2 ^ 32 }
    ensures { result ≡ sample_fault_of at number }
{
    RecordFault {
        stage: Stage::U,
        number,
        in_uniforms: true,
        at: at as u32,
    }
}

/// Sample `i` of a shader.
pub(crate) fn sample(info: &ShaderInfo, i: usize) -> Sample
    requires shaped { IsShaped (shader_view info.now) }
    requires inside { i < length info.now.samples.items }
    ensures value { result ≡ sample_at (shader_view info.now) i }
    ensures shaped { IsShapedSample (shader_view info.now) result }
{
    info.samples[i]
}

/// Where its first set-up word stands in the shader's stream.
pub(crate) fn first_position(info: &ShaderInfo, i: usize) -> usize
    requires shaped { IsShaped (shader_view info.now) }
    requires inside { i < length info.now.samples.items }
    ensures value { result ≡ first_position (sample_at (shader_view info.now) i) }
    ensures below { result < info.now.uniforms }
{
    match sample(info, i).p[0] {
        Some(k) => k as usize,
        None => 0,
    }
}

/// Set-up word `n` of a sample, of a shader whose uniforms begin at `from`; 0 where there is none.
#[tactic(auto, unfolding(crate::specs::Sources::source_word))]
fn setup_word(inputs: &Inputs, from: usize, info: &ShaderInfo, sample: &Sample, n: usize) -> u32
    requires fits { Fits inputs.now }
    requires room { HasUniforms inputs.now from (shader_view info.now) }
    requires count { n < 4 }
    requires shaped { IsShapedSample (shader_view info.now) sample.now }
    ensures { result ≡ setup (source_word inputs.now from (shader_view info.now)) sample.now n }
{
    match sample.p[n] {
        Some(k) => inputs.uniform_at(from + 4 * info.samples.len() + 4 * k as usize),
        None => 0,
    }
}

/// The number of the first rule that a sample breaks in a buffer of `size` bytes.
#[tactic(auto, unfolding(crate::specs::Rules::setup_questions))]
fn setup_fault(
    inputs: &Inputs,
    from: usize,
    info: &ShaderInfo,
    sample: &Sample,
    size: u32,
) -> Option<u8>
    requires fits { Fits inputs.now }
    requires room { HasUniforms inputs.now from (shader_view info.now) }
    requires shaped { IsShapedSample (shader_view info.now) sample.now }
    ensures { result ≡ first_of (setup_questions sample.now
        (source_word inputs.now from (shader_view info.now)) size) }
{
    let first = setup_word(inputs, from, info, sample, 0);
    let second = setup_word(inputs, from, info, sample, 1);
    if sample.direct {
        return direct_fits(first, second, size).err();
    }
    let third = setup_word(inputs, from, info, sample, 2);
    let fourth = setup_word(inputs, from, info, sample, 3);
    texture_fits([first, second, third, fourth], size).err()
}

/// Where a sample's first word is in the uniforms.
#[tactic(auto, unfolding(crate::specs::Rules::first_word_at))]
fn first_word_place(info: &ShaderInfo, from: usize, i: usize) -> usize
    requires shaped { IsShaped (shader_view info.now) }
    requires room { from + 4 * (length info.now.samples.items + info.now.uniforms) ≤ most_list }
    requires inside { i < length info.now.samples.items }
    ensures value { result ≡ first_word_at (shader_view info.now) from i }
    ensures limit { result ≤ most_list }
{
    from + 4 * info.samples.len() + 4 * first_position(info, i)
}

/// The first rule that a sample breaks.
#[tactic(auto, unfolding(crate::specs::Rules::sample_questions), using(field_words::proofs::Questions::answered_none, field_words::proofs::Questions::answered_some))]
fn sample_fault(inputs: &Inputs, from: usize, info: &ShaderInfo, i: usize) -> Option<RecordFault>
    requires fits { Fits inputs.now }
    requires shaped { IsShaped (shader_view info.now) }
    requires room { HasUniforms inputs.now from (shader_view info.now) }
    requires inside { i < length info.now.samples.items }
    ensures { result ≡ first_of (sample_questions inputs.now from (shader_view info.now) i) }
{
    let number = inputs.sample_number(from, i);
    if number.is_none() {
        return Some(fault(from + 4 * i, RecordRule::NoTexture.number()));
    }
    match setup_fault(inputs, from, info, &sample(info, i), inputs.size_of(number)) {
        Some(rule) => Some(fault(first_word_place(info, from, i), rule)),
        None => None,
    }
}

#[tactic(auto, using(field_words::proofs::Questions::each_on, field_words::proofs::Questions::each_stop, field_words::proofs::Questions::each_end))]
fn samples_fault(inputs: &Inputs, from: usize, info: &ShaderInfo) -> Option<RecordFault>
    requires fits { Fits inputs.now }
    requires shaped { IsShaped (shader_view info.now) }
    requires room { HasUniforms inputs.now from (shader_view info.now) }
    ensures { result ≡ first_of (each (sample_questions inputs.now from (shader_view info.now)) 0
        (length info.now.samples.items)) }
{
    for i in 0..info.samples.len() {
        if let Some(fault) = sample_fault(inputs, from, info, i) {
            return Some(fault);
        }
    }
    None
}

/// How many words of uniforms a shader takes, with a handle for each sample.
pub fn words_taken(samples: usize, uniforms: u32) -> u128
    ensures value { result ≡ samples + uniforms }
    ensures limit { result < 2 ^ 65 }
{
    samples as u128 + u128::from(uniforms)
}

/// The first rule that the uniforms of a shader break, which begin at `from`, or else where they end.
#[tactic(auto, unfolding(crate::specs::Rules::use_questions))]
fn shader_fault(inputs: &Inputs, from: usize, info: &ShaderInfo) -> Result<usize, RecordFault>
    requires fits { Fits inputs.now }
    requires shaped { IsShaped (shader_view info.now) }
    requires from { from ≤ length inputs.now.uniforms }
    ensures { let used = Some (shader_view info.now) in
        GoesOn (use_questions inputs.now from used) (IsEnd inputs.now (from + taken_by used)) result }
{
    let words = words_taken(info.samples.len(), info.uniforms);
    if (inputs.uniforms.len() as u128) < from as u128 + 4 * words {
        return Err(RecordFault {
            stage: Stage::A,
            number: RecordRule::UniformsCutOff.number(),
            in_uniforms: true,
            at: from as u32,
        });
    }
    match samples_fault(inputs, from, info) {
        Some(fault) => Err(fault),
        None => Ok(from + 4 * words as usize),
    }
}

/// The first broken rule of shader `s` of a record, of which there may be none.
#[tactic(auto, unfolding(crate::specs::Rules::use_questions))]
pub(crate) fn use_fault(
    inputs: &Inputs,
    at: usize,
    s: usize,
    from: usize,
) -> Result<usize, RecordFault>
    requires fits { Fits inputs.now }
    requires inside { at + 4 * s + 4 ≤ length inputs.now.records }
    requires from { from ≤ length inputs.now.uniforms }
    ensures { let used = shader_used inputs.now at s in
        GoesOn (use_questions inputs.now from used) (IsEnd inputs.now (from + taken_by used)) result }
{
    match inputs.shader_used(at, s) {
        Some(info) => shader_fault(inputs, from, info),
        None => Ok(from),
    }
}
