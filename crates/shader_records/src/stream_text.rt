//! Emission of one uniform stream.
ghost use Rattle.std.specs.Prelude.{◌≡◌, ℕ, Some, ◌+◌, ◌*◌, ◌<◌, ◌≤◌, ◌^◌, length};
ghost use Rattle.field_words.specs.WordBytes.{word_bytes};
ghost use Rattle.field_words.specs.Writes.{with_bytes};
ghost use Rattle.qpu_isa.specs.Shader.{shader_view, first_position, address_at};
ghost use Rattle.shader_records.specs.Inputs.{Fits, IsShaped};
ghost use Rattle.shader_records.specs.Sources.{sample_number, source_word, shader_used, taken_by, given_by, taken_before, given_before, HasUniforms};
ghost use Rattle.shader_records.specs.Rules.{IsFineUse};
ghost use Rattle.shader_records.specs.Emission.{stream_text, streams_text, moved_first};

use crate::inputs::{Inputs, relocated};
use crate::uniform_rules::first_position;
use field_words::put_u32;
use qpu_isa::ShaderInfo;

/// Word `k` of a stream's source, for a shader whose uniforms begin at `from`.
#[tactic(auto, unfolding(crate::specs::Sources::source_word))]
fn source_word(inputs: &Inputs, from: usize, info: &ShaderInfo, k: usize) -> u32
    requires fits { Fits inputs.now }
    requires room { HasUniforms inputs.now from (shader_view info.now) }
    requires inside { k < info.now.uniforms }
    ensures { result ≡ source_word inputs.now from (shader_view info.now) k }
{
    inputs.uniform_at(from + 4 * info.samples.len() + 4 * k)
}

/// The first word of sample `i`, moved by its buffer's place.
#[tactic(auto, using(crate::proofs::StreamFacts::base_fits))]
fn moved_word(inputs: &Inputs, from: usize, info: &ShaderInfo, i: usize) -> u32
    requires fits { Fits inputs.now }
    requires shaped { IsShaped (shader_view info.now) }
    requires room { HasUniforms inputs.now from (shader_view info.now) }
    requires inside { i < length info.now.samples.items }
    requires fine { IsFineUse inputs.now from (Some (shader_view info.now)) }
    ensures { result ≡ moved_first inputs.now from (shader_view info.now) i }
{
    let word = source_word(inputs, from, info, first_position(info, i));
    relocated(word, inputs.place_of(inputs.sample_number(from, i)))
}

/// Address word `j` of a shader.
fn address_word(info: &ShaderInfo, j: usize) -> usize
    requires shaped { IsShaped (shader_view info.now) }
    requires inside { j < length info.now.address_words.items }
    ensures value { result ≡ address_at (shader_view info.now) j }
    ensures below { result < info.now.uniforms }
{
    info.address_words[j] as usize
}

/// Puts at `base` the words of a stream's source as they are.
#[tactic(auto, unfolding(crate::specs::Sources::source_word, crate::specs::Sources::word_from))]
fn put_source(inputs: &Inputs, from: usize, info: &ShaderInfo, out: &mut [u8], base: usize)
    requires fits { Fits inputs.now }
    requires room { HasUniforms inputs.now from (shader_view info.now) }
    requires window { base + 4 * info.now.uniforms ≤ length out.old }
    ensures { out.new ≡ with_bytes out.old base
        (word_bytes (source_word inputs.now from (shader_view info.now)) info.now.uniforms) }
{
    let start = from + 4 * info.samples.len();
    inputs.copy_uniforms(start, info.uniforms as usize, out, base);
}

/// A stream: where its source begins in the job's uniforms, its place in memory, and where it goes in the window.
#[derive(Clone, Copy)]
pub(crate) struct Stream {
    pub(crate) from: usize,
    pub(crate) place: u32,
    pub(crate) base: usize,
}

/// Emits the stream of a shader: the words of its source, each sample's first moved by its buffer's place,
/// and each address word the stream's own place.
#[tactic(auto, unfolding(crate::specs::Emission::stream_text), using(crate::proofs::Fine::use_inside))]
fn put_words(inputs: &Inputs, info: &ShaderInfo, stream: Stream, out: &mut [u8])
    requires fits { Fits inputs.now }
    requires shaped { IsShaped (shader_view info.now) }
    requires fine { IsFineUse inputs.now stream.from (Some (shader_view info.now)) }
    requires room { stream.base + 4 * info.now.uniforms ≤ length out.old }
    ensures { out.new ≡ with_bytes out.old stream.base
        (stream_text inputs.now stream.from stream.place (Some (shader_view info.now))) }
{
    let Stream { from, place, base } = stream;
    put_source(inputs, from, info, out, base);
    for i in 0..info.samples.len() {
        let word = moved_word(inputs, from, info, i);
        put_u32(out, base + 4 * first_position(info, i), word);
    }
    for j in 0..info.address_words.len() {
        put_u32(out, base + 4 * address_word(info, j), place);
    }
}

/// The bytes of uniforms that shaders take, and the bytes of their streams.
#[derive(Clone, Copy)]
pub(crate) struct Amounts {
    pub(crate) taken: usize,
    pub(crate) given: usize,
}

/// Emits the stream of shader `s` of a record, of which there may be none.
#[tactic(auto, unfolding(crate::specs::Emission::stream_text), using(field_words::proofs::Writes::with_nothing, crate::proofs::Fine::use_inside))]
fn put_stream(inputs: &Inputs, at: usize, s: usize, stream: Stream, out: &mut [u8]) -> Amounts
    requires fits { Fits inputs.now }
    requires inside { at + 4 * s + 4 ≤ length inputs.now.records }
    requires fine { IsFineUse inputs.now stream.from (shader_used inputs.now at s) }
    requires room { stream.base + given_by (shader_used inputs.now at s) ≤ length out.old }
    ensures text { out.new ≡ with_bytes out.old stream.base
        (stream_text inputs.now stream.from stream.place (shader_used inputs.now at s)) }
    ensures taken { result.taken ≡ taken_by (shader_used inputs.now at s) }
    ensures given { result.given ≡ given_by (shader_used inputs.now at s) }
{
    let Some(info) = inputs.shader_used(at, s) else {
        return Amounts { taken: 0, given: 0 };
    };
    put_words(inputs, info, stream, out);
    let given = 4 * info.uniforms as usize;
    Amounts {
        taken: 4 * info.samples.len() + given,
        given,
    }
}

/// Emits the streams of a record's shaders one after the other, of which the first is given.
pub(crate) fn put_streams(inputs: &Inputs, at: usize, first: Stream, out: &mut [u8]) -> Amounts
    requires fits { Fits inputs.now }
    requires inside { at + 12 ≤ length inputs.now.records }
    requires fine { (s : ℕ) → s < 3 → IsFineUse inputs.now
        (first.from + taken_before inputs.now at s) (shader_used inputs.now at s) }
    requires taken { first.from + taken_before inputs.now at 3 ≤ length inputs.now.uniforms }
    requires base { first.base < 2 ^ 32 }
    requires places { first.place + given_before inputs.now at 3 < 2 ^ 32 }
    requires room { first.base + given_before inputs.now at 3 ≤ length out.old }
    ensures text { out.new ≡ with_bytes out.old first.base
        (streams_text inputs.now at first.from first.place 3) }
    ensures amounts { result ≡ record {
      taken = taken_before inputs.now at 3;
      given = given_before
          inputs.now at 3;
    } }
{
    let mut taken = 0;
    let mut given = 0;
    for s in 0..3usize {
        let stream = Stream {
            from: first.from + taken,
            place: first.place + given as u32,
            base: first.base + given,
        };
        let amounts = put_stream(inputs, at, s, stream, out);
        taken += amounts.taken;
        given += amounts.given;
    }
    Amounts { taken, given }
}
