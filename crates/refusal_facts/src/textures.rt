//! The facts of textures.
ghost use Rattle.std.specs.Prelude.{◌≡◌, ◌+◌, ◌*◌, ◌<◌, ◌≤◌, ◌^◌, length, IfSome};
ghost use Rattle.field_words.specs.Questions.{first_of};
ghost use Rattle.qpu_isa.specs.Shader.{shader_view, sample_at};
ghost use Rattle.shader_records.specs.Rules.{first_word_at};
ghost use Rattle.refusal_facts.specs.Sources.{IsPlaced};
ghost use Rattle.refusal_facts.specs.Textures.{sample_question, sample_among, setup_word, texture_at, level_end, sample_end, shader_end, texture_end};

use crate::fact::EndFact;
use crate::known::{Known, end_at};
use crate::sources::{Source, shader_of, user_of};
use field_words::word_at;
use qpu_isa::{Sample, ShaderInfo};
use texture_layouts::Texture;

// Sample `i`.
fn sample_of(info: &ShaderInfo, i: usize) -> Sample
    requires { i < length info.now.samples.items }
    ensures { result ≡ sample_at (shader_view info.now) i }
{
    info.samples[i]
}

// Where its first set-up word stands in the uniforms, if the shader's begin at a place.
#[tactic(auto, unfolding(shader_records::specs::Rules::first_word_at))]
fn first_word(info: &ShaderInfo, from: u128, i: usize) -> u128
    requires inside { i < length info.now.samples.items }
    requires from { from < 2 ^ 98 }
    ensures value { result ≡ first_word_at (shader_view info.now) from i }
    ensures least { from + 4 * length info.now.samples.items ≤ result }
{
    let word = match sample_of(info, i).p[0] {
        Some(word) => word,
        None => 0,
    };
    from + 4 * info.samples.len() as u128 + 4 * u128::from(word)
}

// Sample `i`, where its first set-up word stands at a byte.
#[tactic(auto, unfolding(crate::specs::Textures::sample_question))]
fn sample_here(info: &ShaderInfo, from: u128, at: u64, i: usize) -> Option<usize>
    requires inside { i < length info.now.samples.items }
    requires from { from < 2 ^ 98 }
    ensures value { result ≡ first_of (sample_question (shader_view info.now) from at i) }
    ensures same { IfSome result (λ found. found ≡ i) }
    ensures before { IfSome result (λ _. from + 4 * length info.now.samples.items ≤ at) }
{
    if first_word(info, from, i) == u128::from(at) {
        return Some(i);
    }
    None
}

// The sample whose first set-up word stands at a byte.
#[tactic(auto, unfolding(crate::specs::Textures::sample_among), using(field_words::proofs::Questions::each_on, field_words::proofs::Questions::each_stop, field_words::proofs::Questions::each_end))]
fn sample_among(info: &ShaderInfo, from: u128, at: u64) -> Option<usize>
    requires { from < 2 ^ 98 }
    ensures value { result ≡ sample_among (shader_view info.now) from at }
    ensures inside { IfSome result (λ i. i < length info.now.samples.items) }
    ensures before { IfSome result (λ _. from + 4 * length info.now.samples.items ≤ at) }
{
    for i in 0..info.samples.len() {
        if let Some(found) = sample_here(info, from, at, i) {
            return Some(found);
        }
    }
    None
}

// Set-up word `n` of sample `i`; 0 where there is none.
#[tactic(auto, unfolding(crate::specs::Textures::setup_word, shader_records::specs::Sources::word_from))]
fn setup_word(known: &Known, info: &ShaderInfo, from: usize, i: usize, n: usize) -> u32
    requires inside { i < length info.now.samples.items }
    requires before { from + 4 * length info.now.samples.items < 2 ^ 32 }
    requires four { n < 4 }
    ensures { result ≡ setup_word known.now (shader_view info.now) from i n }
{
    match sample_of(info, i).p[n] {
        Some(word) => word_at(
            known.job.uniforms,
            from + 4 * info.samples.len() + 4 * word as usize,
        ),
        None => 0,
    }
}

// The texture that the set-up words of sample `i` describe.
fn texture_at(known: &Known, info: &ShaderInfo, from: usize, i: usize) -> Texture
    requires inside { i < length info.now.samples.items }
    requires before { from + 4 * length info.now.samples.items < 2 ^ 32 }
    ensures { result ≡ texture_at known.now (shader_view info.now) from i }
{
    Texture::of(&[
        setup_word(known, info, from, i, 0),
        setup_word(known, info, from, i, 1),
        setup_word(known, info, from, i, 2),
        setup_word(known, info, from, i, 3),
    ])
}

// Where level 0 of its last face ends in the buffer, where its type is listed.
#[tactic(auto, unfolding(crate::specs::Textures::level_end))]
fn level_end(texture: &Texture) -> Option<u64>
    ensures { result ≡ level_end texture.now }
{
    if texture.is_unlisted() {
        return None;
    }
    Some(texture.face_place(texture.faces() - 1) + texture.level_size(0))
}

// Where level 0 ends of the texture of sample `i`, if the shader's uniforms begin at a place.
#[tactic(auto, unfolding(crate::specs::Textures::sample_end))]
fn sample_end(known: &Known, info: &ShaderInfo, from: usize, i: usize) -> Option<EndFact>
    requires inside { i < length info.now.samples.items }
    requires before { from + 4 * length info.now.samples.items < 2 ^ 32 }
    ensures { result ≡ sample_end known.now (shader_view info.now) from i }
{
    let end = level_end(&texture_at(known, info, from, i))?;
    end_at(known, word_at(known.job.uniforms, from + 4 * i), end)
}

// The same of the sample whose first set-up word stands at a byte.
fn shader_end(known: &Known, info: &ShaderInfo, from: u128, at: u64) -> Option<EndFact>
    requires from { from < 2 ^ 98 }
    requires at { at < 2 ^ 32 }
    ensures { result ≡ shader_end known.now from at (shader_view info.now) }
{
    let i = sample_among(info, from, at)?;
    sample_end(known, info, from as usize, i)
}

/// U7: the buffer of the texture whose first set-up word stands at a byte of the uniforms, and where level 0 ends.
#[tactic(auto, unfolding(crate::specs::Textures::texture_end))]
pub(crate) fn texture_end(known: &Known, source: Source, at: u64) -> Option<EndFact>
    requires placed { IsPlaced source }
    requires at { at < 2 ^ 32 }
    ensures { result ≡ texture_end known.now at source }
{
    let user = user_of(known, source, at);
    let info = shader_of(known, source, user.stage)?;
    shader_end(known, info, user.from, at)
}
