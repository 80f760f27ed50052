//! Emission of one record.
ghost use Rattle.std.specs.Prelude.{◌≡◌, None, Some, Option, MatchOption, ◌+◌, ◌*◌, ◌/◌, ◌-◌, ◌<◌, ◌≤◌, ◌^◌, length};
ghost use Rattle.field_words.specs.WordBytes.{word_bytes};
ghost use Rattle.field_words.specs.Writes.{with_bytes};
ghost use Rattle.qpu_isa.specs.Shader.{ShaderModel, shader_view};
ghost use Rattle.packets.specs.StateWord.{attribute_count, record_size, record_room};
ghost use Rattle.shader_records.specs.Inputs.{Fits};
ghost use Rattle.shader_records.specs.Sources.{handles_size, source_size, shader_used, given_by, given_before, record_word, code_number, attribute_number, place_in};
ghost use Rattle.shader_records.specs.Rules.{IsFineRecord};
ghost use Rattle.shader_records.specs.Emission.{plain_word, stream_place, record_text, AreStreamsOf, moved_address};

use crate::inputs::{Inputs, relocated};
use crate::record_rules::Source;
use crate::sizes::handles_size;
use field_words::put_u32;
use packets::{attribute_count, record_room, record_size};
use qpu_isa::ShaderInfo;

/// The bytes of so many words.
fn bytes_of(words: u32) -> u64
    ensures value { result ≡ 4 * words }
    ensures limit { result < 2 ^ 34 }
{
    4 * u64::from(words)
}

/// Where the code of a record's shader lies, and the bytes of its stream.
#[derive(Clone, Copy)]
struct Start {
    code: u32,
    given: u64,
}

/// The bytes of the stream of a shader, of which there may be none.
fn given_by(used: Option<&ShaderInfo>) -> u64
    ensures value { (shader : Option ShaderModel)
        → MatchOption used.entry (shader ≡ None) (λ info. shader ≡ Some (shader_view info.now))
        → result ≡ given_by shader }
    ensures limit { result < 2 ^ 34 }
{
    match used {
        Some(info) => bytes_of(info.uniforms),
        None => 0,
    }
}

/// What a record starts as shader `s`.
#[tactic(auto, unfolding(crate::specs::Sources::shader_used))]
fn start_of(inputs: &Inputs, at: usize, s: usize) -> Start
    requires fits { Fits inputs.now }
    requires inside { at + 4 * s + 4 ≤ length inputs.now.records }
    ensures code { result.code ≡ place_in inputs.now.table (code_number inputs.now at s) }
    ensures given { result.given ≡ given_by (shader_used inputs.now at s) }
    ensures limit { result.given < 2 ^ 34 }
{
    let number = inputs.code_number(at, s);
    Start {
        code: inputs.place_of(number),
        given: given_by(inputs.shader_in(number)),
    }
}

/// Where the codes and the streams of a record's three shaders lie, and the bytes of all three streams.
#[derive(Clone, Copy)]
struct Places {
    codes: [u32; 3],
    streams: [u32; 3],
    given: u64,
}

/// The places of a record's shaders, if the first stream stands at `first`.
fn places_of(inputs: &Inputs, at: usize, first: u32) -> Places
    requires fits { Fits inputs.now }
    requires inside { at + 12 ≤ length inputs.now.records }
    requires room { first + given_before inputs.now at 3 < 2 ^ 32 }
    ensures codes { AreStreamsOf result.codes (λ s. place_in inputs.now.table
        (code_number inputs.now at s)) }
    ensures streams { AreStreamsOf result.streams (stream_place inputs.now at first) }
    ensures given { result.given ≡ given_before inputs.now at 3 }
{
    let fragment = start_of(inputs, at, 0);
    let vertex = start_of(inputs, at, 1);
    let coordinate = start_of(inputs, at, 2);
    let two = fragment.given + vertex.given;
    Places {
        codes: [fragment.code, vertex.code, coordinate.code],
        streams: [first, first + fragment.given as u32, first + two as u32],
        given: two + coordinate.given,
    }
}

/// The address of attribute `t`, moved by its buffer's place.
#[tactic(auto, using(crate::proofs::Fine::address_fits))]
fn moved_address(inputs: &Inputs, source: Source, t: usize) -> u32
    requires fits { Fits inputs.now }
    requires count { t < attribute_count source.state }
    requires inside { source.at + source_size source.state ≤ length inputs.now.records }
    requires fine { IsFineRecord inputs.now source.at source.state source.max_index }
    ensures { result ≡ moved_address inputs.now source.at source.state t }
{
    let number = inputs.attribute_number(source.at, t);
    relocated(
        inputs.record_word(source.at, source.state, 9 + 2 * t),
        inputs.place_of(number),
    )
}

/// Puts at `base` the words of a record's source as they are, with zeros up to a multiple of 16.
fn put_plain(inputs: &Inputs, source: Source, out: &mut [u8], base: usize)
    requires fits { Fits inputs.now }
    requires inside { source.at + source_size source.state ≤ length inputs.now.records }
    requires room { base + record_room source.state ≤ length out.old }
    ensures { out.new ≡ with_bytes out.old base
        (word_bytes (plain_word inputs.now source.at source.state) (record_room source.state / 4)) }
{
    let from = source.at + handles_size(source.state);
    let count = record_size(source.state) as usize / 4;
    inputs.copy_records(from, count, out, base);
    for i in count..record_room(source.state) as usize / 4 {
        put_u32(out, base + 4 * i, 0);
    }
}

/// Emits a record at `base`, with zeros up to a multiple of 16. Its streams stand from `first` on; it gives the bytes of them.
#[tactic(auto, unfolding(crate::specs::Emission::record_text), using(crate::proofs::Fine::source_inside, crate::proofs::Inside::fixed_in))]
pub(crate) fn put_record(
    inputs: &Inputs,
    source: Source,
    first: u32,
    out: &mut [u8],
    base: usize,
) -> u64
    requires fits { Fits inputs.now }
    requires fine { IsFineRecord inputs.now source.at source.state source.max_index }
    requires streams { first + given_before inputs.now source.at 3 < 2 ^ 32 }
    requires room { base + record_room source.state ≤ length out.old }
    ensures text { out.new ≡ with_bytes out.old base
        (record_text inputs.now source.at source.state first) }
    ensures given { result ≡ given_before inputs.now source.at 3 }
{
    let places = places_of(inputs, source.at, first);
    put_plain(inputs, source, out, base);
    for s in 0..3usize {
        put_u32(out, base + 4 * (3 * s + 1), places.codes[s]);
        put_u32(out, base + 4 * (3 * s + 2), places.streams[s]);
    }
    for t in 0..attribute_count(source.state) as usize {
        let word = moved_address(inputs, source, t);
        put_u32(out, base + 4 * (9 + 2 * t), word);
    }
    places.given
}
