//! Where the records of a job's states stand and what the states draw, and the shaders that take its uniforms.
ghost use Rattle.std.specs.Prelude.{◌≡◌, ◌+◌, ◌*◌, ◌≤◌, ◌<◌, ◌^◌, length, IfSome, MatchOption, Some, None};
ghost use Rattle.field_words.specs.Sizes.{most_list};
ghost use Rattle.bin_list.specs.{Packets.packets, States.states_of, States.draws_to, States.last_index, States.greatest};
ghost use Rattle.qpu_isa.specs.Shader.{shader_view};
ghost use Rattle.shader_records.specs.Inputs.{shader_in, shaders_view};
ghost use Rattle.job_format.specs.Parts.{job_parts_view};
ghost use Rattle.refusal_facts.specs.Sources.{shader_of, taken, uniforms_end, record_end, end_in, source_among, part_size, source_at, user_of, IsPlaced, IsUser};

use crate::known::Known;
use bin_list::split_front;
use field_words::word_at;
use job_format::{JobParts, Part, Place};
use packets::opcode::{ARRAY_PRIMITIVE_LIST, GL_SHADER_STATE, INDEXED_PRIMITIVE_LIST};
use qpu_isa::ShaderInfo;
use shader_records::{source_size, words_taken};

/// A record that a state starts: where its source begins among the job's records, the word of its state, the greatest index that the state
/// draws, and where the uniforms of its shaders begin.
#[derive(Clone, Copy)]
pub(crate) struct Source {
    pub(crate) at: usize,
    pub(crate) state: u32,
    pub(crate) most: u64,
    pub(crate) from: u128,
}

/// A record's fragment (0), vertex (1) or coordinate shader (2), and where the uniforms that it takes begin.
#[derive(Clone, Copy)]
pub(crate) struct User {
    pub(crate) stage: u32,
    pub(crate) from: u128,
}

// The last of `count` indexes from `first` on, 0 where there are none.
fn last_index(first: u32, count: u32) -> u64
    ensures value { result ≡ last_index first count }
    ensures limit { result < 2 ^ 33 }
{
    if count == 0 {
        return 0;
    }
    u64::from(first) + u64::from(count) - 1
}

// The greatest index that a packet draws, 0 where it draws none.
#[tactic(auto, unfolding(bin_list::specs::States::draws_to))]
fn draws_to(packet: &[u8]) -> u64
    requires some { 1 ≤ length packet.now }
    ensures value { result ≡ draws_to packet.now }
    ensures limit { result < 2 ^ 33 }
{
    match packet[0] {
        INDEXED_PRIMITIVE_LIST => u64::from(word_at(packet, 10)),
        ARRAY_PRIMITIVE_LIST => last_index(word_at(packet, 6), word_at(packet, 2)),
        _ => 0,
    }
}

// The greatest index that the packets of a list draw, up to its first state.
#[tactic(auto, using(crate::proofs::Walk::greatest_here, crate::proofs::Walk::greatest_past, crate::proofs::Walk::greatest_none))]
fn greatest(list: &[u8]) -> u64
    ensures { result ≡ greatest (packets list.now) }
{
    let mut most = 0u64;
    let mut rest = list;
    while !rest.is_empty() {
        let (packet, behind) = split_front(rest);
        if packet[0] == GL_SHADER_STATE {
            return most;
        }
        most = most.max(draws_to(packet));
        rest = behind;
    }
    most
}

// What is known of the shader in the buffer of a number.
#[tactic(auto, using(shader_records::proofs::Shaders::known_none, shader_records::proofs::Shaders::known_some, crate::proofs::Shaders::known_past))]
fn known_in(shaders: &[Option<ShaderInfo>], number: usize) -> Option<&ShaderInfo>
    ensures { let shader = shader_in (shaders_view shaders.now) number in
        MatchOption result (shader ≡ None) (λ info. shader ≡ Some (shader_view info.now)) }
{
    if number >= shaders.len() {
        return None;
    }
    match &shaders[number] {
        Some(info) => Some(info),
        None => None,
    }
}

/// What is known of a record's shader, by the handle for its code.
#[tactic(auto, unfolding(crate::specs::Sources::shader_of))]
pub(crate) fn shader_of<'a>(
    known: &Known<'a, '_>,
    source: Source,
    stage: u32,
) -> Option<&'a ShaderInfo>
    requires placed { IsPlaced source }
    requires stage { stage < 3 }
    ensures { let shader = shader_of known.now source stage in
        MatchOption result (shader ≡ None) (λ info. shader ≡ Some (shader_view info.now)) }
{
    let index = word_at(known.job.records, source.at + 4 * stage as usize);
    match known.job.handles.as_slice().get(index as usize) {
        Some(number) => known_in(known.shaders, *number as usize),
        None => None,
    }
}

/// The bytes of uniforms that it takes.
pub(crate) fn taken(known: &Known, source: Source, stage: u32) -> u128
    requires placed { IsPlaced source }
    requires stage { stage < 3 }
    ensures value { result ≡ taken known.now source stage }
    ensures limit { result < 2 ^ 67 }
{
    match shader_of(known, source, stage) {
        Some(info) => 4 * words_taken(info.samples.len(), info.uniforms),
        None => 0,
    }
}

// Where the uniforms of a record's shaders end.
#[tactic(auto, unfolding(crate::specs::Sources::uniforms_end))]
fn uniforms_end(known: &Known, source: Source) -> u128
    requires { IsPlaced source }
    ensures value { result ≡ uniforms_end known.now source }
    ensures limit { result ≤ source.from + 2 ^ 69 }
{
    source.from + taken(known, source, 0) + taken(known, source, 1) + taken(known, source, 2)
}

// Where a record ends, behind its handles.
#[tactic(auto, unfolding(crate::specs::Sources::record_end))]
fn record_end(source: Source) -> usize
    requires { IsPlaced source }
    ensures value { result ≡ record_end source }
    ensures limit { result ≤ source.at + 176 }
{
    source.at + source_size(source.state)
}

// Where the bytes of a part end that are a record's, or its shaders'.
#[tactic(auto, unfolding(crate::specs::Sources::end_in))]
fn end_in(known: &Known, part: Part, source: Source) -> u128
    requires { IsPlaced source }
    ensures { result ≡ end_in known.now part source }
{
    match part {
        Part::Uniforms => uniforms_end(known, source),
        _ => record_end(source) as u128,
    }
}

// The record of a binner list's states that has the byte at a place, or whose shaders take it.
#[tactic(auto, unfolding(crate::specs::Sources::source_among), using(crate::proofs::Walk::states_here, crate::proofs::Walk::states_past, crate::proofs::Walk::states_none))]
fn source_in(known: &Known, list: &[u8], place: Place) -> Option<Source>
    requires { length list.now ≤ most_list }
    ensures value { result ≡ source_among known.now place (states_of (packets list.now)) 0 0 }
    ensures placed { IfSome result IsPlaced }
{
    let mut at = 0usize;
    let mut from = 0u128;
    let mut rest = list;
    while !rest.is_empty() {
        let (packet, behind) = split_front(rest);
        if packet[0] == GL_SHADER_STATE {
            let source = Source {
                at,
                state: word_at(packet, 1),
                most: greatest(behind),
                from,
            };
            if u128::from(place.at) < end_in(known, place.part, source) {
                return Some(source);
            }
            at = record_end(source);
            from = uniforms_end(known, source);
        }
        rest = behind;
    }
    None
}

// The bytes of a job's uniforms, or of its records.
#[tactic(auto, unfolding(crate::specs::Sources::part_size))]
fn part_size(job: &JobParts, part: Part) -> u64
    ensures { result ≡ part_size (job_parts_view job.now) part }
{
    match part {
        Part::Uniforms => job.uniforms.len() as u64,
        _ => job.records.len() as u64,
    }
}

/// The record of a job that has the byte at a place of the records, or whose shaders take the one at a place of the uniforms.
#[tactic(auto, unfolding(crate::specs::Sources::source_at, crate::specs::Sources::part_size))]
pub(crate) fn source_at(known: &Known, place: Place) -> Option<Source>
    ensures value { result ≡ source_at known.now place }
    ensures placed { IfSome result IsPlaced }
    ensures inside { IfSome result (λ _. place.at < 2 ^ 32) }
{
    if place.at > part_size(known.job, place.part) {
        return None;
    }
    source_in(known, known.job.bin, place)
}

/// The shader of a record that takes the uniforms at a byte.
#[tactic(auto, unfolding(crate::specs::Sources::user_of))]
pub(crate) fn user_of(known: &Known, source: Source, byte: u64) -> User
    requires { IsPlaced source }
    ensures value { result ≡ user_of known.now source byte }
    ensures limits { IsUser result }
{
    let byte = u128::from(byte);
    let second = source.from + taken(known, source, 0);
    let third = second + taken(known, source, 1);
    let (stage, from) = if byte < second {
        (0, source.from)
    } else if byte < third {
        (1, second)
    } else {
        (2, third)
    };
    User { stage, from }
}
