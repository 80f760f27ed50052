//! The facts of shader records.
ghost use Rattle.std.specs.Prelude.{◌≡◌, ◌+◌, ◌*◌, ◌<◌, ◌≤◌, ◌^◌};
ghost use Rattle.emitted_facts.specs.Records.{attribute_stride};
ghost use Rattle.refusal_facts.specs.Records.{record_at, record_word, room, threads_of, use_fact, attribute_of, attribute_at, vertex_at, record_facts};
ghost use Rattle.refusal_facts.specs.Sources.{IsPlaced, IsUser};

use crate::fact::{AttributeFact, Facts, RoomFact, ThreadFact, UseFact, VertexFact};
use crate::known::{Known, name_at, named};
use crate::sources::{Source, User, shader_of, taken, user_of};
use field_words::word_at;
use packets::{is_extended, record_size};
use shader_records::handles_size;

// Where a record begins, behind its handles.
fn record_at(source: Source) -> usize
    requires { IsPlaced source }
    ensures value { result ≡ record_at source }
    ensures limit { result ≤ source.at + 44 }
{
    source.at + handles_size(source.state)
}

// A word of the record of a source.
#[tactic(auto, unfolding(shader_records::specs::Sources::word_from))]
fn record_word(known: &Known, source: Source, i: usize) -> u32
    requires placed { IsPlaced source }
    requires i { i < 2 ^ 32 }
    ensures { result ≡ record_word known.now source i }
{
    word_at(known.job.records, record_at(source) + 4 * i)
}

// A1 and A2: so many bytes of the records are needed from a place on.
fn room(known: &Known, needs: usize, at: u64) -> RoomFact
    ensures { result ≡ room known.now needs at }
{
    RoomFact {
        needs: needs as u64,
        has: (known.job.records.len() as u64).saturating_sub(at),
    }
}

// A5: what the flags say of the fragment shader, and what it does.
#[tactic(auto, unfolding(crate::specs::Records::threads_of, emitted_facts::specs::Records::is_single))]
fn threads_of(known: &Known, source: Source) -> Option<ThreadFact>
    requires { IsPlaced source }
    ensures { result ≡ threads_of known.now source }
{
    let index = word_at(known.job.records, source.at);
    let buffer = *known.job.handles.as_slice().get(index as usize)?;
    let threaded = match shader_of(known, source, 0) {
        Some(info) => info.threaded,
        None => false,
    };
    Some(ThreadFact {
        buffer,
        single: record_word(known, source, 0) % 2 == 1,
        threaded,
    })
}

// A8: the bytes of uniforms that a shader of a record takes and that are left.
fn use_fact(known: &Known, source: Source, user: User) -> UseFact
    requires placed { IsPlaced source }
    requires user { IsUser user }
    ensures { result ≡ use_fact known.now source user }
{
    UseFact {
        stage: user.stage,
        needs: taken(known, source, user.stage),
        has: (known.job.uniforms.len() as u128).saturating_sub(user.from) as u64,
    }
}

// The number of the attribute whose two words have a byte of the records.
fn attribute_of(source: Source, at: u64) -> usize
    requires source { IsPlaced source }
    requires at { at < 2 ^ 32 }
    ensures value { result ≡ attribute_of source at }
    ensures limit { result < 2 ^ 29 }
{
    (at as usize)
        .saturating_sub(record_at(source))
        .saturating_sub(36)
        / 8
}

// A9 of attribute `t`.
#[tactic(auto, unfolding(crate::specs::Records::attribute_at, emitted_facts::specs::Records::attribute_size))]
fn attribute_at(known: &Known, source: Source, t: usize) -> Option<AttributeFact>
    requires placed { IsPlaced source }
    requires few { t < 2 ^ 29 }
    ensures { result ≡ attribute_at known.now source t }
{
    let index = word_at(known.job.records, source.at + (12 + 4 * t));
    Some(AttributeFact {
        buffer: named(known, index)?,
        address: record_word(known, source, 9 + 2 * t),
        length: record_word(known, source, 10 + 2 * t) % 256 + 1,
    })
}

// From a vertex's data to the next vertex's, of attribute `t`.
#[tactic(auto, unfolding(emitted_facts::specs::Records::attribute_stride))]
fn attribute_stride(known: &Known, source: Source, t: usize) -> u32
    requires placed { IsPlaced source }
    requires few { t < 2 ^ 29 }
    ensures { result ≡ attribute_stride source.state (record_word known.now source) t }
{
    let low = record_word(known, source, 10 + 2 * t) / 256 % 256;
    if is_extended(source.state) {
        low + 256 * (record_word(known, source, 25 + t) / 256)
    } else {
        low
    }
}

// A10 of attribute `t`.
#[tactic(auto, unfolding(crate::specs::Records::vertex_at))]
fn vertex_at(known: &Known, source: Source, t: usize) -> Option<VertexFact>
    requires placed { IsPlaced source }
    requires few { t < 2 ^ 29 }
    ensures { result ≡ vertex_at known.now source t }
{
    Some(VertexFact {
        attribute: attribute_at(known, source, t)?,
        stride: attribute_stride(known, source, t),
        index: source.most,
    })
}

/// A1 to A5, A9 and A10, of a record, at a byte of the records, and A8 at one of the uniforms.
#[tactic(auto, unfolding(crate::specs::Records::record_facts))]
pub(crate) fn record_facts(known: &Known, source: Source, number: u8, at: u64) -> Option<Facts>
    requires placed { IsPlaced source }
    requires at { at < 2 ^ 32 }
    ensures { result ≡ record_facts known.now number at source }
{
    let t = attribute_of(source, at);
    match number {
        1 => Some(Facts::Room(room(known, handles_size(source.state), at))),
        2 => Some(Facts::Room(room(known, record_size(source.state) as usize, at))),
        3 | 4 => {
            let index = word_at(known.job.records, at as usize);
            Some(Facts::Name(name_at(known, index)))
        }
        5 => Some(Facts::Threads(threads_of(known, source)?)),
        8 => {
            let user = user_of(known, source, at);
            Some(Facts::Use(use_fact(known, source, user)))
        }
        9 => Some(Facts::Attribute(attribute_at(known, source, t)?)),
        10 => Some(Facts::Vertex(vertex_at(known, source, t)?)),
        _ => None,
    }
}
