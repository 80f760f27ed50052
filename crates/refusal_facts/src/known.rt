//! A job as its facts are told, and the buffers that its handles name.
ghost use Rattle.std.specs.Prelude.{◌≡◌};
ghost use Rattle.refusal_facts.specs.Named.{owner_of, handle_at, numbered, named, name_at, end_at};

use crate::fact::{BufferFact, EndFact, HandleFact, NameFact};
use buffer_table::Buffer;
use job_format::JobParts;
use qpu_isa::ShaderInfo;
use std::marker::Model;

/// A job, the buffers of its file, and what is known of the shaders by buffer.
#[derive(Drop)]
pub(crate) struct Known<'a, 'b> {
    pub(crate) job: &'a JobParts<'b>,
    pub(crate) buffers: &'a [Buffer],
    pub(crate) shaders: &'a [Option<ShaderInfo>],
}

impl<'a, 'b> Model for Known<'a, 'b> {
    ghost use Rattle.refusal_facts.specs.Named.{KnownModel};
    ghost use Rattle.job_format.specs.File.{IsJobWellFormed};
    ghost use Rattle.job_format.specs.Parts.{job_parts_view};
    ghost use Rattle.shader_records.specs.Inputs.{shaders_view};

    ghost Value = { KnownModel };

    ghost view = { λ k. record {
      job = job_parts_view k.job.now;
      buffers = k.buffers.now;
      shaders = shaders_view k.shaders.now;
    } };

    ghost invariant = { λ k. IsJobWellFormed (job_parts_view k.job.now) };
}

// The client that a buffer belongs to.
fn owner_of(buffers: &[Buffer], number: u32) -> Option<u32>
    ensures { result ≡ owner_of buffers.now number }
{
    Some(buffers.get(number as usize)?.client)
}

/// H1: the buffer that handle `i` of the job names, and whose it is.
#[tactic(auto, unfolding(crate::specs::Named::handle_at))]
pub(crate) fn handle_at(known: &Known, i: u64) -> Option<HandleFact>
    ensures { result ≡ handle_at known.now i }
{
    let number = *known.job.handles.as_slice().get(i as usize)?;
    Some(HandleFact {
        client: known.job.client,
        number,
        owner: owner_of(known.buffers, number),
    })
}

// The buffer of a number.
fn numbered(buffers: &[Buffer], number: u32) -> Option<BufferFact>
    ensures { result ≡ numbered buffers.now number }
{
    let buffer = buffers.get(number as usize)?;
    Some(BufferFact {
        number,
        size: buffer.size,
        kind: buffer.kind,
    })
}

/// The buffer that the handle of an index names.
#[tactic(auto, unfolding(crate::specs::Named::named))]
pub(crate) fn named(known: &Known, index: u32) -> Option<BufferFact>
    ensures { result ≡ named known.now index }
{
    let number = *known.job.handles.as_slice().get(index as usize)?;
    numbered(known.buffers, number)
}

/// A3, A4 and G6: the handle of an index, and the buffer that it names.
pub(crate) fn name_at(known: &Known, index: u32) -> NameFact
    ensures { result ≡ name_at known.now index }
{
    NameFact {
        index,
        handles: known.job.handles.as_slice().len() as u64,
        named: named(known, index),
    }
}

/// What ends at a place in the buffer that the handle of an index names.
#[tactic(auto, unfolding(crate::specs::Named::end_at))]
pub(crate) fn end_at(known: &Known, index: u32, end: u64) -> Option<EndFact>
    ensures { result ≡ end_at known.now index end }
{
    let buffer = named(known, index)?;
    Some(EndFact { buffer, end })
}
