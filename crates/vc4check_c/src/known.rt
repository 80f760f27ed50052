//! What a submission's blocks tell of its shaders.
ghost use Rattle.std.specs.Prelude.{◌≡◌, length, map, slice_get, Some, IfOk, IfSome};
ghost use Rattle.shader_records.specs.Inputs.{shader_option, shaders_view};
ghost use Rattle.vc4check_c.specs.Block.{IsReadable};
ghost use Rattle.vc4check_c.specs.Telling.{read_in, findings_by_block, AreReadable};

use crate::block::{findings_in_block, shader_in_block};
use crate::submission::GivenBuffer;
use qpu_isa::ShaderInfo;
use std::alloc::{AllocError, Global};
use strict_check::Findings;

/// What a buffer's block tells of its shader, of which a data buffer has none; and `None` where the block can't be read.
#[tactic(auto, unfolding(crate::specs::Telling::read_in))]
fn shader_at(alloc: Global, given: &GivenBuffer) -> Result<Option<Option<ShaderInfo>>, AllocError>
    ensures { IfOk result (λ found. IfSome found (λ shader.
        (shader_option shader ≡ read_in given.now) × (given.now.kind ≡ 1 → IsReadable given.now.known.now))) }
{
    if given.kind != 1 {
        return Ok(Some(None));
    }
    match shader_in_block(alloc, given.known)? {
        Some(info) => Ok(Some(Some(info))),
        None => Ok(None),
    }
}

/// Buffer `b`.
fn buffer_at<'b, 'a>(buffers: &'b [GivenBuffer<'a>], b: usize) -> Option<&'b GivenBuffer<'a>>
    ensures { IfSome result (λ given. slice_get buffers.now b ≡ Some given.now) }
{
    buffers.get(b)
}

/// What the blocks of all buffers tell of their shaders, one entry for each buffer; `None` where one can't be read.
pub(crate) fn shaders_in(
    alloc: Global,
    buffers: &[GivenBuffer],
) -> Result<Option<Vec<Option<ShaderInfo>>>, AllocError>
    ensures { IfOk result (λ found. IfSome found (λ shaders.
        (shaders_view shaders.items ≡ map read_in buffers.now) × AreReadable buffers.now (length buffers.now))) }
{
    let mut shaders = Vec::with_capacity(alloc, buffers.len())?;
    for b in 0..buffers.len() {
        let given = match buffer_at(buffers, b) {
            Some(given) => given,
            None => return Ok(None),
        };
        let found = shader_at(alloc, given)?;
        match found {
            Some(shader) => shaders.push(shader)?,
            None => return Ok(None),
        }
    }
    Ok(Some(shaders))
}

/// What a buffer's block tells of the strict check of its shader, of which a data buffer has none.
#[tactic(auto, unfolding(crate::specs::Telling::findings_by_block))]
fn findings_by_block(given: &GivenBuffer) -> Findings
    ensures { result ≡ findings_by_block given.now }
{
    if given.kind == 1 {
        findings_in_block(given.known)
    } else {
        Findings::nothing()
    }
}

/// What the blocks of all buffers tell of it, one entry for each buffer.
pub(crate) fn findings_in(
    alloc: Global,
    buffers: &[GivenBuffer],
) -> Result<Vec<Findings>, AllocError>
    ensures { IfOk result (λ findings. findings.items ≡ map findings_by_block buffers.now) }
{
    let mut findings = Vec::with_capacity(alloc, buffers.len())?;
    for given in buffers {
        findings.push(findings_by_block(given))?;
    }
    Ok(findings)
}
