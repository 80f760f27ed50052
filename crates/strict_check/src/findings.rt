//! What is found of the shaders of a file before any job is asked.
ghost use Rattle.std.specs.Prelude.{◌≡◌, ◌<◌, ◌≤◌, length, IfOk};
ghost use Rattle.field_words.specs.Sizes.{most_code};
ghost use Rattle.job_format.specs.File.{IsWellFormed};
ghost use Rattle.job_format.specs.Parts.{parts_view};
ghost use Rattle.job_check.specs.Shaders.{words_of};
ghost use Rattle.strict_check.specs.Findings.{findings_of, findings_nothing, findings_at, all_findings};

use crate::uses::Uses;
use buffer_table::Kind;
use field_words::NoMemory;
use job_check::{content_at, words_of};
use job_format::FileParts;
use shader_flow::flow;
use std::alloc::Global;
use strict_rules::{StrictFault, check_strict, has_tile_part, has_vpm_part};

/// What is found of a shader: the first of E1 to E7 that it breaks, if any, and what it uses.
#[derive(Clone, Copy, Debug, PartialEq, Eq)]
pub struct Findings {
    pub fault: Option<StrictFault>,
    pub uses: Uses,
}

impl Findings {
    /// What is found where there is no shader.
    pub fn nothing() -> Findings
        ensures { result ≡ findings_nothing }
    {
        Findings {
            fault: None,
            uses: Uses::nothing(),
        }
    }
}

/// What is found of the shader that these bytes hold.
///
/// # Errors
/// Want of memory.
#[tactic(auto, unfolding(crate::specs::Findings::findings_of, crate::specs::Uses::uses_of))]
pub fn findings_in(alloc: Global, bytes: &[u8]) -> Result<Findings, NoMemory>
    requires { length bytes.now ≤ most_code }
    ensures { IfOk result (λ findings. findings ≡ findings_of (words_of bytes.now)) }
{
    let code = words_of(alloc, bytes)?;
    let flow = flow(alloc, &code)?;
    let uses = Uses {
        vpm: has_vpm_part(&code, &flow),
        tile: has_tile_part(&code, &flow),
    };
    match check_strict(&code, &flow) {
        Ok(()) => Ok(Findings { fault: None, uses }),
        Err(fault) => Ok(Findings {
            fault: Some(fault),
            uses,
        }),
    }
}

/// What is found of the shader in buffer `b`, nothing where it is a data buffer.
#[tactic(auto, unfolding(crate::specs::Findings::findings_of, crate::specs::Findings::findings_at, crate::specs::Uses::uses_at, buffer_table::specs::Table::buffer_at))]
fn findings_at(alloc: Global, file: &FileParts, b: usize) -> Result<Findings, NoMemory>
    requires well_formed { IsWellFormed (parts_view file.now) }
    requires inside { b < length file.now.buffers.items }
    ensures { IfOk result (λ findings. findings ≡ findings_at (parts_view file.now) b) }
{
    match file.buffers[b].kind {
        Kind::Plain => Ok(Findings::nothing()),
        Kind::Code => findings_in(alloc, content_at(file, b)),
    }
}

/// What is found of the shaders of all buffers, one entry for each.
///
/// # Errors
/// Want of memory.
#[tactic(auto, using(crate::proofs::Named::findings_none, crate::proofs::Named::findings_more))]
pub fn all_findings(alloc: Global, file: &FileParts) -> Result<Vec<Findings>, NoMemory>
    requires { IsWellFormed (parts_view file.now) }
    ensures { IfOk result (λ findings. findings.items ≡ all_findings (parts_view file.now)) }
{
    let mut findings = Vec::with_capacity(alloc, file.buffers.len())?;
    for b in 0..file.buffers.len() {
        findings.push(findings_at(alloc, file, b)?)?;
    }
    Ok(findings)
}
