//! The facts of a refusal.
ghost use Rattle.std.specs.Prelude.{◌≡◌, ◌<◌, ◌^◌, IfOk};
ghost use Rattle.job_format.specs.Parts.{parts_view};
ghost use Rattle.job_format.specs.File.{IsWellFormed};
ghost use Rattle.shader_records.specs.Inputs.{shaders_view};
ghost use Rattle.refusal_facts.specs.Whole.{item_facts, table_facts, uniform_facts, job_facts, shaders_for, file_facts, stage_facts, facts_of};

use crate::fact::{Facts, PastFact};
use crate::format::cut_at;
use crate::known::{Known, handle_at};
use crate::lists::bin_facts;
use crate::records::record_facts;
use crate::region::region_room;
use crate::sources::source_at;
use crate::surfaces::frame_facts;
use crate::table::{content_room, index_of, item_fact, pair_at};
use crate::textures::texture_end;
use field_words::{NoMemory, Stop};
use job_check::{job_at, shaders_stage};
use job_format::{FileParts, Place, Refusal, Rule, Stage, read_parts};
use qpu_isa::ShaderInfo;
use std::alloc::Global;

// M2 to M5, of an item of the memory table.
fn item_facts(file: &FileParts, number: u8, k: u64) -> Option<Facts>
    requires { k < 2 ^ 33 }
    ensures { result ≡ item_facts (parts_view file.now) number k }
{
    let regions = &file.regions;
    let buffers = &file.buffers;
    match number {
        2 => Some(Facts::Off(item_fact(regions, buffers, k))),
        3 => Some(Facts::Past(PastFact {
            item: item_fact(regions, buffers, k),
            memory: file.mem_size,
        })),
        4 => Some(Facts::Pair(pair_at(regions, buffers, k)?)),
        5 => Some(Facts::Room(content_room(regions, buffers, k))),
        _ => None,
    }
}

// M2 to M5, where there is such an item.
#[tactic(auto, unfolding(crate::specs::Whole::table_facts))]
fn table_facts(file: &FileParts, number: u8, k: u64) -> Option<Facts>
    requires { k < 2 ^ 33 }
    ensures { result ≡ table_facts (parts_view file.now) number k }
{
    if k >= 2 + file.buffers.len() as u64 {
        return None;
    }
    item_facts(file, number, k)
}

// U7, of a job, at a place in its uniforms.
fn uniform_facts(known: &Known, number: u8, place: Place) -> Option<Facts>
    ensures { result ≡ uniform_facts known.now number place }
{
    match number {
        7 => {
            let source = source_at(known, place)?;
            Some(Facts::Level(texture_end(known, source, place.at)?))
        }
        _ => None,
    }
}

// H1, B, A, U and G, of a job, at a place in its handles, its binner list, its records, its uniforms or its entry.
#[tactic(auto, unfolding(crate::specs::Whole::job_facts))]
fn job_facts(known: &Known, rule: Rule, place: Place) -> Option<Facts>
    ensures { result ≡ job_facts known.now rule.stage rule.number place }
{
    let Rule { stage, number } = rule;
    match stage {
        Stage::H => Some(Facts::Handle(handle_at(known, place.at / 4)?)),
        Stage::B => bin_facts(known, number, place.at),
        Stage::A => record_facts(known, source_at(known, place)?, number, place.at),
        Stage::U => uniform_facts(known, number, place),
        Stage::G => {
            let k = place.at.saturating_sub(36) / 12;
            frame_facts(known, number, k as usize)
        }
        _ => None,
    }
}

// What is known of the shaders, for a rule of this stage.
#[tactic(auto, unfolding(crate::specs::Whole::shaders_for))]
fn shaders_for(
    alloc: Global,
    file: &FileParts,
    stage: Stage,
) -> Result<Vec<Option<ShaderInfo>>, NoMemory>
    requires { IsWellFormed (parts_view file.now) }
    ensures { IfOk result (λ shaders. shaders_view shaders.items
        ≡ shaders_for (parts_view file.now) stage) }
{
    match stage {
        Stage::A | Stage::U => match shaders_stage(alloc, file) {
            Ok(shaders) => Ok(shaders),
            Err(Stop::Fault(_)) => Ok(Vec::new(alloc)),
            Err(Stop::NoMemory) => Err(NoMemory),
        },
        _ => Ok(Vec::new(alloc)),
    }
}

// Of a file that was read: M, and X1 and the others of a job of this number, where there is one.
#[tactic(auto, unfolding(crate::specs::Whole::file_facts))]
fn file_facts(
    file: &FileParts,
    shaders: &[Option<ShaderInfo>],
    rule: Rule,
    place: Place,
) -> Option<Facts>
    requires { IsWellFormed (parts_view file.now) }
    ensures { result ≡ file_facts (parts_view file.now) (shaders_view shaders.now)
        rule.stage rule.number place }
{
    let j = place.index as usize;
    match rule.stage {
        Stage::M => table_facts(file, rule.number, index_of(place)),
        _ if j >= file.jobs.len() => None,
        Stage::X => Some(Facts::Region(region_room(file, j))),
        _ => {
            let known = Known {
                job: job_at(file, j),
                buffers: &file.buffers,
                shaders,
            };
            job_facts(&known, rule, place)
        }
    }
}

// By stage: those of the format of the bytes, and all others of the file that the bytes hold, where they hold one.
#[tactic(auto, unfolding(crate::specs::Whole::stage_facts))]
fn stage_facts(alloc: Global, bytes: &[u8], refusal: Refusal) -> Result<Option<Facts>, NoMemory>
    ensures { IfOk result (λ facts. facts
        ≡ stage_facts bytes.now refusal.rule.stage refusal.rule.number refusal.place) }
{
    let Refusal { rule, place } = refusal;
    match (rule.stage, rule.number) {
        (Stage::F, 2) => Ok(Some(Facts::Room(cut_at(bytes, place)))),
        (Stage::F, _) => Ok(None),
        _ => match read_parts(alloc, bytes) {
            Ok(file) => {
                let shaders = shaders_for(alloc, &file, rule.stage)?;
                Ok(file_facts(&file, &shaders, rule, place))
            }
            Err(Stop::Fault(_)) => Ok(None),
            Err(Stop::NoMemory) => Err(NoMemory),
        },
    }
}

/// The facts of a refusal of these bytes. A refusal that isn't theirs has some, or none.
#[tactic(auto, unfolding(crate::specs::Whole::facts_of))]
pub fn facts_of(alloc: Global, bytes: &[u8], refusal: Refusal) -> Result<Facts, NoMemory>
    ensures { IfOk result (λ facts. facts ≡ facts_of bytes.now refusal) }
{
    let facts = stage_facts(alloc, bytes, refusal)?;
    Ok(facts.unwrap_or(Facts::Nothing))
}
