//! The text of all accesses of a run.
ghost use Rattle.std.specs.Prelude.{◌≡◌, ◌++◌, IfOk, OnOk};
ghost use Rattle.job_format.specs.Parts.{parts_view};
ghost use Rattle.run_text.specs.Log.{offset_text, spot_text, way_text, actor_text, reach_text, access_text, log_text};

use crate::spot::{Spot, spot_of};
use dumper::{ending_text, push_number, push_place, push_unit};
use field_words::{NoMemory, Way};
use job_format::FileParts;
use relocation::Layout;
use replay::{Log, Logged};
use std::alloc::{AllocError, Global};

/// Room for an access's line as it mostly is.
const ACCESS_LINE: usize = 64;

#[tactic(auto, unfolding(crate::specs::Log::offset_text))]
fn push_offset(
    alloc: Global,
    out: &mut Vec<u8>,
    name: &str,
    number: u64,
    offset: u64,
) -> Result<(), AllocError>
    ensures { OnOk result (out.new.items ≡ out.old.items ++ offset_text name.now number offset) }
{
    let text = format!(in alloc; "{name}{number} + 0x{offset:x}")?;
    out.extend_from_slice(text.as_bytes())
}

/// Appends what lies at a place: `buffer 3 + 0x40`.
#[tactic(auto, unfolding(crate::specs::Log::spot_text))]
pub fn push_spot(alloc: Global, out: &mut Vec<u8>, spot: Spot) -> Result<(), AllocError>
    ensures { OnOk result (out.new.items ≡ out.old.items ++ spot_text spot) }
{
    match spot {
        Spot::Slot(slot, offset) => push_offset(alloc, out, "slot ", slot, offset),
        Spot::BinList(job, offset) => push_offset(alloc, out, "binner list of job ", job, offset),
        Spot::Records(job, offset) => push_offset(alloc, out, "records of job ", job, offset),
        Spot::Uniforms(job, offset) => push_offset(alloc, out, "uniforms of job ", job, offset),
        Spot::RenderList(job, offset) => {
            push_offset(alloc, out, "renderer list of job ", job, offset)
        }
        Spot::Spare => out.extend_from_slice(b"no list"),
        Spot::InBuffer(number, offset) => push_offset(alloc, out, "buffer ", number, offset),
        Spot::Nowhere => out.extend_from_slice(b"nothing"),
    }
}

fn way_text(way: Way) -> &'static [u8]
    ensures { result.now ≡ way_text way }
{
    match way {
        Way::Read => b" read ",
        Way::Write => b" write ",
        Way::Wild => b" wild ",
    }
}

#[tactic(auto, unfolding(crate::specs::Log::actor_text))]
fn push_actor(out: &mut Vec<u8>, logged: &Logged) -> Result<(), AllocError>
    ensures { OnOk result (out.new.items ≡ out.old.items ++ actor_text logged.now) }
{
    push_number(out, logged.step)?;
    out.extend_from_slice(b" ")?;
    push_unit(out, logged.access.unit)?;
    out.extend_from_slice(b" job ")?;
    push_number(out, u32::from(logged.access.job))
}

#[tactic(auto, unfolding(crate::specs::Log::reach_text))]
fn push_reach(alloc: Global, out: &mut Vec<u8>, logged: &Logged) -> Result<(), AllocError>
    ensures { OnOk result (out.new.items ≡ out.old.items ++ reach_text logged.now) }
{
    out.extend_from_slice(way_text(logged.access.way))?;
    push_place(alloc, out, logged.access.place)?;
    out.extend_from_slice(b" ")?;
    push_number(out, logged.access.len)
}

#[tactic(auto, unfolding(crate::specs::Log::access_text))]
fn push_access(
    alloc: Global,
    out: &mut Vec<u8>,
    file: &FileParts,
    layouts: &[Layout],
    logged: &Logged,
) -> Result<(), AllocError>
    ensures { OnOk result (out.new.items ≡ out.old.items
        ++ access_text (parts_view file.now) layouts.now logged.now) }
{
    let spot = spot_of(file, layouts, logged.access.place);
    push_actor(out, logged)?;
    push_reach(alloc, out, logged)?;
    out.extend_from_slice(b" ")?;
    push_spot(alloc, out, spot)?;
    out.extend_from_slice(b"\n")
}

/// The text of all accesses of a run over the memory of a file, whose jobs' lists lie as these
/// layouts say: a line for each, and how the run ended after how many steps. A line has the number
/// of the step, from 0 on, its unit and its job, what it did, the place and how many bytes, and
/// what lies there.
#[tactic(auto, unfolding(crate::specs::Log::log_text))]
pub fn log_text(
    alloc: Global,
    file: &FileParts,
    layouts: &[Layout],
    log: &Log,
) -> Result<Vec<u8>, NoMemory>
    ensures { IfOk result (λ text. text.items
        ≡ log_text (parts_view file.now) layouts.now log.now) }
{
    let mut out = Vec::with_capacity(alloc, ACCESS_LINE.saturating_mul(log.accesses.len()))?;
    for logged in &log.accesses {
        push_access(alloc, &mut out, file, layouts, logged)?;
    }
    let ending = ending_text(alloc, log.ending, log.steps as usize)?;
    out.extend_from_slice(ending.as_bytes())?;
    Ok(out)
}
