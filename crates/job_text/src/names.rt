//! The names of what a file has.
ghost use Rattle.std.specs.Prelude.{◌≡◌, ◌++◌, decimal, OnOk};
ghost use Rattle.job_text.specs.Names.{named_text, role_name, stage_name, field_name, field_size, part_text, of_job};

use crate::note::{Field, Part, Role, Stage};
use crate::numbers::put_number;
use std::alloc::AllocError;

fn role_name(role: Role) -> &'static str
    ensures { result.now ≡ role_name role }
{
    match role {
        Role::ColorRead => "colour read",
        Role::ColorWrite => "colour write",
        Role::ZsRead => "ZS read",
        Role::ZsWrite => "ZS write",
        Role::SampleColorWrite => "multisample colour write",
        Role::SampleZsWrite => "multisample ZS write",
    }
}

pub(crate) fn stage_name(stage: Stage) -> &'static str
    ensures { result.now ≡ stage_name stage }
{
    match stage {
        Stage::Fragment => "fragment shader",
        Stage::Vertex => "vertex shader",
        Stage::Coordinate => "coordinate shader",
    }
}

/// Appends the buffer that a handle names, where it names one.
pub(crate) fn put_named(out: &mut Vec<u8>, buffer: Option<usize>) -> Result<(), AllocError>
    ensures { OnOk result (out.new.items ≡ out.old.items ++ named_text buffer) }
{
    if let Some(buffer) = buffer {
        out.extend_from_slice(b" (buffer ")?;
        put_number(out, buffer)?;
        out.extend_from_slice(b")")?;
    }
    Ok(())
}

/// The name of a field, and how many bytes it has.
pub(crate) fn field_row(field: Field) -> (&'static str, usize)
    ensures name { result.0.now ≡ field_name field }
    ensures size { result.1 ≡ field_size field }
{
    match field {
        Field::Plain(name, size) => (name, size),
        Field::Word(name) => (name, 4),
        Field::Kind => ("kind", 4),
        Field::Flags => ("flags", 4),
        Field::Width => ("width", 2),
        Field::Height => ("height", 2),
        Field::HandleIndex => ("handle's index", 4),
        Field::FrameBits => ("bits", 2),
        Field::GeneralBits => ("bits", 2),
        Field::SurfaceFlags => ("flags", 2),
        Field::PrimitiveMode => ("mode", 1),
        Field::IndexMode => ("mode and index type", 1),
        Field::Length => ("length", 4),
        Field::FirstIndex => ("first index", 4),
        Field::MaxIndex => ("maximum index", 4),
        Field::ListFormat => ("format", 1),
        Field::StateWord => ("word", 4),
        Field::ConfigurationBits => ("bits", 3),
        Field::FlatFlags => ("flags", 4),
        Field::PointWidth => ("value", 4),
        Field::Boundary => ("boundary", 2),
        Field::DepthFactor => ("factor", 2),
        Field::DepthUnits => ("units", 2),
        Field::ClipLeft => ("left", 2),
        Field::ClipBottom => ("bottom", 2),
        Field::CenterX => ("x", 2),
        Field::CenterY => ("y", 2),
        Field::ScaleX => ("x scale", 4),
        Field::ScaleY => ("y scale", 4),
        Field::ScaleZ => ("z scale", 4),
        Field::OffsetZ => ("z offset", 4),
        Field::ListsAddress => ("allocation address", 4),
        Field::ListsBytes => ("allocation size", 4),
        Field::StatesAddress => ("state address", 4),
        Field::TilesAcross => ("tiles across", 1),
        Field::TilesDown => ("tiles down", 1),
        Field::BinnerFlags => ("flags", 1),
        Field::IndexHandle => ("handle of the index buffer", 4),
        Field::FurtherHandle => ("further handle", 4),
        Field::RecordFlags => ("flags", 2),
        Field::Address => ("address", 4),
    }
}

pub(crate) fn field_size(field: Field) -> usize
    ensures { result ≡ field_size field }
{
    field_row(field).1
}

/// Appends a job's number, and what is said of a part of it.
#[tactic(auto, unfolding(crate::specs::Names::of_job))]
pub(crate) fn put_of_job(out: &mut Vec<u8>, job: u32, text: &[u8]) -> Result<(), AllocError>
    ensures { OnOk result (out.new.items ≡ out.old.items ++ of_job job text.now) }
{
    out.extend_from_slice(b"job ")?;
    put_number(out, job as usize)?;
    out.extend_from_slice(b" ")?;
    out.extend_from_slice(text)
}

/// Appends a job's number, the name and the number of a thing of which it has several, and what is said of a part of that.
#[tactic(auto, unfolding(crate::specs::Names::of_job))]
pub(crate) fn put_counted(
    out: &mut Vec<u8>,
    job: u32,
    name: &[u8],
    index: usize,
    text: &[u8],
) -> Result<(), AllocError>
    ensures { OnOk result (out.new.items ≡ out.old.items
        ++ of_job job (name.now ++ (decimal index ++ text.now))) }
{
    put_of_job(out, job, name)?;
    put_number(out, index)?;
    out.extend_from_slice(text)
}

// Appends the name of a record's shader.
#[tactic(auto, unfolding(crate::specs::Names::of_job))]
fn put_stage(out: &mut Vec<u8>, job: u32, index: usize, stage: Stage) -> Result<(), AllocError>
    ensures { OnOk result (out.new.items ≡ out.old.items
        ++ part_text (Part.Shader job index stage)) }
{
    put_counted(out, job, b"record ", index, b" ")?;
    out.extend_from_slice(stage_name(stage).as_bytes())
}

// Appends the name of a record's attribute.
#[tactic(auto, unfolding(crate::specs::Names::of_job))]
fn put_attribute(
    out: &mut Vec<u8>,
    job: u32,
    index: usize,
    attribute: usize,
) -> Result<(), AllocError>
    ensures { OnOk result (out.new.items ≡ out.old.items
        ++ part_text (Part.Attribute job index attribute)) }
{
    put_counted(out, job, b"record ", index, b" attribute ")?;
    put_number(out, attribute)
}

#[tactic(auto, unfolding(crate::specs::Names::of_job))]
pub(crate) fn put_part(out: &mut Vec<u8>, part: Part) -> Result<(), AllocError>
    ensures { OnOk result (out.new.items ≡ out.old.items ++ part_text part) }
{
    match part {
        Part::Header => out.extend_from_slice(b"header"),
        Part::Buffer(b) => {
            out.extend_from_slice(b"buffer ")?;
            put_number(out, b as usize)
        }
        Part::Job(j) => {
            out.extend_from_slice(b"job ")?;
            put_number(out, j as usize)
        }
        Part::Surface(j, role) => put_of_job(out, j, role_name(role).as_bytes()),
        Part::Record(j, k) => put_counted(out, j, b"record ", k, b""),
        Part::Shader(j, k, stage) => put_stage(out, j, k, stage),
        Part::Attribute(j, k, t) => put_attribute(out, j, k, t),
    }
}
