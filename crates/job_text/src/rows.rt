//! The fields of a binner list's packets.
ghost use Rattle.std.specs.Prelude.{◌≡◌, ◌++◌, OnOk};
ghost use Rattle.job_text.specs.Rows.{packet_row, packet_text, field_valued, fields_text};

use crate::meanings::put_meaning;
use crate::names::{field_row, field_size};
use crate::note::Field;
use crate::numbers::put_number;
use field_words::word_at;
use packets::opcode::{
    ARRAY_PRIMITIVE_LIST, BUFFER_HANDLES, CLIP_WINDOW, CLIPPER_XY_SCALING, CLIPPER_Z_SCALING,
    CONFIGURATION_BITS, DEPTH_OFFSET, FLAT_SHADE_FLAGS, FLUSH, GL_SHADER_STATE, HALT,
    INCREMENT_SEMAPHORE, INDEXED_PRIMITIVE_LIST, LINE_WIDTH, NOP, POINT_SIZE,
    PRIMITIVE_LIST_FORMAT, RHT_X_BOUNDARY, START_TILE_BINNING, TILE_BINNING_MODE, VIEWPORT_OFFSET,
};
use std::alloc::AllocError;

/// Appends a field's name and number, and what the number means.
#[tactic(auto, unfolding(crate::specs::Rows::field_valued))]
pub(crate) fn put_valued(out: &mut Vec<u8>, field: Field, bytes: &[u8]) -> Result<(), AllocError>
    ensures { OnOk result (out.new.items ≡ out.old.items ++ field_valued field bytes.now) }
{
    let value = word_at(bytes, 0);
    out.extend_from_slice(field_row(field).0.as_bytes())?;
    out.extend_from_slice(b" ")?;
    put_number(out, value as usize)?;
    put_meaning(out, field, value)?;
    Ok(())
}

// Appends the fields that bytes hold one after the other.
fn put_fields(out: &mut Vec<u8>, fields: &[Field], bytes: &[u8]) -> Result<(), AllocError>
    ensures { OnOk result (out.new.items ≡ out.old.items ++ fields_text fields.now bytes.now) }
{
    let mut rest = bytes;
    for field in fields {
        let (front, back) = rest.split_at(field_size(*field).min(rest.len()));
        out.extend_from_slice(b", ")?;
        put_valued(out, *field, front)?;
        rest = back;
    }
    Ok(())
}

const INDEXED_PRIMITIVES: [Field; 4] = [
    Field::IndexMode,
    Field::Length,
    Field::Address,
    Field::MaxIndex,
];

const WINDOW: [Field; 4] = [
    Field::ClipLeft,
    Field::ClipBottom,
    Field::Width,
    Field::Height,
];

const BINNING: [Field; 6] = [
    Field::ListsAddress,
    Field::ListsBytes,
    Field::StatesAddress,
    Field::TilesAcross,
    Field::TilesDown,
    Field::BinnerFlags,
];

// The name of the packet of an opcode.
#[tactic(auto, unfolding(crate::specs::Rows::packet_row))]
fn packet_name(opcode: u8) -> &'static str
    ensures { result.now ≡ (packet_row opcode).0 }
{
    match opcode {
        HALT => "halt",
        NOP => "nop",
        FLUSH => "flush",
        START_TILE_BINNING => "start of tile binning",
        INCREMENT_SEMAPHORE => "increment of the semaphore",
        INDEXED_PRIMITIVE_LIST => "indexed primitive list",
        ARRAY_PRIMITIVE_LIST => "array primitive list",
        PRIMITIVE_LIST_FORMAT => "primitive list format",
        GL_SHADER_STATE => "GL shader state",
        CONFIGURATION_BITS => "configuration bits",
        FLAT_SHADE_FLAGS => "flat shade flags",
        POINT_SIZE => "point size",
        LINE_WIDTH => "line width",
        RHT_X_BOUNDARY => "right hand triangle x boundary",
        DEPTH_OFFSET => "depth offset",
        CLIP_WINDOW => "clip window",
        VIEWPORT_OFFSET => "viewport offset",
        CLIPPER_XY_SCALING => "clipper xy scaling",
        CLIPPER_Z_SCALING => "clipper z scaling",
        TILE_BINNING_MODE => "tile binning mode configuration",
        BUFFER_HANDLES => "buffer handles",
        _ => "no packet",
    }
}

// The fields behind an opcode, in order.
#[tactic(auto, unfolding(crate::specs::Rows::packet_row))]
fn packet_fields(opcode: u8) -> &'static [Field]
    ensures { result.now ≡ (packet_row opcode).1 }
{
    match opcode {
        INDEXED_PRIMITIVE_LIST => &INDEXED_PRIMITIVES,
        ARRAY_PRIMITIVE_LIST => &[Field::PrimitiveMode, Field::Length, Field::FirstIndex],
        PRIMITIVE_LIST_FORMAT => &[Field::ListFormat],
        GL_SHADER_STATE => &[Field::StateWord],
        CONFIGURATION_BITS => &[Field::ConfigurationBits],
        FLAT_SHADE_FLAGS => &[Field::FlatFlags],
        POINT_SIZE | LINE_WIDTH => &[Field::PointWidth],
        RHT_X_BOUNDARY => &[Field::Boundary],
        DEPTH_OFFSET => &[Field::DepthFactor, Field::DepthUnits],
        CLIP_WINDOW => &WINDOW,
        VIEWPORT_OFFSET => &[Field::CenterX, Field::CenterY],
        CLIPPER_XY_SCALING => &[Field::ScaleX, Field::ScaleY],
        CLIPPER_Z_SCALING => &[Field::ScaleZ, Field::OffsetZ],
        TILE_BINNING_MODE => &BINNING,
        BUFFER_HANDLES => &[Field::IndexHandle, Field::FurtherHandle],
        _ => &[],
    }
}

/// Appends the name of the packet of an opcode and its fields, of which the bytes behind the opcode are given.
#[tactic(auto, unfolding(crate::specs::Rows::packet_text))]
pub(crate) fn put_packet_row(out: &mut Vec<u8>, opcode: u8, bytes: &[u8]) -> Result<(), AllocError>
    ensures { OnOk result (out.new.items ≡ out.old.items ++ packet_text opcode bytes.now) }
{
    out.extend_from_slice(packet_name(opcode).as_bytes())?;
    put_fields(out, packet_fields(opcode), bytes)?;
    Ok(())
}
