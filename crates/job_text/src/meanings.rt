//! What the number of a field means.
ghost use Rattle.std.specs.Prelude.{◌≡◌, ◌++◌, ◌%◌, ◌<◌, ◌^◌, codes, OnOk, IfSome};
ghost use Rattle.qpu_text.specs.Load.{hex_text};
ghost use Rattle.texture_layouts.specs.Format.{IsShort};
ghost use Rattle.texture_layouts.specs.Surface.{size_for};
ghost use Rattle.job_text.specs.Meanings.{tiling_name, style_text, bits_style, size_text, mode_name, index_text, kind_text, extended_text, state_text, flag_text, face_flags, edge_flags, depth_flags, flags_text, depth_text, configuration_text, field_meaning};
ghost use Rattle.qpu_text.specs.Pieces.{if_so};

use crate::floats::{put_float, put_sixteenths};
use crate::note::Field;
use crate::numbers::put_number;
use packets::{attribute_count, is_extended};
use qpu_text::{if_so, named, put_all, put_hex};
use std::alloc::AllocError;
use texture_layouts::{Style, Tiling, frame_style, general_style, surface_size};

pub(crate) fn tiling_name(tiling: Tiling) -> &'static str
    ensures { result.now ≡ tiling_name tiling }
{
    match tiling {
        Tiling::Raster => "raster",
        Tiling::T => "T",
        Tiling::Lt => "Lt",
    }
}

fn put_style(out: &mut Vec<u8>, style: Option<Style>) -> Result<(), AllocError>
    ensures { OnOk result (out.new.items ≡ out.old.items ++ style_text style) }
{
    match style {
        None => out.extend_from_slice(b" (no tiling or no format)"),
        Some(style) => {
            out.extend_from_slice(b" (")?;
            out.extend_from_slice(tiling_name(style.tiling).as_bytes())?;
            out.extend_from_slice(b" tiling, ")?;
            put_number(out, style.cpp as usize)?;
            out.extend_from_slice(b" bytes a pixel)")
        }
    }
}

/// How the pixels of a surface lie, by the bits of its field.
pub(crate) fn bits_style(field: Field, number: u32) -> Option<Style>
    ensures value { result ≡ bits_style field number }
    ensures short { IfSome result (λ style. IsShort style.cpp) }
{
    match field {
        Field::FrameBits => frame_style((number % 65536) as u16),
        Field::GeneralBits => general_style((number % 65536) as u16),
        _ => None,
    }
}

// The bytes of a surface.
#[tactic(auto, using(texture_layouts::proofs::Styles::short_pixel))]
fn style_size(style: Style, width: u16, height: u16) -> u64
    requires { IsShort style.cpp }
    ensures value { result ≡ size_for style.tiling width height style.cpp }
    ensures limit { result < 2 ^ 36 }
{
    surface_size(style.tiling, u32::from(width), u32::from(height), style.cpp)
}

/// Appends the bytes that a surface of a frame's width and height takes.
pub(crate) fn put_size(
    out: &mut Vec<u8>,
    style: Option<Style>,
    width: u16,
    height: u16,
) -> Result<(), AllocError>
    requires { IfSome style (λ style. IsShort style.cpp) }
    ensures { OnOk result (out.new.items ≡ out.old.items ++ size_text style width height) }
{
    if let Some(style) = style {
        out.extend_from_slice(b", ")?;
        put_number(out, style_size(style, width, height) as usize)?;
        out.extend_from_slice(b" bytes")?;
    }
    Ok(())
}

#[tactic(auto, unfolding(crate::specs::Meanings::mode_name))]
fn mode_name(mode: u32) -> &'static str
    ensures { result.now ≡ mode_name mode }
{
    match mode {
        0 => "points",
        1 => "lines",
        2 => "line loop",
        3 => "line strip",
        4 => "triangles",
        5 => "triangle strip",
        6 => "triangle fan",
        _ => "no mode",
    }
}

#[tactic(auto, unfolding(crate::specs::Meanings::index_text))]
fn index_text(number: u32) -> &'static str
    ensures { result.now ≡ index_text number }
{
    if number / 16 == 0 {
        "; 1 byte an index)"
    } else {
        "; 2 bytes an index)"
    }
}

/// Appends a text where it is so.
pub(crate) fn put_if(out: &mut Vec<u8>, is: bool, text: &'static str) -> Result<(), AllocError>
    ensures { OnOk result (out.new.items ≡ out.old.items ++ if_so is text.now) }
{
    out.extend_from_slice(if_so(is, text).as_bytes())
}

fn put_mode(out: &mut Vec<u8>, number: u32, end: &str) -> Result<(), AllocError>
    ensures { OnOk result (out.new.items ≡ out.old.items
        ++ (codes " (" ++ (mode_name (number % 16) ++ end.now))) }
{
    out.extend_from_slice(b" (")?;
    out.extend_from_slice(mode_name(number % 16).as_bytes())?;
    out.extend_from_slice(end.as_bytes())
}

#[tactic(auto, unfolding(crate::specs::Meanings::kind_text))]
fn kind_text(number: u32) -> &'static str
    ensures { result.now ≡ kind_text number }
{
    match number {
        0 => " (data)",
        1 => " (code)",
        _ => " (no kind)",
    }
}

#[tactic(auto, unfolding(crate::specs::Meanings::extended_text))]
fn extended_text(number: u32) -> &'static str
    ensures { result.now ≡ extended_text number }
{
    if is_extended(number) {
        ", extended)"
    } else {
        ")"
    }
}

#[tactic(auto, unfolding(crate::specs::Meanings::state_text))]
fn put_state(out: &mut Vec<u8>, number: u32) -> Result<(), AllocError>
    ensures { OnOk result (out.new.items ≡ out.old.items ++ state_text number) }
{
    out.extend_from_slice(b" (attributes: ")?;
    put_number(out, attribute_count(number) as usize)?;
    out.extend_from_slice(extended_text(number).as_bytes())?;
    Ok(())
}

/// Which depths pass the depth test, by its function's number.
pub(crate) const DEPTHS: [&str; 8] = [
    "never",
    "less",
    "equal",
    "less or equal",
    "greater",
    "not equal",
    "greater or equal",
    "always",
];

// Appends a flag's name, where it is set.
#[tactic(auto, unfolding(crate::specs::Meanings::flag_text))]
fn put_flag(out: &mut Vec<u8>, number: u32, bit: u32, name: &'static str) -> Result<(), AllocError>
    requires { bit < 32 }
    ensures { OnOk result (out.new.items ≡ out.old.items ++ flag_text number bit name.now) }
{
    out.extend_from_slice(if_so(number / (1 << bit) % 2 == 1, name).as_bytes())
}

#[tactic(auto, unfolding(crate::specs::Meanings::face_flags))]
fn put_face_flags(out: &mut Vec<u8>, number: u32) -> Result<(), AllocError>
    ensures { OnOk result (out.new.items ≡ out.old.items ++ face_flags number) }
{
    put_flag(out, number, 0, ", front faces")?;
    put_flag(out, number, 1, ", back faces")?;
    put_flag(out, number, 2, ", clockwise is front")
}

#[tactic(auto, unfolding(crate::specs::Meanings::edge_flags))]
fn put_edge_flags(out: &mut Vec<u8>, number: u32) -> Result<(), AllocError>
    ensures { OnOk result (out.new.items ≡ out.old.items ++ edge_flags number) }
{
    put_flag(out, number, 3, ", depth offset")?;
    put_flag(out, number, 4, ", smooth points and lines")?;
    put_flag(out, number, 6, ", four samples a pixel")
}

#[tactic(auto, unfolding(crate::specs::Meanings::depth_flags))]
fn put_depth_flags(out: &mut Vec<u8>, number: u32) -> Result<(), AllocError>
    ensures { OnOk result (out.new.items ≡ out.old.items ++ depth_flags number) }
{
    put_flag(out, number, 15, ", depth written")?;
    put_flag(out, number, 16, ", early depth test")?;
    put_flag(out, number, 17, ", early depth written")
}

#[tactic(auto, unfolding(crate::specs::Meanings::flags_text))]
fn put_flags(out: &mut Vec<u8>, number: u32) -> Result<(), AllocError>
    ensures { OnOk result (out.new.items ≡ out.old.items ++ flags_text number) }
{
    put_face_flags(out, number)?;
    put_edge_flags(out, number)?;
    put_depth_flags(out, number)
}

#[tactic(auto, unfolding(crate::specs::Meanings::depth_text))]
fn put_depth(out: &mut Vec<u8>, number: u32) -> Result<(), AllocError>
    ensures { OnOk result (out.new.items ≡ out.old.items ++ depth_text number) }
{
    put_all(
        out,
        &[" (depth test ", named(&DEPTHS, (number / 4096 % 8) as u8)],
    )
}

#[tactic(auto, unfolding(crate::specs::Meanings::configuration_text))]
fn put_configuration(out: &mut Vec<u8>, number: u32) -> Result<(), AllocError>
    ensures { OnOk result (out.new.items ≡ out.old.items ++ configuration_text number) }
{
    put_depth(out, number)?;
    put_flags(out, number)?;
    out.extend_from_slice(b")")
}

fn put_word(out: &mut Vec<u8>, number: u32) -> Result<(), AllocError>
    ensures { OnOk result (out.new.items ≡ out.old.items
        ++ (codes " (" ++ (hex_text number ++ codes ")"))) }
{
    out.extend_from_slice(b" (")?;
    put_hex(out, number)?;
    out.extend_from_slice(b")")
}

/// Appends what the number of a field means.
pub(crate) fn put_meaning(out: &mut Vec<u8>, field: Field, number: u32) -> Result<(), AllocError>
    ensures { OnOk result (out.new.items ≡ out.old.items ++ field_meaning field number) }
{
    match field {
        Field::Word(_) | Field::Address => put_word(out, number),
        Field::ConfigurationBits => put_configuration(out, number),
        Field::CenterX | Field::CenterY => put_sixteenths(out, (number % 65536) as u16),
        Field::PointWidth | Field::ScaleX | Field::ScaleY | Field::ScaleZ | Field::OffsetZ =>
            put_float(out, number),
        Field::Kind => out.extend_from_slice(kind_text(number).as_bytes()),
        Field::Flags => put_if(out, number == 1, " (the clear values are used)"),
        Field::HandleIndex => put_if(out, number == u32::MAX, " (absent)"),
        Field::FrameBits => put_style(out, frame_style((number % 65536) as u16)),
        Field::GeneralBits => put_style(out, general_style((number % 65536) as u16)),
        Field::SurfaceFlags => put_if(out, number % 2 == 1, " (full resolution)"),
        Field::PrimitiveMode => put_mode(out, number, ")"),
        Field::IndexMode => put_mode(out, number, index_text(number)),
        Field::StateWord => put_state(out, number),
        Field::BinnerFlags => put_if(out, number % 2 == 1, " (four samples a pixel)"),
        Field::RecordFlags => put_if(out, number % 2 == 1, " (single-threaded)"),
        _ => Ok(()),
    }
}
