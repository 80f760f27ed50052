//! The rules of a frame and its surfaces.
#![tactic(auto, unfolding(crate::proofs::Opened::tests))]

ghost use Rattle.std.specs.Prelude.{◌≡◌, ◌<◌, ◌+◌, ◌^◌, ℕ, None, Some, true, false, IfSome, IfOk, IfErr, MatchResult};
ghost use Rattle.field_words.specs.Questions.{first_of, each, GoesOn, IsFirst};
ghost use Rattle.buffer_table.specs.Handles.{AreNumbersOf};
ghost use Rattle.texture_layouts.specs.Format.{IsShort};
ghost use Rattle.render_list.specs.Frame.{surface_at, is_full, FitsAt, IsTileSet, IsSetupFor};
ghost use Rattle.render_list.specs.Surfaces.{fault, is_reversed, is_outside_grid, is_outside_frame, frame_questions, has_unknown_flag, has_unknown_bit, is_unnamed, surface_tiling, surface_pixel, has_unlisted_tiling, has_unlisted_format, styled_size, is_unaligned, buffer_size, plain_end, is_too_large, is_full_with_bits, full_end, is_too_large_full, shape_questions, size_questions, surface_questions, is_written, whole_questions, surface_faults, place_in, places_of};

use crate::fault::{FRAME, FrameRule, RenderFault, WHOLE};
use crate::frame::{
    COLOR_READ, COLOR_WRITE, FULL_TILE, MULTISAMPLE_COLOR, MULTISAMPLE_ZS, ZS_READ, ZS_WRITE,
    full_tile, is_full, is_present, surface, tile_side,
};
use crate::setup::Setup;
use buffer_table::{Handles, Table, use_data};
use job_format::{Frame, Surface};
use texture_layouts::{
    Style, Tiling, frame_pixel, frame_tiling, general_pixel, general_tiling, styled, surface_size,
};

/// The most pixels that a frame may have across or down where a surface isn't in full resolution.
const SIDE_LIMIT: u16 = 4096;

/// The fields of colour write's bits: multisample 0, format 3:2, decimate 5:4, tiling 7:6.
const WRITE_FIELDS: u16 = 0x0001 | 0x000c | 0x0030 | 0x00c0;

/// The fields of the other surfaces' bits: buffer 2:0, tiling 5:4, format 9:8.
const GENERAL_FIELDS: u16 = 0x0007 | 0x0030 | 0x0300;

/// Whether a smallest tile number is over its largest.
fn is_reversed(frame: &Frame) -> bool
    ensures { result ≡ is_reversed frame.now }
{
    frame.min_x > frame.max_x || frame.min_y > frame.max_y
}

/// Whether the largest tile isn't in the binner's grid.
fn is_outside_grid(frame: &Frame, tiles: Option<(u8, u8)>) -> bool
    ensures { result ≡ is_outside_grid frame.now tiles }
{
    match tiles {
        None => false,
        Some((across, down)) => frame.max_x >= across || frame.max_y >= down,
    }
}

/// Whether the largest tile has no pixel of the frame.
fn is_outside_frame(frame: &Frame) -> bool
    ensures { result ≡ is_outside_frame frame.now }
{
    let side = tile_side(frame);
    u32::from(frame.max_x) * side >= u32::from(frame.width)
        || u32::from(frame.max_y) * side >= u32::from(frame.height)
}

/// A rule at an item, where it is broken.
fn ask(broken: bool, rule: FrameRule, item: u8) -> Result<(), RenderFault>
    ensures { MatchResult result (λ _. broken ≡ false)
        (λ found. (broken ≡ true) × (found ≡ fault rule item)) }
{
    if broken {
        return Err(RenderFault::of(rule, item));
    }
    Ok(())
}

/// G1 to G3.
#[tactic(auto, unfolding(crate::specs::Surfaces::frame_questions))]
fn check_frame(frame: &Frame, tiles: Option<(u8, u8)>) -> Result<(), RenderFault>
    ensures { GoesOn (frame_questions frame.now tiles) (λ _. Unit {0}) result }
{
    ask(is_reversed(frame), FrameRule::Reversed, FRAME)?;
    ask(is_outside_grid(frame, tiles), FrameRule::OutsideGrid, FRAME)?;
    ask(is_outside_frame(frame), FrameRule::OutsideFrame, FRAME)
}

/// Whether a flag is set that the surface doesn't have.
fn has_unknown_flag(k: usize, surface: &Surface) -> bool
    ensures { result ≡ has_unknown_flag k surface.now }
{
    match k {
        COLOR_READ | ZS_READ | ZS_WRITE => surface.flags > 1,
        _ => surface.flags > 0,
    }
}

/// Whether a bit is set outside the fields of this surface's bits.
fn has_unknown_bit(k: usize, surface: &Surface) -> bool
    ensures { result ≡ has_unknown_bit k surface.now }
{
    let unnamed = if k == COLOR_WRITE {
        !WRITE_FIELDS
    } else {
        !GENERAL_FIELDS
    };
    !is_full(k, surface) && surface.bits & unnamed != 0
}

/// Whether the handle names no data buffer.
fn is_unnamed(table: &Table, handles: &Handles, surface: &Surface) -> bool
    requires { AreNumbersOf table.now handles.now }
    ensures { result ≡ is_unnamed table.now handles.now surface.now }
{
    use_data(table, handles, surface.hindex).is_none()
}

/// The tiling by the surface's bits.
fn surface_tiling(k: usize, surface: &Surface) -> Option<Tiling>
    ensures { result ≡ surface_tiling k surface.now }
{
    if k == COLOR_WRITE {
        frame_tiling(surface.bits)
    } else {
        general_tiling(surface.bits)
    }
}

/// The bytes of a pixel by the surface's bits.
fn surface_pixel(k: usize, surface: &Surface) -> Option<u32>
    ensures value { result ≡ surface_pixel k surface.now }
    ensures short { IfSome result IsShort }
{
    if k == COLOR_WRITE {
        frame_pixel(surface.bits)
    } else {
        general_pixel(surface.bits)
    }
}

/// Whether the tiling isn't one of the three.
fn has_unlisted_tiling(k: usize, surface: &Surface) -> bool
    ensures { result ≡ has_unlisted_tiling k surface.now }
{
    !is_full(k, surface) && surface_tiling(k, surface).is_none()
}

/// Whether the buffer and format aren't listed.
fn has_unlisted_format(k: usize, surface: &Surface) -> bool
    ensures { result ≡ has_unlisted_format k surface.now }
{
    !is_full(k, surface) && surface_pixel(k, surface).is_none()
}

fn is_unaligned(surface: &Surface) -> bool
    ensures { result ≡ is_unaligned surface.now }
{
    surface.offset % 16 != 0
}

/// The bytes of the buffer that the surface lies in, and 0 where it names none.
fn buffer_size(table: &Table, handles: &Handles, surface: &Surface) -> u32
    requires { AreNumbersOf table.now handles.now }
    ensures { result ≡ buffer_size table.now handles.now surface.now }
{
    match use_data(table, handles, surface.hindex) {
        None => 0,
        Some(number) => table.buffer(number).size,
    }
}

/// How many bytes a surface of the frame takes, of a style that is listed.
#[tactic(auto, using(texture_layouts::proofs::Styles::short_pixel))]
fn styled_size(frame: &Frame, style: Option<Style>) -> u64
    requires { IfSome style (λ s. IsShort s.cpp) }
    ensures value { result ≡ styled_size frame.now style }
    ensures limit { result < 2 ^ 36 }
{
    match style {
        None => 0,
        Some(style) => surface_size(
            style.tiling,
            u32::from(frame.width),
            u32::from(frame.height),
            style.cpp,
        ),
    }
}

/// Where surface `k` ends in its buffer, if it isn't in full resolution. One of no listed tiling or format takes no bytes.
pub fn plain_end(frame: &Frame, k: usize, surface: &Surface) -> u64
    ensures { result ≡ plain_end frame.now k surface.now }
{
    let style = styled(surface_tiling(k, surface), surface_pixel(k, surface));
    u64::from(surface.offset) + styled_size(frame, style)
}

/// Whether a surface that isn't in full resolution has a side over the limit or goes past its buffer.
fn is_too_large(frame: &Frame, k: usize, surface: &Surface, size: u32) -> bool
    ensures { result ≡ is_too_large frame.now k surface.now size }
{
    if is_full(k, surface) {
        return false;
    }
    frame.width > SIDE_LIMIT
        || frame.height > SIDE_LIMIT
        || plain_end(frame, k, surface) > u64::from(size)
}

/// Whether ZS write is in full resolution, or a surface in full resolution has bits.
fn is_full_with_bits(k: usize, surface: &Surface) -> bool
    ensures { result ≡ is_full_with_bits k surface.now }
{
    is_full(k, surface) && (k == ZS_WRITE || surface.bits != 0)
}

/// Where the largest tile of a surface in full resolution ends in its buffer.
pub fn full_end(frame: &Frame, surface: &Surface) -> u64
    ensures { result ≡ full_end frame.now surface.now }
{
    let offset = surface.offset;
    let tiles = full_tile(frame, frame.max_x, frame.max_y) + 1;
    u64::from(offset) + u64::from(FULL_TILE) * u64::from(tiles)
}

/// Whether a surface in full resolution goes past its buffer.
fn is_too_large_full(frame: &Frame, k: usize, surface: &Surface, size: u32) -> bool
    ensures { result ≡ is_too_large_full frame.now k surface.now size }
{
    is_full(k, surface) && full_end(frame, surface) > u64::from(size)
}

/// G4 to G9.
#[tactic(auto, unfolding(crate::specs::Surfaces::shape_questions))]
fn check_shape(
    k: usize,
    surface: &Surface,
    table: &Table,
    handles: &Handles,
) -> Result<(), RenderFault>
    requires surface { k < 6 }
    requires made { AreNumbersOf table.now handles.now }
    ensures { GoesOn (shape_questions k surface.now table.now handles.now) (λ _. Unit {0}) result }
{
    let item = k as u8 + 1;
    ask(has_unknown_flag(k, surface), FrameRule::UnknownFlag, item)?;
    ask(has_unknown_bit(k, surface), FrameRule::UnknownBit, item)?;
    ask(
        is_unnamed(table, handles, surface),
        FrameRule::Unnamed,
        item,
    )?;
    ask(
        has_unlisted_tiling(k, surface),
        FrameRule::UnlistedTiling,
        item,
    )?;
    ask(
        has_unlisted_format(k, surface),
        FrameRule::UnlistedFormat,
        item,
    )?;
    ask(is_unaligned(surface), FrameRule::Unaligned, item)
}

/// G10 to G12.
#[tactic(auto, unfolding(crate::specs::Surfaces::size_questions))]
fn check_size(frame: &Frame, k: usize, surface: &Surface, size: u32) -> Result<(), RenderFault>
    requires { k < 6 }
    ensures { GoesOn (size_questions frame.now k surface.now size) (λ _. Unit {0}) result }
{
    let item = k as u8 + 1;
    ask(
        is_too_large(frame, k, surface, size),
        FrameRule::TooLarge,
        item,
    )?;
    ask(is_full_with_bits(k, surface), FrameRule::FullWithBits, item)?;
    ask(
        is_too_large_full(frame, k, surface, size),
        FrameRule::TooLargeFull,
        item,
    )
}

/// G4 to G12 of surface `k`, where it is present.
#[tactic(auto, unfolding(crate::specs::Surfaces::surface_questions), using(field_words::proofs::Questions::passes, field_words::proofs::Questions::stops))]
fn check_surface(
    frame: &Frame,
    table: &Table,
    handles: &Handles,
    k: usize,
) -> Result<(), RenderFault>
    requires surface { k < 6 }
    requires made { AreNumbersOf table.now handles.now }
    ensures { GoesOn (surface_questions frame.now table.now handles.now k) (λ _. Unit {0}) result }
{
    let surface = surface(frame, k);
    if !is_present(&surface) {
        return Ok(());
    }
    check_shape(k, &surface, table, handles)?;
    check_size(frame, k, &surface, buffer_size(table, handles, &surface))
}

/// G4 to G12, surface by surface.
#[tactic(auto, using(field_words::proofs::Questions::each_on, field_words::proofs::Questions::each_stop, field_words::proofs::Questions::each_end))]
fn check_each(frame: &Frame, table: &Table, handles: &Handles) -> Result<(), RenderFault>
    requires { AreNumbersOf table.now handles.now }
    ensures { GoesOn (each (surface_questions frame.now table.now handles.now) 0 6)
        (λ _. Unit {0}) result }
{
    for k in 0..6usize {
        check_surface(frame, table, handles, k)?;
    }
    Ok(())
}

/// Whether something is written.
fn is_written(frame: &Frame) -> bool
    ensures { result ≡ is_written frame.now }
{
    is_present(&surface(frame, COLOR_WRITE))
        || is_present(&surface(frame, ZS_WRITE))
        || is_present(&surface(frame, MULTISAMPLE_COLOR))
        || is_present(&surface(frame, MULTISAMPLE_ZS))
}

/// G13.
#[tactic(auto, unfolding(crate::specs::Surfaces::whole_questions))]
fn check_whole(frame: &Frame) -> Result<(), RenderFault>
    ensures { GoesOn (whole_questions frame.now) (λ _. Unit {0}) result }
{
    ask(!is_written(frame), FrameRule::NothingWritten, WHOLE)
}

/// G1 to G13.
#[tactic(auto, unfolding(crate::specs::Surfaces::surface_faults), using(field_words::proofs::Questions::passes, field_words::proofs::Questions::stops))]
fn check_rules(
    frame: &Frame,
    tiles: Option<(u8, u8)>,
    table: &Table,
    handles: &Handles,
) -> Result<(), RenderFault>
    requires { AreNumbersOf table.now handles.now }
    ensures { GoesOn (surface_faults frame.now tiles table.now handles.now) (λ _. Unit {0}) result }
{
    check_frame(frame, tiles)?;
    check_each(frame, table, handles)?;
    check_whole(frame)
}

/// The absolute place of surface `k`, where it is present.
#[tactic(auto, unfolding(crate::specs::Surfaces::place_in), using(crate::proofs::Checked::offset_inside, crate::proofs::Checked::tiles_inside))]
fn place(frame: &Frame, table: &Table, handles: &Handles, k: usize) -> Option<u32>
    requires surface { k < 6 }
    requires made { AreNumbersOf table.now handles.now }
    requires sound { first_of (surface_questions frame.now table.now handles.now k) ≡ None }
    ensures value { result ≡ place_in table.now handles.now (surface_at frame.now k) }
    ensures fits { FitsAt frame.now k result frame.now.max_x frame.now.max_y }
{
    let surface = surface(frame, k);
    if !is_present(&surface) {
        return None;
    }
    let number = use_data(table, handles, surface.hindex)?;
    Some(table.buffer(number).place + surface.offset)
}

/// The places of the surfaces of a frame without faults.
fn places(frame: &Frame, table: &Table, handles: &Handles) -> Setup
    requires made { AreNumbersOf table.now handles.now }
    requires tiles { IsTileSet frame.now }
    requires sound { (k : ℕ) → k < 6
        → first_of (surface_questions frame.now table.now handles.now k) ≡ None }
    ensures places { result.places ≡ places_of frame.now table.now handles.now }
    ensures setup { IsSetupFor frame.now result.places }
{
    let color_read = place(frame, table, handles, COLOR_READ);
    let color_write = place(frame, table, handles, COLOR_WRITE);
    let zs_read = place(frame, table, handles, ZS_READ);
    let zs_write = place(frame, table, handles, ZS_WRITE);
    let multisample_color = place(frame, table, handles, MULTISAMPLE_COLOR);
    let multisample_zs = place(frame, table, handles, MULTISAMPLE_ZS);
    Setup {
        places: [
            color_read,
            color_write,
            zs_read,
            zs_write,
            multisample_color,
            multisample_zs,
        ],
    }
}

/// The places of the frame's surfaces, or the first rule of G1 to G13 that fails, by item and number.
/// `tiles` is the binner's grid, across and down, where there is a binner list.
pub fn check_surfaces(
    frame: &Frame,
    tiles: Option<(u8, u8)>,
    table: &Table,
    handles: &Handles,
) -> Result<Setup, RenderFault>
    requires { AreNumbersOf table.now handles.now }
    ensures exact { MatchResult result
        (λ setup. (first_of (surface_faults frame.now tiles table.now handles.now) ≡ None)
        × (setup.places ≡ places_of frame.now table.now handles.now))
        (λ fault. first_of (surface_faults frame.now tiles table.now handles.now) ≡ Some fault) }
    ensures first { IfErr result (λ fault. IsFirst
        (surface_faults frame.now tiles table.now handles.now) fault) }
    ensures setup { IfOk result (λ setup. IsSetupFor frame.now setup.places) }
{
    match check_rules(frame, tiles, table, handles) {
        Err(fault) => Err(fault),
        Ok(_) => Ok(places(frame, table, handles)),
    }
}
