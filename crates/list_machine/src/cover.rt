//! What a load or store by bits covers of a surface.
ghost use Rattle.std.specs.Prelude.{◌≡◌, ◌+◌, ◌*◌, ◌≤◌, ◌<◌, ◌^◌, IfSome};
ghost use Rattle.std.specs.Int.{div_ceil};
ghost use Rattle.texture_layouts.specs.Format.{IsShort};
ghost use Rattle.texture_layouts.specs.Surface.{IsPixelSize};
ghost use Rattle.list_machine.specs.Store.{tile_side, pixels_covered};
ghost use Rattle.list_machine.specs.Cover.{raster_cover, tiled_cover, cover_in, cover_for, part_count, part_offset, part_place, IsSmall};

use crate::state::Frame;
use crate::surface::Cover;
use field_words::field;
use texture_layouts::{
    Style, Tiling, microtile_height, microtile_place, microtile_width, pixel_place,
};

/// The tile's side in pixels.
#[tactic(auto, unfolding(crate::specs::Store::tile_side))]
fn side(bits: u16) -> u32
    ensures value { result ≡ tile_side bits }
    ensures limit { result ≤ 64 }
{
    if field(bits as u64, 0, 0) == 1 {
        32
    } else {
        64
    }
}

/// How many of `length` pixels a tile covers that begins at pixel `start`.
#[tactic(auto, unfolding(crate::specs::Store::pixels_covered))]
fn covered_pixels(start: u32, side: u32, length: u16) -> u32
    ensures value { result ≡ pixels_covered start side length }
    ensures limit { result ≤ side }
{
    (length as u32).saturating_sub(start).min(side)
}

/// The covered rows of a raster surface.
#[tactic(auto, unfolding(crate::specs::Cover::raster_cover))]
fn raster_cover(cpp: u32, frame: &Frame, base: u32, x: u8, y: u8) -> Cover
    requires { IsShort cpp }
    ensures value { result ≡ raster_cover cpp frame.now base x y }
    ensures small { IsSmall result }
{
    let side = side(frame.bits);
    let left = x as u32 * side;
    let top = y as u32 * side;
    let pixels = covered_pixels(left, side, frame.width);
    Cover {
        tiling: Tiling::Raster,
        base,
        cpp,
        wide: frame.width,
        left,
        top,
        across: if pixels == 0 { 0 } else { 1 },
        down: covered_pixels(top, side, frame.height),
        size: cpp * pixels,
    }
}

/// In how many microtiles of this side `pixels` lie that begin with a microtile.
#[tactic(auto, using(crate::proofs::Covering::few_units))]
fn units_of(pixels: u32, unit: u32) -> u32
    requires pixels { pixels ≤ 64 }
    requires unit { 4 ≤ unit }
    ensures value { result ≡ div_ceil pixels unit }
    ensures limit { result ≤ 16 }
{
    pixels.div_ceil(unit)
}

/// The microtiles of a tiled surface that have a covered pixel.
#[tactic(auto, unfolding(crate::specs::Cover::tiled_cover), using(crate::proofs::Covering::wide_unit, crate::proofs::Covering::high_unit))]
fn tiled_cover(style: &Style, frame: &Frame, base: u32, x: u8, y: u8) -> Cover
    requires { IsShort style.now.cpp }
    ensures value { result ≡ tiled_cover style.now.tiling style.now.cpp frame.now base x y }
    ensures small { IsSmall result }
{
    let side = side(frame.bits);
    let width = microtile_width(style.cpp);
    let height = microtile_height(style.cpp);
    let left = x as u32 * side;
    let top = y as u32 * side;
    Cover {
        tiling: style.tiling,
        base,
        cpp: style.cpp,
        wide: frame.width,
        left: left / width,
        top: top / height,
        across: units_of(covered_pixels(left, side, frame.width), width),
        down: units_of(covered_pixels(top, side, frame.height), height),
        size: 64,
    }
}

/// What a load or store at tile (x, y) covers of a surface at `base`.
fn cover_in(style: &Style, frame: &Frame, base: u32, x: u8, y: u8) -> Cover
    requires { IsShort style.now.cpp }
    ensures value { result ≡ cover_in style.now.tiling style.now.cpp frame.now base x y }
    ensures small { IsSmall result }
{
    match style.tiling {
        Tiling::Raster => raster_cover(style.cpp, frame, base, x, y),
        Tiling::T => tiled_cover(style, frame, base, x, y),
        Tiling::Lt => tiled_cover(style, frame, base, x, y),
    }
}

/// What a load or store at tile (x, y) covers of a surface of this style at `base`. `None` comes
/// exactly where there is no such style, or before the frame is set.
pub(crate) fn cover_for(
    style: Option<Style>,
    frame: Option<Frame>,
    base: u32,
    x: u8,
    y: u8,
) -> Option<Cover>
    requires { IfSome style (λ s. IsShort s.cpp) }
    ensures value { result ≡ cover_for style frame base x y }
    ensures small { IfSome result IsSmall }
{
    match frame {
        None => None,
        Some(frame) => match style {
            None => None,
            Some(style) => Some(cover_in(&style, &frame, base, x, y)),
        },
    }
}

/// How many parts there are.
pub(crate) fn part_count(cover: &Cover) -> u32
    requires { IsSmall cover.now }
    ensures value { result ≡ part_count cover.now }
    ensures few { result ≤ 256 }
{
    cover.across * cover.down
}

/// Where the part that stands so far across and down lies in a surface.
fn part_offset(tiling: Tiling, wide: u16, cpp: u32, x: u32, y: u32) -> u64
    requires { IsPixelSize cpp }
    ensures value { result ≡ part_offset tiling wide cpp x y }
    ensures limit { result < 2 ^ 57 }
{
    match tiling {
        Tiling::Raster => pixel_place(Tiling::Raster, wide as u32, cpp, x, y),
        Tiling::T => microtile_place(Tiling::T, wide as u32, cpp, x, y),
        Tiling::Lt => microtile_place(Tiling::Lt, wide as u32, cpp, x, y),
    }
}

/// The place of part `i`.
#[tactic(auto, unfolding(crate::specs::Cover::part_place))]
pub(crate) fn part_place(cover: &Cover, i: u32) -> u64
    requires small { IsSmall cover.now }
    requires part { i < part_count cover.now }
    ensures value { result ≡ part_place cover.now i }
    ensures limit { result < 2 ^ 58 }
{
    let x = cover.left + i % cover.across;
    let y = cover.top + i / cover.across;
    cover.base as u64 + part_offset(cover.tiling, cover.wide, cover.cpp, x, y)
}
