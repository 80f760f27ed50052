//! The levels of a texture, each of half the sides of the one before.
ghost use Rattle.std.specs.Prelude.{◌≡◌, ◌<◌, ◌≤◌, ◌^◌};
ghost use Rattle.texture_layouts.specs.Surface.{IsPixelSize};
ghost use Rattle.texture_layouts.specs.Level.{power_above, level_side_of, level_tiling_of, level_size_of};

use crate::surface::{Tiling, surface_size, tiling_of};

/// A side of a level, in pixels, of a texture whose own side this is.
///
/// Level 0 is the texture itself. Level `level` of 1 or more has the least power of two that is at
/// least the side, shifted right by `level`, and at least 1 pixel.
#[inline(always)]
#[tactic(auto, unfolding(crate::specs::Level::level_side_of), using(crate::proofs::Powers::shifted))]
pub(crate) fn level_side(side: u32, level: u32) -> u32
    requires side_from { 1 ≤ side }
    requires side_to { side ≤ 2048 }
    requires level { level ≤ 15 }
    ensures value { result ≡ level_side_of side level }
    ensures positive { 1 ≤ result }
    ensures limit { result ≤ 2048 }
{
    if level == 0 {
        return side;
    }
    (power_above(side) >> level).max(1)
}

/// The least power of two that is at least a side.
#[inline(always)]
#[tactic(auto, using(crate::proofs::Powers::power_found))]
fn power_above(side: u32) -> u32
    requires { side ≤ 2048 }
    ensures value { result ≡ power_above side }
    ensures limit { result ≤ 2048 }
{
    side.next_power_of_two()
}

/// The tiling of a level of this width and height: a raster texture is raster on each level, and
/// another is T or Lt by each level's own size.
#[inline(always)]
#[tactic(auto, unfolding(crate::specs::Level::level_tiling_of))]
pub(crate) fn level_tiling(raster: bool, width: u32, height: u32, cpp: u32) -> Tiling
    requires width_limit { width ≤ 65535 }
    requires height_limit { height ≤ 65535 }
    requires pixel { IsPixelSize cpp }
    ensures { result ≡ level_tiling_of raster width height cpp }
{
    if raster {
        Tiling::Raster
    } else {
        tiling_of(width, height, cpp)
    }
}

/// The bytes of level `level` of a texture of `width` times `height` pixels of `cpp` bytes. With a
/// `cpp` of 8 the sides count blocks of 4x4 pixels.
#[inline(always)]
#[tactic(auto, unfolding(crate::specs::Level::level_size_of, crate::specs::Level::image_size_of))]
pub fn level_size(raster: bool, width: u32, height: u32, cpp: u32, level: u32) -> u64
    requires width_from { 1 ≤ width }
    requires width_to { width ≤ 2048 }
    requires height_from { 1 ≤ height }
    requires height_to { height ≤ 2048 }
    requires pixel { IsPixelSize cpp }
    requires level { level ≤ 15 }
    ensures value { result ≡ level_size_of raster width height cpp level }
    ensures limit { result < 2 ^ 36 }
{
    let width = level_side(width, level);
    let height = level_side(height, level);
    surface_size(level_tiling(raster, width, height, cpp), width, height, cpp)
}
