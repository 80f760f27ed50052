//! The tilings, and the sizes that surfaces take in memory.
ghost use Rattle.std.specs.Prelude.{◌≡◌, ◌<◌, ◌≤◌, ◌^◌};
ghost use Rattle.texture_layouts.specs.Surface.{IsPixelSize, microtile_width_of, microtile_height_of, tiling_for, unit_across, unit_down, size_for};

use field_words::round_up;

/// In which order a surface's pixels lie.
///
/// All but raster keep microtiles of 64 bytes together: 8x8 pixels of 1 byte, 8x4 of 2, 4x4 of 4
/// or 2x4 of 8.
#[derive(Clone, Copy, PartialEq, Eq, Debug)]
pub enum Tiling {
    /// Rows of pixels.
    Raster,
    /// Tiles of 4,096 bytes, which are 8x8 microtiles each.
    T,
    /// Rows of microtiles, for sizes too small for whole tiles.
    Lt,
}

/// The tiling of a tiled image of `width` times `height` pixels of `cpp` bytes: [`Tiling::Lt`]
/// where it is at most four microtiles wide or high, else [`Tiling::T`].
#[inline(always)]
pub fn tiling_of(width: u32, height: u32, cpp: u32) -> Tiling
    requires width_limit { width ≤ 65535 }
    requires height_limit { height ≤ 65535 }
    requires pixel { IsPixelSize cpp }
    ensures { result ≡ tiling_for width height cpp }
{
    if width <= 4 * microtile_width(cpp) || height <= 4 * microtile_height(cpp) {
        Tiling::Lt
    } else {
        Tiling::T
    }
}

/// How many bytes a surface of `width` times `height` pixels of `cpp` bytes takes.
///
/// Both sides are aligned first: T to 8x8 microtiles, Lt to one microtile, and raster's width to
/// one microtile's width. So a surface never ends within a microtile that an access covers whole.
#[inline(always)]
#[tactic(auto, using(crate::proofs::Size::product_fits))]
pub fn surface_size(tiling: Tiling, width: u32, height: u32, cpp: u32) -> u64
    requires width_limit { width ≤ 65535 }
    requires height_limit { height ≤ 65535 }
    requires pixel { IsPixelSize cpp }
    ensures value { result ≡ size_for tiling width height cpp }
    ensures limit { result < 2 ^ 36 }
{
    let across = round_up(width as u64, alignment_across(tiling, cpp));
    let down = round_up(height as u64, alignment_down(tiling, cpp));
    across * down * cpp as u64
}

/// A microtile's width in pixels of `cpp` bytes.
#[inline(always)]
#[tactic(auto, unfolding(crate::specs::Surface::microtile_width_of))]
pub fn microtile_width(cpp: u32) -> u32
    ensures value { result ≡ microtile_width_of cpp }
    ensures positive { 1 ≤ result }
    ensures limit { result ≤ 8 }
{
    match cpp {
        8 => 2,
        4 => 4,
        _ => 8,
    }
}

/// A microtile's height in pixels of `cpp` bytes.
#[inline(always)]
#[tactic(auto, unfolding(crate::specs::Surface::microtile_height_of))]
pub fn microtile_height(cpp: u32) -> u32
    ensures value { result ≡ microtile_height_of cpp }
    ensures positive { 1 ≤ result }
    ensures limit { result ≤ 8 }
{
    match cpp {
        1 => 8,
        _ => 4,
    }
}

/// The power of two of the pixels that a surface's width is aligned to.
#[inline(always)]
#[tactic(auto, unfolding(crate::specs::Surface::microtile_width_of))]
fn power_across(tiling: Tiling, cpp: u32) -> u32
    ensures value { 2 ^ result ≡ unit_across tiling cpp }
    ensures power { result ≤ 6 }
    ensures positive { 1 ≤ 2 ^ result }
    ensures limit { 2 ^ result ≤ 64 }
{
    match tiling {
        Tiling::T => match cpp {
            8 => 4,
            4 => 5,
            _ => 6,
        },
        Tiling::Raster | Tiling::Lt => match cpp {
            8 => 1,
            4 => 2,
            _ => 3,
        },
    }
}

/// The power of 2 that a unit's height is.
#[inline(always)]
#[tactic(auto, unfolding(crate::specs::Surface::microtile_height_of))]
fn power_down(tiling: Tiling, cpp: u32) -> u32
    ensures value { 2 ^ result ≡ unit_down tiling cpp }
    ensures power { result ≤ 6 }
    ensures positive { 1 ≤ 2 ^ result }
    ensures limit { 2 ^ result ≤ 64 }
{
    match tiling {
        Tiling::Raster => 0,
        Tiling::T => match cpp {
            1 => 6,
            _ => 5,
        },
        Tiling::Lt => match cpp {
            1 => 3,
            _ => 2,
        },
    }
}

/// The number of pixels that a surface's width is aligned to. It stands as a shift, so that nothing is divided by it.
#[inline(always)]
pub(crate) fn alignment_across(tiling: Tiling, cpp: u32) -> u64
    ensures value { result ≡ unit_across tiling cpp }
    ensures positive { 1 ≤ result }
    ensures limit { result ≤ 64 }
{
    1 << power_across(tiling, cpp)
}

/// The number of pixels that a surface's height is aligned to.
#[inline(always)]
fn alignment_down(tiling: Tiling, cpp: u32) -> u64
    ensures value { result ≡ unit_down tiling cpp }
    ensures positive { 1 ≤ result }
    ensures limit { result ≤ 64 }
{
    1 << power_down(tiling, cpp)
}
