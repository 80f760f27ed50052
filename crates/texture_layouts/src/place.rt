//! Where the microtiles and pixels of a surface lie.
ghost use Rattle.std.specs.Prelude.{◌≡◌, ◌<◌, ◌≤◌, ◌+◌, ◌^◌};
ghost use Rattle.texture_layouts.specs.Surface.{IsPixelSize};
ghost use Rattle.texture_layouts.specs.Place.{aligned_across, microtiles_across, microtile_number, microtile_place_of, place_in_microtile, raster_place, tiled_place, pixel_place_of, IsMicrotileInside, IsMicrotileApart, IsPixelInside, IsPixelApart};

use crate::surface::{Tiling, alignment_across, microtile_height, microtile_width};
use field_words::round_up;

/// A surface's width in pixels as its tiling aligns it.
fn aligned_across(tiling: Tiling, width: u32, cpp: u32) -> u64
    requires { width ≤ 65535 }
    ensures value { result ≡ aligned_across tiling width cpp }
    ensures limit { result ≤ 65599 }
{
    round_up(u64::from(width), alignment_across(tiling, cpp))
}

/// How many microtiles there are in a row of a surface.
#[tactic(auto, unfolding(crate::specs::Place::microtiles_across))]
fn microtiles_across(tiling: Tiling, width: u32, cpp: u32) -> u64
    requires { width ≤ 65535 }
    ensures value { result ≡ microtiles_across tiling width cpp }
    ensures limit { result ≤ 65599 }
{
    aligned_across(tiling, width, cpp) / u64::from(microtile_width(cpp))
}

/// The number of the microtile `mx` across and `my` down, where a row has `across` of them.
#[tactic(auto, unfolding(crate::specs::Place::microtile_number), using(crate::proofs::Numbers::row_limit))]
fn microtile_number(tiling: Tiling, across: u64, mx: u64, my: u64) -> u64
    requires across { across ≤ 65599 }
    requires mx { mx < 2 ^ 32 }
    requires my { my < 2 ^ 32 }
    ensures value { result ≡ microtile_number tiling across mx my }
    ensures limit { result < 2 ^ 50 }
{
    match tiling {
        Tiling::T => (my / 8 * (across / 8) + mx / 8) * 64 + (my % 8 * 8 + mx % 8),
        Tiling::Raster | Tiling::Lt => my * across + mx,
    }
}

/// Where the 64 bytes of the microtile `mx` across and `my` down begin in a surface of this width,
/// counted from the surface's first byte. Raster has no microtiles: for it this is where they would
/// lie in Lt.
///
/// In T the microtiles of a tile of 4,096 bytes stand together, 8 rows of 8, and the tiles by rows;
/// in Lt all stand by rows. The order is this project's own, and says nothing of the hardware's.
#[tactic(auto, unfolding(crate::specs::Place::microtile_place_of))]
pub fn microtile_place(tiling: Tiling, width: u32, cpp: u32, mx: u32, my: u32) -> u64
    requires width_limit { width ≤ 65535 }
    requires pixel { IsPixelSize cpp }
    ensures value { result ≡ microtile_place_of tiling width cpp mx my }
    ensures limit { result < 2 ^ 56 }

    // The laws of a surface of any height: it lies inside, and shares no byte with another.
    ensures inside { IsMicrotileInside tiling width cpp mx my result }
    ensures apart { IsMicrotileApart tiling width cpp mx my result }
{
    64 * microtile_number(
        tiling,
        microtiles_across(tiling, width, cpp),
        u64::from(mx),
        u64::from(my),
    )
}

/// Where a pixel lies inside its microtile.
#[tactic(auto, unfolding(crate::specs::Place::place_in_microtile), using(crate::proofs::Places::pixel_in_microtile))]
fn place_in_microtile(cpp: u32, x: u32, y: u32) -> u64
    requires { IsPixelSize cpp }
    ensures value { result ≡ place_in_microtile cpp x y }
    ensures inside { result + cpp ≤ 64 }
{
    let across = microtile_width(cpp);
    u64::from(cpp * (y % microtile_height(cpp) * across + x % across))
}

/// Where a pixel of a raster surface lies: by rows of the aligned width.
#[tactic(auto, unfolding(crate::specs::Place::raster_place), using(crate::proofs::Numbers::row_limit))]
pub(crate) fn raster_place(width: u32, cpp: u32, x: u32, y: u32) -> u64
    requires width_limit { width ≤ 65535 }
    requires pixel { IsPixelSize cpp }
    ensures value { result ≡ raster_place width cpp x y }
    ensures limit { result < 2 ^ 56 }
{
    u64::from(cpp) * (u64::from(y) * aligned_across(Tiling::Raster, width, cpp) + u64::from(x))
}

/// Where a pixel of a tiled surface lies: in its microtile, by rows.
#[tactic(auto, unfolding(crate::specs::Place::tiled_place))]
fn tiled_place(tiling: Tiling, width: u32, cpp: u32, x: u32, y: u32) -> u64
    requires width_limit { width ≤ 65535 }
    requires pixel { IsPixelSize cpp }
    ensures value { result ≡ tiled_place tiling width cpp x y }
    ensures limit { result < 2 ^ 57 }
{
    let mx = x / microtile_width(cpp);
    let my = y / microtile_height(cpp);
    microtile_place(tiling, width, cpp, mx, my) + place_in_microtile(cpp, x, y)
}

/// Where a pixel lies, by rows or in its microtile.
fn place_of_pixel(tiling: Tiling, width: u32, cpp: u32, x: u32, y: u32) -> u64
    requires width_limit { width ≤ 65535 }
    requires pixel { IsPixelSize cpp }
    ensures value { result ≡ pixel_place_of tiling width cpp x y }
    ensures limit { result < 2 ^ 57 }
{
    match tiling {
        Tiling::Raster => raster_place(width, cpp, x, y),
        Tiling::T | Tiling::Lt => tiled_place(tiling, width, cpp, x, y),
    }
}

/// Where the `cpp` bytes of the pixel `x` across and `y` down begin in a surface of this width,
/// counted from the surface's first byte.
pub fn pixel_place(tiling: Tiling, width: u32, cpp: u32, x: u32, y: u32) -> u64
    requires width_limit { width ≤ 65535 }
    requires pixel { IsPixelSize cpp }
    ensures value { result ≡ pixel_place_of tiling width cpp x y }
    ensures limit { result < 2 ^ 57 }

    // The laws of a surface of any height: it lies inside, and shares no byte with another.
    ensures inside { IsPixelInside tiling width cpp x y result }
    ensures apart { IsPixelApart tiling width cpp x y result }
{
    place_of_pixel(tiling, width, cpp, x, y)
}
