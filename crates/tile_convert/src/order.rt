//! Where the pixels of a picture lie.
ghost use Rattle.std.specs.Prelude.{◌≡◌, ◌<◌, ◌≤◌, ◌^◌};
ghost use Rattle.texture_layouts.specs.Surface.{IsPixelSize};
ghost use Rattle.tile_convert.specs.Picture.{place_in, size_in, part_offset, pixels_there, parts_across};

use texture_layouts::{Tiling, microtile_width, pixel_place, surface_size};

/// In which order the pixels of a picture lie.
#[derive(Clone, Copy, PartialEq, Eq, Debug)]
pub enum Order {
    /// By rows of the picture's own width, one after the other.
    Rows,
    /// As in a surface of this tiling.
    Surface(Tiling),
}

/// A picture in a tiling: how many pixels it is wide and high, and how many bytes each has.
#[derive(Clone, Copy, Debug, PartialEq, Eq)]
pub struct Picture {
    pub tiling: Tiling,
    pub cpp: u32,
    pub width: u32,
    pub height: u32,
}

/// How many bytes a picture of `width` times `height` pixels of `cpp` bytes takes.
#[tactic(auto, unfolding(crate::specs::Picture::size_in), using(crate::proofs::Numbers::rows_limit))]
pub(crate) fn picture_size(order: Order, width: u32, height: u32, cpp: u32) -> u64
    requires width_limit { width ≤ 4096 }
    requires height_limit { height ≤ 4096 }
    requires pixel { IsPixelSize cpp }
    ensures value { result ≡ size_in order width height cpp }
    ensures limit { result < 2 ^ 36 }
{
    match order {
        Order::Rows => u64::from(width) * u64::from(height) * u64::from(cpp),
        Order::Surface(tiling) => surface_size(tiling, width, height, cpp),
    }
}

/// Where the first pixel of row `y` lies.
#[tactic(auto, unfolding(crate::specs::Picture::place_in), using(crate::proofs::Numbers::rows_limit))]
pub(crate) fn row_start(order: Order, width: u32, cpp: u32, y: u32) -> u64
    requires width_limit { width ≤ 4096 }
    requires y_limit { y ≤ 4096 }
    requires pixel { IsPixelSize cpp }
    ensures value { result ≡ place_in order width cpp 0 y }
    ensures limit { result < 2 ^ 57 }
{
    match order {
        Order::Rows => u64::from(y) * u64::from(width) * u64::from(cpp),
        Order::Surface(tiling) => pixel_place(tiling, width, cpp, 0, y),
    }
}

/// How far behind a row's first pixel the pixels of its microtile `mx` begin. They stand together.
#[tactic(auto, unfolding(crate::specs::Picture::part_offset))]
pub(crate) fn part_offset(order: Order, cpp: u32, mx: u32) -> u64
    requires mx { mx ≤ 4096 }
    requires pixel { IsPixelSize cpp }
    ensures value { result ≡ part_offset order cpp mx }
    ensures limit { result < 2 ^ 32 }
{
    match order {
        Order::Rows | Order::Surface(Tiling::Raster) => u64::from(mx * microtile_width(cpp) * cpp),
        Order::Surface(Tiling::T) => u64::from(mx / 8 * 4096 + mx % 8 * 64),
        Order::Surface(Tiling::Lt) => u64::from(mx * 64),
    }
}

/// How many pixels of a row its microtile `mx` has: all that it is wide, or those that are left.
#[tactic(auto, using(crate::proofs::Steps::begins_inside, texture_layouts::proofs::Places::width_some), unfolding(crate::specs::Picture::pixels_there))]
pub(crate) fn pixels_there(width: u32, cpp: u32, mx: u32) -> u32
    requires { mx < parts_across width cpp }
    ensures value { result ≡ pixels_there width cpp mx }
    ensures limit { result ≤ 8 }
{
    let across = microtile_width(cpp);
    across.min(width - mx * across)
}

/// How many microtiles a row reaches.
#[tactic(auto, unfolding(crate::specs::Picture::parts_across))]
pub(crate) fn parts_across(width: u32, cpp: u32) -> u32
    requires { width ≤ 4096 }
    ensures value { result ≡ parts_across width cpp }
    ensures limit { result ≤ 4096 }
{
    width.div_ceil(microtile_width(cpp))
}
