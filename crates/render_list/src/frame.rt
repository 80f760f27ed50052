//! The surfaces of a frame, and where the tiles of one in full resolution lie.
ghost use Rattle.std.specs.Prelude.{◌≡◌, ◌<◌, ◌≤◌, ◌+◌, ◌*◌, ◌^◌};
ghost use Rattle.render_list.specs.Frame.{surface_at, is_present, tile_side, is_full, full_tile, full_place, is_first_tile, is_last_tile};

use job_format::{Frame, Surface};

/// The surfaces' numbers, which are their places in the frame.
pub const COLOR_READ: usize = 0;

pub const COLOR_WRITE: usize = 1;

pub const ZS_READ: usize = 2;

pub const ZS_WRITE: usize = 3;

pub const MULTISAMPLE_COLOR: usize = 4;

pub const MULTISAMPLE_ZS: usize = 5;

/// The bytes of a tile in full resolution.
pub const FULL_TILE: u32 = 16384;

pub fn surface(frame: &Frame, k: usize) -> Surface
    requires { k < 6 }
    ensures { result ≡ surface_at frame.now k }
{
    frame.surfaces[k]
}

/// Whether the surface is there: an index of all ones means that it isn't.
#[tactic(auto, unfolding(crate::specs::Frame::is_present))]
pub fn is_present(surface: &Surface) -> bool
    ensures { result ≡ is_present surface.now }
{
    surface.hindex != u32::MAX
}

/// Whether the surface of this number keeps each sample of a pixel, in tiles of 16,384 bytes.
#[tactic(auto, unfolding(crate::specs::Frame::is_full))]
pub fn is_full(k: usize, surface: &Surface) -> bool
    ensures { result ≡ is_full k surface.now }
{
    match k {
        COLOR_WRITE => false,
        MULTISAMPLE_COLOR => true,
        MULTISAMPLE_ZS => true,
        _ => surface.flags % 2 == 1,
    }
}

/// A tile's side in pixels.
#[tactic(auto, unfolding(crate::specs::Frame::tile_side, crate::specs::Frame::is_multisample))]
pub fn tile_side(frame: &Frame) -> u32
    ensures value { result ≡ tile_side frame.now }
    ensures limit { result ≤ 64 }
{
    if surface(frame, COLOR_WRITE).bits % 2 == 1 {
        32
    } else {
        64
    }
}

/// Which tile of a surface in full resolution is the one at (x, y).
#[tactic(auto, unfolding(crate::specs::Frame::full_tile))]
pub fn full_tile(frame: &Frame, x: u8, y: u8) -> u32
    ensures value { result ≡ full_tile frame.now x y }
    ensures limit { result < 2 ^ 19 }
{
    u32::from(frame.width).div_ceil(32) * u32::from(y) + u32::from(x)
}

/// Where that tile lies, for a surface at this place.
#[tactic(auto, unfolding(crate::specs::Frame::full_place))]
pub fn full_place(frame: &Frame, place: u32, x: u8, y: u8) -> u32
    requires { full_place frame.now place x y < 2 ^ 32 }
    ensures { result ≡ full_place frame.now place x y }
{
    place + FULL_TILE * full_tile(frame, x, y)
}

#[tactic(auto, unfolding(crate::specs::Frame::is_first_tile))]
pub fn is_first_tile(frame: &Frame, x: u8, y: u8) -> bool
    ensures { result ≡ is_first_tile frame.now x y }
{
    x == frame.min_x && y == frame.min_y
}

#[tactic(auto, unfolding(crate::specs::Frame::is_last_tile))]
pub fn is_last_tile(frame: &Frame, x: u8, y: u8) -> bool
    ensures { result ≡ is_last_tile frame.now x y }
{
    x == frame.max_x && y == frame.max_y
}
