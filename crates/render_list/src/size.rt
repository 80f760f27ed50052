//! How long a renderer list is.
ghost use Rattle.std.specs.Prelude.{◌≡◌, ◌≤◌, ◌<◌, ◌+◌, ◌*◌, ℕ, List, length, is_some, Option};
ghost use Rattle.field_words.specs.Sizes.{most_render};
ghost use Rattle.render_list.specs.Frame.{surface_at, is_present, tiles_across, tiles_down, IsTileSet, ArePlacesOf};
ghost use Rattle.render_list.specs.Length.{load_size, write_size, frame_loads, frame_writes, tile_size, render_length};
ghost use Rattle.render_list.specs.Text.{number_where, render_text};

use crate::frame::{
    COLOR_READ, COLOR_WRITE, MULTISAMPLE_COLOR, MULTISAMPLE_ZS, ZS_READ, ZS_WRITE, is_full,
    is_present, surface,
};
use job_format::Frame;

/// The bytes where the test is true, else none.
fn size_where(test: bool, size: u64) -> u64
    ensures value { result ≡ number_where test size }
    ensures limit { result ≤ size }
{
    if test { size } else { 0 }
}

fn has_surface(frame: &Frame, k: usize) -> bool
    requires { k < 6 }
    ensures { result ≡ is_present (surface_at frame.now k) }
{
    is_present(&surface(frame, k))
}

#[tactic(auto, unfolding(crate::specs::Length::load_size))]
fn load_size(frame: &Frame, k: usize) -> u64
    requires { k < 6 }
    ensures value { result ≡ load_size frame.now k }
    ensures limit { result ≤ 7 }
{
    if is_full(k, &surface(frame, k)) { 5 } else { 7 }
}

/// The two loads of a tile, with what parts them.
#[tactic(auto, unfolding(crate::specs::Length::loads_size))]
fn loads_size(frame: &Frame) -> u64
    ensures value { result ≡ frame_loads frame.now }
    ensures limit { result ≤ 24 }
{
    let color = has_surface(frame, COLOR_READ);
    let between = size_where(color, 10);
    let zs = size_where(
        has_surface(frame, ZS_READ),
        between + load_size(frame, ZS_READ),
    );
    size_where(color, load_size(frame, COLOR_READ)) + zs
}

/// A write, with the coordinates before it where another came before.
fn write_size(present: bool, some_before: bool, packet: u64) -> u64
    requires { packet ≤ 7 }
    ensures value { result ≡ write_size present some_before packet }
    ensures limit { result ≤ 10 }
{
    size_where(present, size_where(some_before, 3) + packet)
}

/// The writes of a tile.
#[tactic(auto, unfolding(crate::specs::Length::writes_size))]
fn writes_size(frame: &Frame) -> u64
    ensures value { result ≡ frame_writes frame.now }
    ensures limit { result ≤ 40 }
{
    let color = has_surface(frame, MULTISAMPLE_COLOR);
    let zs = has_surface(frame, MULTISAMPLE_ZS);
    let multisample = color | zs;
    let plain_zs = has_surface(frame, ZS_WRITE);
    let first = write_size(color, false, 5);
    let second = write_size(zs, color, 5);
    let third = write_size(plain_zs, multisample, 7);
    let last = write_size(has_surface(frame, COLOR_WRITE), multisample | plain_zs, 1);
    first + (second + (third + last))
}

/// All of a tile, but for what only the first tile has.
#[tactic(auto, unfolding(crate::specs::Length::tile_size))]
fn tile_size(frame: &Frame, has_bin: bool) -> u64
    ensures value { result ≡ tile_size frame.now has_bin }
    ensures limit { result ≤ 72 }
{
    let list = size_where(has_bin, 5);
    loads_size(frame) + (3 + (list + writes_size(frame)))
}

/// All tiles, but for what only the first has.
#[tactic(auto, using(crate::proofs::Sizes::tiles_limit))]
fn tiles_size(frame: &Frame, has_bin: bool) -> u64
    requires { IsTileSet frame.now }
    ensures value { result ≡ tiles_down frame.now
        * (tiles_across frame.now * tile_size frame.now has_bin) }
    ensures limit { result ≤ 4718592 }
{
    let across = u64::from(frame.max_x - frame.min_x) + 1;
    let down = u64::from(frame.max_y - frame.min_y) + 1;
    down * (across * tile_size(frame, has_bin))
}

/// How many bytes the renderer list of the frame has, with or without a binner list.
#[tactic(auto, unfolding(crate::specs::Length::render_length), using(crate::proofs::Length::length_render))]
pub fn render_size(frame: &Frame, has_bin: bool) -> u64
    requires { IsTileSet frame.now }
    ensures value { result ≡ render_length frame.now has_bin }
    ensures text { (places : List (Option ℕ)) (grid : Option (ℕ × ℕ)) (slot : ℕ)
        → ArePlacesOf frame.now places → is_some grid ≡ has_bin
        → length (render_text frame.now places grid slot) ≡ result }
    ensures limit { result ≤ most_render }
{
    let clear = size_where(frame.clear, 24);
    11 + (clear + (tiles_size(frame, has_bin) + size_where(has_bin, 1)))
}
