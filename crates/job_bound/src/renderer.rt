//! How many steps a renderer list takes.
ghost use Rattle.std.specs.Prelude.{◌≡◌, ◌≤◌, ◌<◌, ◌+◌, ◌*◌};
ghost use Rattle.render_list.specs.Frame.{surface_at, is_present, tiles_across, tiles_down, IsTileSet};
ghost use Rattle.render_list.specs.Text.{number_where};
ghost use Rattle.job_bound.specs.Frames.{write_steps, frame_loads, frame_writes, tile_steps, frame_steps};

use job_format::Frame;

/// The number where the test is true, else none.
fn number_where(test: bool, number: u64) -> u64
    ensures value { result ≡ number_where test number }
    ensures limit { result ≤ number }
{
    if test { number } else { 0 }
}

/// Whether the surface of this number is there: an index of all ones means that it isn't.
#[tactic(auto, unfolding(render_list::specs::Frame::is_present))]
fn has_surface(frame: &Frame, k: usize) -> bool
    requires { k < 6 }
    ensures { result ≡ is_present (surface_at frame.now k) }
{
    frame.surfaces[k].hindex != u32::MAX
}

/// The two loads of a tile, with what parts them.
#[tactic(auto, unfolding(crate::specs::Frames::loads_steps))]
fn loads_steps(frame: &Frame) -> u64
    ensures value { result ≡ frame_loads frame.now }
    ensures limit { result ≤ 4 }
{
    let color = has_surface(frame, 0);
    let between = number_where(color, 2);
    let zs = number_where(has_surface(frame, 2), between + 1);
    number_where(color, 1) + zs
}

/// A write, with the coordinates before it where another came before.
fn write_steps(present: bool, some_before: bool) -> u64
    ensures value { result ≡ write_steps present some_before }
    ensures limit { result ≤ 2 }
{
    number_where(present, number_where(some_before, 1) + 1)
}

/// The writes of a tile.
#[tactic(auto, unfolding(crate::specs::Frames::writes_steps))]
fn writes_steps(frame: &Frame) -> u64
    ensures value { result ≡ frame_writes frame.now }
    ensures limit { result ≤ 8 }
{
    let color = has_surface(frame, 4);
    let zs = has_surface(frame, 5);
    let multisample = color | zs;
    let plain_zs = has_surface(frame, 3);
    let first = write_steps(color, false);
    let second = write_steps(zs, color);
    let third = write_steps(plain_zs, multisample);
    let last = write_steps(has_surface(frame, 1), multisample | plain_zs);
    first + (second + (third + last))
}

/// All of a tile, but for what only the first tile has.
#[tactic(auto, unfolding(crate::specs::Frames::tile_steps))]
fn tile_steps(frame: &Frame, has_bin: bool) -> u64
    ensures value { result ≡ tile_steps frame.now has_bin }
    ensures limit { result ≤ 15 }
{
    let list = number_where(has_bin, 2);
    loads_steps(frame) + (1 + (list + writes_steps(frame)))
}

/// All tiles, but for what only the first has.
#[tactic(auto, using(crate::proofs::Tiles::tiles_limit))]
fn tiles_steps(frame: &Frame, has_bin: bool) -> u64
    requires { IsTileSet frame.now }
    ensures value { result ≡ tiles_down frame.now
        * (tiles_across frame.now * tile_steps frame.now has_bin) }
    ensures limit { result ≤ 983040 }
{
    let across = u64::from(frame.max_x - frame.min_x) + 1;
    let down = u64::from(frame.max_y - frame.min_y) + 1;
    down * (across * tile_steps(frame, has_bin))
}

/// The steps that the renderer list of the frame takes, with or without a binner list.
#[tactic(auto, unfolding(crate::specs::Frames::frame_steps))]
pub fn frame_steps(frame: &Frame, has_bin: bool) -> u64
    requires { IsTileSet frame.now }
    ensures value { result ≡ frame_steps frame.now has_bin }
    ensures limit { result ≤ 983045 }
{
    let clear = number_where(frame.clear, 3);
    1 + (clear + (tiles_steps(frame, has_bin) + number_where(has_bin, 1)))
}
