//! Writing the renderer list.
ghost use Rattle.std.specs.Prelude.{◌≡◌, ◌≤◌, ◌<◌, ◌+◌, [], length, IsSome, is_some, Some};
ghost use Rattle.buffer_table.specs.Table.{most_place};
ghost use Rattle.field_words.specs.Writes.{with_bytes};
ghost use Rattle.render_list.specs.Frame.{IsSetupFor};
ghost use Rattle.render_list.specs.Length.{render_length};
ghost use Rattle.render_list.specs.Text.{head_packet, clear_slots, front_slots, row_in, tiles_in, render_slots, render_text, HasRoom, Puts, IsScene};

use crate::setup::Setup;
use crate::slots::{Scene, Tile, clear_slots, head_packet, some_before_color, some_loads};
use crate::tile::put_tile;
use job_format::Frame;
use packets::put_present;
use relocation::Layout;

/// The tiles of row `y`, from left to right.
fn put_row(out: &mut [u8], at: usize, scene: &Scene, y: u8) -> usize
    requires scene { IsScene scene.now }
    requires row { y ≤ scene.now.frame.max_y }
    requires room { HasRoom out.old at (row_in scene.now y) }
    ensures { Puts (row_in scene.now y) out.old at out.new result }
{
    let mut here = at;
    for x in scene.frame.min_x..=scene.frame.max_x {
        here = put_tile(out, here, scene, Tile { x, y });
    }
    here
}

/// All tiles of the set, row by row.
fn put_tiles(out: &mut [u8], at: usize, scene: &Scene) -> usize
    requires scene { IsScene scene.now }
    requires room { HasRoom out.old at (tiles_in scene.now) }
    ensures { Puts (tiles_in scene.now) out.old at out.new result }
{
    let mut here = at;
    for y in scene.frame.min_y..=scene.frame.max_y {
        here = put_row(out, here, scene, y);
    }
    here
}

/// The head, and the packets that clear.
#[tactic(auto, unfolding(crate::specs::Text::front_slots))]
fn put_front(out: &mut [u8], at: usize, frame: &Frame, setup: &Setup) -> usize
    requires { HasRoom out.old at (front_slots frame.now setup.now.places) }
    ensures { Puts (front_slots frame.now setup.now.places) out.old at out.new result }
{
    let [values, coordinates, nothing] = clear_slots(frame);
    let head = Some(head_packet(frame, setup));
    put_present(out, at, &[head, values, coordinates, nothing])
}

/// The whole list.
#[tactic(auto, using(crate::proofs::Rows::render_parts, crate::proofs::Rows::length_parts, field_words::proofs::Writes::with_two))]
fn put_list(out: &mut [u8], at: usize, scene: &Scene) -> usize
    requires scene { IsScene scene.now }
    requires room { HasRoom out.old at (render_slots scene.now.frame scene.now.setup.places
        scene.now.tiles scene.now.slot) }
    ensures { Puts (render_slots scene.now.frame scene.now.setup.places scene.now.tiles
        scene.now.slot) out.old at out.new result }
{
    let at = put_front(out, at, &scene.frame, &scene.setup);
    put_tiles(out, at, scene)
}

/// Writes the renderer list of the frame at its place in `out`, the window of the lists' region, and
/// changes no other byte. `tiles` is the binner's grid, across and down, where there is a binner list;
/// the list then waits for the binner at its first tile, and runs at each tile the list that the binner
/// made of it.
#[tactic(auto, unfolding(crate::specs::Text::render_text), using(crate::proofs::Length::render_fits))]
pub fn build(frame: &Frame, setup: &Setup, tiles: Option<(u8, u8)>, layout: &Layout, out: &mut [u8])
    requires setup { IsSetupFor frame.now setup.now.places }
    requires slot { IsSome tiles → layout.now.slot ≤ most_place }
    requires room { layout.now.render + render_length frame.now (is_some tiles) ≤ length out.old }
    ensures { out.new ≡ with_bytes out.old layout.now.render
        (render_text frame.now setup.now.places tiles layout.now.slot) }
{
    let scene = Scene {
        frame: *frame,
        setup: *setup,
        tiles,
        slot: layout.slot,
        some_loads: some_loads(setup),
        some_before_color: some_before_color(setup),
    };
    let _end = put_list(out, layout.render as usize, &scene);
}
