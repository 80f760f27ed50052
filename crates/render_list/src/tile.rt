//! Writing a tile of the renderer list, slot by slot.
ghost use Rattle.render_list.specs.Frame.{TileFits};
ghost use Rattle.render_list.specs.Text.{load_slots, write_slots, tile_in, HasRoom, Puts, IsScene};

use crate::slots::{
    Scene, Tile, color_store_slot, full_store_slots, list_slots, load_slots, store_slots,
};
use packets::{put_present, put_slot};

/// The loads of a tile.
#[inline(always)]
#[tactic(auto, using(crate::proofs::Puts::no_loads, field_words::proofs::Writes::with_nothing))]
fn put_loads(out: &mut [u8], at: usize, scene: &Scene, tile: Tile) -> usize
    requires scene { IsScene scene.now }
    requires fits { TileFits scene.now.frame scene.now.setup.places tile.x tile.y }
    requires room { HasRoom out.old at (load_slots scene.now.frame scene.now.setup.places
        tile.x tile.y) }
    ensures { Puts (load_slots scene.now.frame scene.now.setup.places tile.x tile.y) out.old at
        out.new result }
{
    if !scene.some_loads {
        return at;
    }
    put_present(out, at, &load_slots(scene, tile))
}

/// Its writes, of which the one of colour mostly is alone.
#[inline(always)]
#[tactic(auto, using(crate::proofs::Puts::color_alone, crate::proofs::Puts::text_of_parts, crate::proofs::Puts::length_of_parts, field_words::proofs::Writes::with_two))]
fn put_writes(out: &mut [u8], at: usize, scene: &Scene, tile: Tile) -> usize
    requires scene { IsScene scene.now }
    requires fits { TileFits scene.now.frame scene.now.setup.places tile.x tile.y }
    requires room { HasRoom out.old at (write_slots scene.now.frame scene.now.setup.places
        tile.x tile.y) }
    ensures { Puts (write_slots scene.now.frame scene.now.setup.places tile.x tile.y) out.old at
        out.new result }
{
    if !scene.some_before_color {
        return put_slot(out, at, color_store_slot(scene, tile));
    }
    let at = put_present(out, at, &full_store_slots(scene, tile));
    put_present(out, at, &store_slots(scene, tile))
}

/// A tile. The slots are put some at a time, so that none has to be looked at to see what it is.
#[tactic(auto, unfolding(crate::specs::Text::tile_slots), using(packets::proofs::Slots::slots_append, crate::proofs::Puts::length_two, field_words::proofs::Writes::with_two))]
pub fn put_tile(out: &mut [u8], at: usize, scene: &Scene, tile: Tile) -> usize
    requires scene { IsScene scene.now }
    requires fits { TileFits scene.now.frame scene.now.setup.places tile.x tile.y }
    requires room { HasRoom out.old at (tile_in scene.now tile) }
    ensures { Puts (tile_in scene.now tile) out.old at out.new result }
{
    let at = put_loads(out, at, scene, tile);
    let at = put_present(out, at, &list_slots(scene, tile));
    put_writes(out, at, scene, tile)
}
