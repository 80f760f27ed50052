//! The packets of a renderer list. One that stands only sometimes has a slot, which is `None` where it
//! doesn't stand.
ghost use Rattle.std.specs.Prelude.{◌≡◌, ◌&&◌, ◌||◌, ◌⊎◌, ◌≤◌, ◌<◌, ◌+◌, ◌*◌, IsSome, take, drop};
ghost use Rattle.buffer_table.specs.Table.{most_place};
ghost use Rattle.tile_memory.specs.Slots.{alloc_offset};
ghost use Rattle.render_list.specs.Frame.{place_at, TileFits, full_place};
ghost use Rattle.packets.specs.declared.packet.Packet.TheVariants.{TileCoordinates};
ghost use Rattle.render_list.specs.Text.{number_where, packet_where, head_packet, clear_packet, clear_slots, load_slot, wait_slot, list_place, list_slot, full_store_slot, zs_store_slot, color_store_slot, is_there, more_after_multisample_zs, more_after_multisample_color, some_before_zs, some_before_color, coordinates_slot, load_slots, list_slots, write_slots, IsScene};

use crate::frame::{
    COLOR_READ, COLOR_WRITE, MULTISAMPLE_COLOR, MULTISAMPLE_ZS, ZS_READ, ZS_WRITE, full_place,
    is_first_tile, is_full, is_last_tile, surface,
};
use crate::setup::Setup;
use job_format::Frame;
use packets::Packet;
use tile_memory::alloc_offset;

/// What all tiles are written by: the frame, its surfaces' places, and where there is a binner list its grid, across and down,
/// and the place of the tile slot; and whether there is a load, and a write before the one of colour.
#[derive(Clone, Copy)]
pub struct Scene {
    pub frame: Frame,
    pub setup: Setup,
    pub tiles: Option<(u8, u8)>,
    pub slot: u32,
    pub some_loads: bool,
    pub some_before_color: bool,
}

/// The low bits of a full-resolution load's or store's address: colour is left out, depth and stencil
/// are left out; and of a store's: the tile buffer isn't cleared behind it, it ends the frame. A general
/// store's address has the last one too.
const WITHOUT_COLOR: u32 = 1;

const WITHOUT_ZS: u32 = 2;

const WITHOUT_CLEARING: u32 = 4;

const ENDS_FRAME: u32 = 8;

/// Bits of a general store: colour isn't cleared behind it; nothing is.
const KEEPS_COLOR: u32 = 0x2000;

const KEEPS_ALL: u16 = 0xe000;

/// A tile by its coordinates.
#[derive(Clone, Copy)]
pub struct Tile {
    pub x: u8,
    pub y: u8,
}

/// The number where the test is true, else 0.
fn number_where(test: bool, number: u32) -> u32
    ensures { result ≡ number_where test number }
{
    if test { number } else { 0 }
}

/// The packet where the test is true.
#[inline(always)]
fn packet_where(test: bool, packet: Packet) -> Option<Packet>
    ensures { result ≡ packet_where test packet }
{
    if test { Some(packet) } else { None }
}

/// The head: where colour is written, and how large the frame is. Where colour write is absent, only
/// the multisample bit of its bits stays.
#[tactic(auto, unfolding(crate::specs::Text::head_packet))]
pub fn head_packet(frame: &Frame, setup: &Setup) -> Packet
    ensures { result ≡ head_packet frame.now setup.now.places }
{
    let bits = surface(frame, COLOR_WRITE).bits;
    let (address, bits) = match setup.place_of(COLOR_WRITE) {
        None => (0, bits % 2),
        Some(place) => (place, bits),
    };
    Packet::TileRenderingMode {
        address,
        width: frame.width,
        height: frame.height,
        bits,
    }
}

/// The values to clear with, and a tile that stores nothing, where the frame is cleared.
#[tactic(auto, unfolding(crate::specs::Text::clear_slots, crate::specs::Text::clear_packet))]
pub fn clear_slots(frame: &Frame) -> [Option<Packet>; 3]
    ensures { result ≡ clear_slots frame.now }
{
    let values = Packet::ClearColors {
        first: frame.clear_color[0],
        second: frame.clear_color[1],
        z: frame.clear_z,
        stencil: frame.clear_s,
    };
    let nothing = Packet::StoreTileBuffer {
        bits: 0,
        address: 0,
    };
    [
        packet_where(frame.clear, values),
        packet_where(frame.clear, Packet::TileCoordinates { x: 0, y: 0 }),
        packet_where(frame.clear, nothing),
    ]
}

/// The load of a tile of surface `k`, where it is present.
#[tactic(auto, unfolding(crate::specs::Text::load_packet))]
fn load_slot(scene: &Scene, k: usize, left_out: u32, tile: Tile) -> Option<Packet>
    requires surface { k < 6 }
    requires fits { TileFits scene.now.frame scene.now.setup.places tile.x tile.y }
    ensures { result ≡ load_slot scene.now.frame k left_out (place_at scene.now.setup.places k)
        tile.x tile.y }
{
    let place = scene.setup.place_of(k)?;
    let surface = surface(&scene.frame, k);
    if is_full(k, &surface) {
        return Some(Packet::LoadFullResolution {
            address: full_place(&scene.frame, place, tile.x, tile.y) | left_out,
        });
    }
    Some(Packet::LoadTileBuffer {
        bits: surface.bits,
        address: place,
    })
}

/// The wait for the binner, on the first tile where there is a binner list.
#[inline(always)]
fn wait_slot(scene: &Scene, tile: Tile) -> Option<Packet>
    ensures { result ≡ wait_slot scene.now.frame scene.now.tiles tile.x tile.y }
{
    let _grid = scene.tiles?;
    packet_where(
        is_first_tile(&scene.frame, tile.x, tile.y),
        Packet::WaitOnSemaphore,
    )
}

/// How many tiles come before this one in a grid with so many across, row by row.
#[inline(always)]
fn tiles_before(across: u8, x: u8, y: u8) -> u32
    ensures value { result ≡ y * across + x }
    ensures limit { result < 65536 }
{
    u32::from(y) * u32::from(across) + u32::from(x)
}

/// Where the tile's list begins in the tile slot.
#[inline(always)]
#[tactic(auto, unfolding(crate::specs::Text::list_place))]
fn list_place(grid: (u8, u8), slot: u32, tile: Tile) -> u32
    requires { slot ≤ most_place }
    ensures { result ≡ list_place grid slot tile.x tile.y }
{
    let count = tile_count(grid);
    slot + alloc_offset(count) + 32 * tiles_before(grid.0, tile.x, tile.y)
}

/// How many tiles a grid has.
#[inline(always)]
fn tile_count(grid: (u8, u8)) -> u32
    ensures value { result ≡ grid.0 * grid.1 }
    ensures limit { result ≤ 65025 }
{
    u32::from(grid.0) * u32::from(grid.1)
}

/// The branch to the tile's own list, where there is a binner list.
#[inline(always)]
fn list_slot(scene: &Scene, tile: Tile) -> Option<Packet>
    requires { IsSome scene.now.tiles → scene.now.slot ≤ most_place }
    ensures { result ≡ list_slot scene.now.tiles scene.now.slot tile.x tile.y }
{
    let grid = scene.tiles?;
    Some(Packet::BranchToSubList {
        address: list_place(grid, scene.slot, tile),
    })
}

/// Whether the surface is there.
fn is_there(setup: &Setup, k: usize) -> bool
    requires { k < 6 }
    ensures { result ≡ is_there setup.now.places k }
{
    setup.place_of(k).is_some()
}

/// Whether a write follows the one of multisample ZS.
#[tactic(auto, unfolding(crate::specs::Text::more_after_multisample_zs))]
fn more_after_multisample_zs(setup: &Setup) -> bool
    ensures { result ≡ more_after_multisample_zs setup.now.places }
{
    is_there(setup, ZS_WRITE) || is_there(setup, COLOR_WRITE)
}

/// Whether a write follows the one of multisample colour.
#[tactic(auto, unfolding(crate::specs::Text::more_after_multisample_color))]
fn more_after_multisample_color(setup: &Setup) -> bool
    ensures { result ≡ more_after_multisample_color setup.now.places }
{
    is_there(setup, MULTISAMPLE_ZS) || more_after_multisample_zs(setup)
}

/// Whether a write comes before the one of ZS.
#[tactic(auto, unfolding(crate::specs::Text::some_before_zs))]
fn some_before_zs(setup: &Setup) -> bool
    ensures { result ≡ some_before_zs setup.now.places }
{
    is_there(setup, MULTISAMPLE_COLOR) || is_there(setup, MULTISAMPLE_ZS)
}

/// Whether a write comes before the one of colour.
#[tactic(auto, unfolding(crate::specs::Text::some_before_color))]
pub fn some_before_color(setup: &Setup) -> bool
    ensures { result ≡ some_before_color setup.now.places }
{
    some_before_zs(setup) || is_there(setup, ZS_WRITE)
}

/// Whether there is a load.
pub fn some_loads(setup: &Setup) -> bool
    ensures { result ≡ is_there setup.now.places 0 || is_there setup.now.places 2 }
{
    is_there(setup, COLOR_READ) || is_there(setup, ZS_READ)
}

/// The coordinates, where write `k` is there and another came before it.
fn coordinates_slot(setup: &Setup, k: usize, some_before: bool, tile: Tile) -> Option<Packet>
    requires { k < 6 }
    ensures { result ≡ coordinates_slot setup.now.places k some_before tile.x tile.y }
{
    packet_where(is_there(setup, k) && some_before, coordinates(tile))
}

/// The store of a tile of surface `k`, one of those in full resolution, where it is present.
#[tactic(auto, unfolding(crate::specs::Text::full_store, crate::specs::Frame::is_full))]
fn full_store_slot(scene: &Scene, k: usize, left_out: u32, more: bool, tile: Tile) -> Option<Packet>
    requires full { (k ≡ 4) ⊎ (k ≡ 5) }
    requires bits { left_out < 4 }
    requires fits { TileFits scene.now.frame scene.now.setup.places tile.x tile.y }
    ensures { result ≡ full_store_slot scene.now.frame (place_at scene.now.setup.places k) left_out
        more tile.x tile.y }
{
    let place = scene.setup.place_of(k)?;
    let is_final = !more && is_last_tile(&scene.frame, tile.x, tile.y);
    let bits = left_out + number_where(more, WITHOUT_CLEARING) + number_where(is_final, ENDS_FRAME);
    Some(Packet::StoreFullResolution {
        address: full_place(&scene.frame, place, tile.x, tile.y) | bits,
    })
}

/// The store of depth and stencil, where they are present.
#[tactic(auto, unfolding(crate::specs::Text::zs_store))]
fn zs_store_slot(scene: &Scene, tile: Tile) -> Option<Packet>
    ensures { let places = scene.now.setup.places in
        result ≡ zs_store_slot scene.now.frame (place_at places 3) (is_there places 1) tile.x tile.y }
{
    let more = is_there(&scene.setup, COLOR_WRITE);
    let place = scene.setup.place_of(ZS_WRITE)?;
    let is_final = !more && is_last_tile(&scene.frame, tile.x, tile.y);
    Some(Packet::StoreTileBuffer {
        bits: surface(&scene.frame, ZS_WRITE).bits | number_where(more, KEEPS_COLOR) as u16,
        address: place | number_where(is_final, ENDS_FRAME),
    })
}

/// The store of colour, where it is present.
#[inline(always)]
#[tactic(auto, unfolding(crate::specs::Text::color_store))]
pub fn color_store_slot(scene: &Scene, tile: Tile) -> Option<Packet>
    ensures { result ≡ color_store_slot scene.now.frame (place_at scene.now.setup.places 1)
        tile.x tile.y }
{
    let _place = scene.setup.place_of(COLOR_WRITE)?;
    if is_last_tile(&scene.frame, tile.x, tile.y) {
        Some(Packet::StoreTileColorAndEnd)
    } else {
        Some(Packet::StoreTileColor)
    }
}

/// The tile's coordinates.
#[inline(always)]
fn coordinates(tile: Tile) -> Packet
    ensures { result ≡ TileCoordinates tile.x tile.y }
{
    Packet::TileCoordinates {
        x: tile.x,
        y: tile.y,
    }
}

/// The slots of a tile's loads.
#[tactic(auto, unfolding(crate::specs::Text::load_slots))]
pub fn load_slots(scene: &Scene, tile: Tile) -> [Option<Packet>; 4]
    requires fits { TileFits scene.now.frame scene.now.setup.places tile.x tile.y }
    ensures { result ≡ load_slots scene.now.frame scene.now.setup.places tile.x tile.y }
{
    let has_two = is_there(&scene.setup, COLOR_READ) && is_there(&scene.setup, ZS_READ);
    let idle = Packet::StoreTileBuffer {
        bits: KEEPS_ALL,
        address: 0,
    };
    [
        load_slot(scene, COLOR_READ, WITHOUT_ZS, tile),
        packet_where(has_two, coordinates(tile)),
        packet_where(has_two, idle),
        load_slot(scene, ZS_READ, WITHOUT_COLOR, tile),
    ]
}

/// The slots of its coordinates and its list.
#[inline(always)]
#[tactic(auto, unfolding(crate::specs::Text::list_slots))]
pub fn list_slots(scene: &Scene, tile: Tile) -> [Option<Packet>; 3]
    requires scene { IsScene scene.now }
    ensures { result ≡ list_slots scene.now.frame scene.now.tiles scene.now.slot tile.x tile.y }
{
    let coordinates = Some(coordinates(tile));
    [coordinates, wait_slot(scene, tile), list_slot(scene, tile)]
}

/// The slots of its writes in full resolution, which are the first.
#[inline(always)]
#[tactic(auto, unfolding(crate::specs::Text::write_slots))]
pub fn full_store_slots(scene: &Scene, tile: Tile) -> [Option<Packet>; 3]
    requires fits { TileFits scene.now.frame scene.now.setup.places tile.x tile.y }
    ensures { result ≡ take 3 (write_slots scene.now.frame scene.now.setup.places tile.x tile.y) }
{
    let more = more_after_multisample_color(&scene.setup);
    let more_zs = more_after_multisample_zs(&scene.setup);
    let has_color = is_there(&scene.setup, MULTISAMPLE_COLOR);
    [
        full_store_slot(scene, MULTISAMPLE_COLOR, WITHOUT_ZS, more, tile),
        coordinates_slot(&scene.setup, MULTISAMPLE_ZS, has_color, tile),
        full_store_slot(scene, MULTISAMPLE_ZS, WITHOUT_COLOR, more_zs, tile),
    ]
}

/// The slots of its other writes.
#[inline(always)]
#[tactic(auto, unfolding(crate::specs::Text::write_slots))]
pub fn store_slots(scene: &Scene, tile: Tile) -> [Option<Packet>; 4]
    ensures { result ≡ drop 3 (write_slots scene.now.frame scene.now.setup.places tile.x tile.y) }
{
    let setup = &scene.setup;
    [
        coordinates_slot(setup, ZS_WRITE, some_before_zs(setup), tile),
        zs_store_slot(scene, tile),
        coordinates_slot(setup, COLOR_WRITE, some_before_color(setup), tile),
        color_store_slot(scene, tile),
    ]
}
