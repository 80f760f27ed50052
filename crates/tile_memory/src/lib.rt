//! Tile memory: the slots in which the binner keeps its tiles.
//!
//! A slot has 524,288 bytes. It begins with the binner's state, 48 bytes a tile. The tile lists come behind it, from
//! the next multiple of 4,096 on: first a block of 32 bytes for each tile, and then the blocks that the binner takes
//! as its lists grow.
#![tactic(auto)]

ghost use Rattle.std.specs.Prelude.{◌≡◌, ◌≤◌, ◌<◌, ◌+◌, ◌*◌, ◌^◌, ◌↔◌, IsTrue};
ghost use Rattle.field_words.specs.Sizes.{slot_size};
ghost use Rattle.field_words.specs.Words.{IsRoundedUp};
ghost use Rattle.tile_memory.specs.Slots.{slot_place, alloc_offset, slot_fits};

use field_words::{PAGE_SIZE, SLOT_SIZE, round_up};

/// The bytes of the binner's state of a tile, and of a tile list's first block.
const TILE_STATE: u32 = 48;

const TILE_BLOCK: u32 = 32;

/// Where a slot begins, for slots that lie one after another from `tile_place` on.
pub fn slot_place(tile_place: u32, slot: u32) -> u32
    requires { slot_place tile_place slot < 2 ^ 32 }
    ensures { result ≡ slot_place tile_place slot }
{
    tile_place + SLOT_SIZE * slot
}

/// Where the tile lists of this many tiles begin in their slot, in bytes: behind the tiles' states, at the next page.
#[tactic(auto, unfolding(crate::specs::Slots::alloc_offset))]
pub fn alloc_offset(tiles: u32) -> u32
    requires { tiles ≤ 65025 }
    ensures value { result ≡ alloc_offset tiles }
    ensures rounded { IsRoundedUp (48 * tiles) 4096 result }
{
    round_up(u64::from(TILE_STATE * tiles), u64::from(PAGE_SIZE)) as u32
}

/// Whether a slot has room for the states and for the first blocks of this many tiles.
#[tactic(auto, unfolding(crate::specs::Slots::slot_fits))]
pub fn slot_fits(tiles: u32) -> bool
    requires { tiles ≤ 65025 }
    ensures value { result ≡ slot_fits tiles }
    ensures exact { IsTrue result ↔ (alloc_offset tiles + 32 * tiles ≤ slot_size) }
{
    alloc_offset(tiles) + TILE_BLOCK * tiles <= SLOT_SIZE
}
