//! How long a packet is, in a binner list and in a renderer list.
ghost use Rattle.std.specs.Prelude.{◌≡◌, ◌≤◌};
ghost use Rattle.packets.specs.Length.{bin_length, bin_taken, render_taken};

use crate::opcode::{
    BRANCH_TO_SUB_LIST, CLEAR_COLORS, LOAD_FULL_RESOLUTION, LOAD_TILE_BUFFER,
    STORE_FULL_RESOLUTION, STORE_TILE_BUFFER, TILE_COORDINATES, TILE_RENDERING_MODE,
};

/// The bytes of a binner's packet by its opcode, from opcode 0 on; 0 where no packet of a binner list has it. A binner list is
/// cut by this table, which takes fewer steps than a `match`.
static BIN_LENGTHS: [u8; 256] = [
    1, 1, 0, 0, 1, 0, 1, 1, 0, 0, 0, 0, 0, 0, 0, 0, 0, 0, 0, 0, 0, 0, 0, 0, 0, 0, 0, 0, 0, 0, 0, 0,
    14, 10, 0, 0, 0, 0, 0, 0, 0, 0, 0, 0, 0, 0, 0, 0, 0, 0, 0, 0, 0, 0, 0, 0, 2, 0, 0, 0, 0, 0, 0,
    0, 5, 0, 0, 0, 0, 0, 0, 0, 0, 0, 0, 0, 0, 0, 0, 0, 0, 0, 0, 0, 0, 0, 0, 0, 0, 0, 0, 0, 0, 0, 0,
    0, 4, 5, 5, 5, 3, 5, 9, 5, 0, 9, 9, 0, 0, 0, 0, 0, 16, 0, 0, 0, 0, 0, 0, 0, 0, 0, 0, 0, 0, 0,
    0, 0, 0, 0, 0, 0, 0, 0, 0, 0, 0, 0, 0, 0, 0, 0, 0, 0, 0, 0, 0, 0, 0, 0, 0, 0, 0, 0, 0, 0, 0, 0,
    0, 0, 0, 0, 0, 0, 0, 0, 0, 0, 0, 0, 0, 0, 0, 0, 0, 0, 0, 0, 0, 0, 0, 0, 0, 0, 0, 0, 0, 0, 0, 0,
    0, 0, 0, 0, 0, 0, 0, 0, 0, 0, 0, 0, 0, 0, 0, 0, 0, 0, 0, 0, 0, 0, 0, 0, 0, 0, 0, 0, 0, 0, 0, 0,
    0, 0, 0, 0, 0, 0, 0, 0, 0, 0, 0, 0, 0, 0, 0, 0, 0, 0, 0, 0, 0, 0, 0, 0, 0, 0, 0, 0, 0, 0, 0, 0,
    9, 0,
];

/// The bytes of a binner's packet by its opcode, the opcode among them; 0 where no packet of a binner
/// list has this opcode.
#[inline(always)]
#[tactic(auto, using(crate::proofs::Lengths::length_in_table))]
pub fn bin_length(opcode: u8) -> u32
    ensures value { result ≡ bin_length opcode }
    ensures limit { result ≤ 16 }
{
    BIN_LENGTHS[opcode as usize] as u32
}

/// The bytes by which a reader of a binner list goes on: those of the packet, and one where no packet
/// has this opcode.
#[inline(always)]
#[tactic(auto, unfolding(crate::specs::Length::bin_taken))]
pub fn bin_taken(opcode: u8) -> u32
    ensures value { result ≡ bin_taken opcode }
    ensures some { 1 ≤ result }
    ensures limit { result ≤ 16 }
{
    match bin_length(opcode) {
        0 => 1,
        length => length,
    }
}

/// The bytes by which a reader of a renderer list goes on by a packet's opcode: those of the packet, and
/// one where no packet of a renderer list has this opcode.
#[tactic(auto, unfolding(crate::specs::Length::render_taken))]
pub fn render_taken(opcode: u8) -> u32
    ensures value { result ≡ render_taken opcode }
    ensures some { 1 ≤ result }
    ensures limit { result ≤ 14 }
{
    match opcode {
        CLEAR_COLORS => 14,
        TILE_RENDERING_MODE => 11,
        STORE_TILE_BUFFER | LOAD_TILE_BUFFER => 7,
        BRANCH_TO_SUB_LIST | STORE_FULL_RESOLUTION | LOAD_FULL_RESOLUTION => 5,
        TILE_COORDINATES => 3,
        _ => 1,
    }
}
