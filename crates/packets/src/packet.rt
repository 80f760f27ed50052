//! The packets of a renderer list.
ghost use Rattle.std.specs.Prelude.{◌≡◌, ◌≤◌, length, slice_index};
ghost use Rattle.field_words.specs.Words.{u32_at};
ghost use Rattle.packets.specs.Length.{render_taken};
ghost use Rattle.packets.specs.declared.packet.Packet.{Packet};
ghost use Rattle.packets.specs.Packet.{packet_decoded, packet_text, Fits};

use crate::opcode::{
    BRANCH_TO_SUB_LIST, CLEAR_COLORS, LOAD_FULL_RESOLUTION, LOAD_TILE_BUFFER,
    STORE_FULL_RESOLUTION, STORE_TILE_BUFFER, STORE_TILE_COLOR, STORE_TILE_COLOR_AND_END,
    TILE_COORDINATES, TILE_RENDERING_MODE, WAIT_ON_SEMAPHORE,
};
use byteorder::{ByteOrder, LittleEndian};

/// A packet of a renderer list. Its name is that of its opcode, where the fields are explained.
#[derive(Clone, Copy, Debug, PartialEq, Eq)]
pub enum Packet {
    WaitOnSemaphore,
    BranchToSubList {
        address: u32,
    },
    StoreTileColor,
    StoreTileColorAndEnd,
    StoreFullResolution {
        address: u32,
    },
    LoadFullResolution {
        address: u32,
    },
    StoreTileBuffer {
        bits: u16,
        address: u32,
    },
    LoadTileBuffer {
        bits: u16,
        address: u32,
    },
    TileRenderingMode {
        address: u32,
        width: u16,
        height: u16,
        bits: u16,
    },
    ClearColors {
        first: u32,
        second: u32,
        z: u32,
        stencil: u8,
    },
    TileCoordinates {
        x: u8,
        y: u8,
    },
}

/// The number of four bytes behind the opcode.
#[tactic(auto, unfolding(field_words::specs::Words::u32_at))]
fn word_behind(bytes: &[u8]) -> u32
    requires { 5 ≤ length bytes.now }
    ensures { result ≡ u32_at bytes.now 1 }
{
    LittleEndian::read_u32(&bytes[1..])
}

/// The packet of these bytes, by its opcode.
#[tactic(auto, unfolding(crate::specs::Packet::packet_decoded, crate::specs::Length::render_taken, field_words::specs::Words::u16_at, field_words::specs::Words::u32_at))]
fn packet_of(bytes: &[u8]) -> Option<Packet>
    requires { length bytes.now ≡ render_taken (slice_index bytes.now 0) }
    ensures { result ≡ packet_decoded bytes.now }
{
    let opcode = bytes[0];
    match opcode {
        WAIT_ON_SEMAPHORE => Some(Packet::WaitOnSemaphore),
        BRANCH_TO_SUB_LIST => Some(Packet::BranchToSubList {
            address: word_behind(bytes),
        }),
        STORE_TILE_COLOR => Some(Packet::StoreTileColor),
        STORE_TILE_COLOR_AND_END => Some(Packet::StoreTileColorAndEnd),
        STORE_FULL_RESOLUTION => Some(Packet::StoreFullResolution {
            address: word_behind(bytes),
        }),
        LOAD_FULL_RESOLUTION => Some(Packet::LoadFullResolution {
            address: word_behind(bytes),
        }),
        STORE_TILE_BUFFER => Some(Packet::StoreTileBuffer {
            bits: LittleEndian::read_u16(&bytes[1..]),
            address: LittleEndian::read_u32(&bytes[3..]),
        }),
        LOAD_TILE_BUFFER => Some(Packet::LoadTileBuffer {
            bits: LittleEndian::read_u16(&bytes[1..]),
            address: LittleEndian::read_u32(&bytes[3..]),
        }),
        TILE_RENDERING_MODE => Some(Packet::TileRenderingMode {
            address: word_behind(bytes),
            width: LittleEndian::read_u16(&bytes[5..]),
            height: LittleEndian::read_u16(&bytes[7..]),
            bits: LittleEndian::read_u16(&bytes[9..]),
        }),
        CLEAR_COLORS => Some(Packet::ClearColors {
            first: word_behind(bytes),
            second: LittleEndian::read_u32(&bytes[5..]),
            z: LittleEndian::read_u32(&bytes[9..]),
            stencil: bytes[13],
        }),
        TILE_COORDINATES => Some(Packet::TileCoordinates {
            x: bytes[1],
            y: bytes[2],
        }),
        _ => None,
    }
}

/// The packet that the bytes are, by the first of them, which says how many they are; `None` where no
/// packet of a renderer list has this opcode. What `put_packet` puts is read as the same packet.
pub fn decode(bytes: &[u8]) -> Option<Packet>
    requires { length bytes.now ≡ render_taken (slice_index bytes.now 0) }
    ensures value { result ≡ packet_decoded bytes.now }
    ensures again { (packet : Packet) → Fits packet → bytes.now ≡ packet_text packet
        → result ≡ Some packet }
{
    packet_of(bytes)
}
