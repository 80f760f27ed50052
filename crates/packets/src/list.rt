//! Writing packets into a window.
ghost use Rattle.std.specs.Prelude.{◌≡◌, ◌≤◌, ◌+◌, [], ◌∷◌, ◌++◌, length};
ghost use Rattle.packets.specs.Opcode.{tile_rendering_mode, clear_colors};
ghost use Rattle.field_words.specs.WordBytes.{half, word};
ghost use Rattle.field_words.specs.Writes.{with_bytes};
ghost use Rattle.packets.specs.Packet.{packet_text, slots_text};

use crate::opcode::{
    BRANCH_TO_SUB_LIST, CLEAR_COLORS, LOAD_FULL_RESOLUTION, LOAD_TILE_BUFFER,
    STORE_FULL_RESOLUTION, STORE_TILE_BUFFER, STORE_TILE_COLOR, STORE_TILE_COLOR_AND_END,
    TILE_COORDINATES, TILE_RENDERING_MODE, WAIT_ON_SEMAPHORE,
};
use crate::packet::Packet;

/// Puts bytes at a place of the window, and gives the place behind them.
#[inline(always)]
fn put(out: &mut [u8], at: usize, bytes: &[u8]) -> usize
    requires room { at + length bytes.now ≤ length out.old }
    ensures text { out.new ≡ with_bytes out.old at bytes.now }
    ensures end { result ≡ at + length bytes.now }
{
    let end = at + bytes.len();
    out[at..end].copy_from_slice(bytes);
    end
}

/// An opcode with a number of four bytes.
#[inline(always)]
fn put_word(out: &mut [u8], at: usize, opcode: u8, address: u32) -> usize
    requires room { at + 5 ≤ length out.old }
    ensures text { out.new ≡ with_bytes out.old at (opcode ∷ word address) }
    ensures end { result ≡ at + 5 }
{
    let [a0, a1, a2, a3] = address.to_le_bytes();
    put(out, at, &[opcode, a0, a1, a2, a3])
}

/// An opcode with a number of two bytes and one of four.
#[inline(always)]
fn put_half_word(out: &mut [u8], at: usize, opcode: u8, bits: u16, address: u32) -> usize
    requires room { at + 7 ≤ length out.old }
    ensures text { out.new ≡ with_bytes out.old at (opcode ∷ (half bits ++ word address)) }
    ensures end { result ≡ at + 7 }
{
    let [b0, b1] = bits.to_le_bytes();
    let [a0, a1, a2, a3] = address.to_le_bytes();
    put(out, at, &[opcode, b0, b1, a0, a1, a2, a3])
}

/// The image to draw: its address, and its width and height in pixels and the bits of its format.
fn put_rendering_mode(out: &mut [u8], at: usize, address: u32, shape: (u16, u16, u16)) -> usize
    requires room { at + 11 ≤ length out.old }
    ensures text { out.new ≡ with_bytes out.old at
        (tile_rendering_mode ∷ (word address ++ (half shape.0 ++ (half shape.1 ++ half shape.2)))) }
    ensures end { result ≡ at + 11 }
{
    let [a0, a1, a2, a3] = address.to_le_bytes();
    let (width, height, bits) = shape;
    let [w0, w1] = width.to_le_bytes();
    let [h0, h1] = height.to_le_bytes();
    let [b0, b1] = bits.to_le_bytes();
    put(
        out,
        at,
        &[TILE_RENDERING_MODE, a0, a1, a2, a3, w0, w1, h0, h1, b0, b1],
    )
}

/// What the tile buffer is cleared to: two colours, the depth and the stencil.
fn put_clear_colors(out: &mut [u8], at: usize, colors: (u32, u32), z: u32, stencil: u8) -> usize
    requires room { at + 14 ≤ length out.old }
    ensures text { out.new ≡ with_bytes out.old at
        (clear_colors ∷ (word colors.0 ++ (word colors.1 ++ (word z ++ (stencil ∷ []))))) }
    ensures end { result ≡ at + 14 }
{
    let (first, second) = colors;
    let [f0, f1, f2, f3] = first.to_le_bytes();
    let [s0, s1, s2, s3] = second.to_le_bytes();
    let [z0, z1, z2, z3] = z.to_le_bytes();
    put(
        out,
        at,
        &[
            CLEAR_COLORS,
            f0,
            f1,
            f2,
            f3,
            s0,
            s1,
            s2,
            s3,
            z0,
            z1,
            z2,
            z3,
            stencil,
        ],
    )
}

/// Puts a packet at a place of the window, and gives the place behind it.
#[inline(always)]
#[tactic(auto, unfolding(crate::specs::Packet::packet_text))]
pub fn put_packet(out: &mut [u8], at: usize, packet: Packet) -> usize
    requires room { at + length (packet_text packet) ≤ length out.old }
    ensures text { out.new ≡ with_bytes out.old at (packet_text packet) }
    ensures end { result ≡ at + length (packet_text packet) }
{
    match packet {
        Packet::WaitOnSemaphore => put(out, at, &[WAIT_ON_SEMAPHORE]),
        Packet::BranchToSubList { address } => put_word(out, at, BRANCH_TO_SUB_LIST, address),
        Packet::StoreTileColor => put(out, at, &[STORE_TILE_COLOR]),
        Packet::StoreTileColorAndEnd => put(out, at, &[STORE_TILE_COLOR_AND_END]),
        Packet::StoreFullResolution { address } => {
            put_word(out, at, STORE_FULL_RESOLUTION, address)
        }
        Packet::LoadFullResolution { address } => put_word(out, at, LOAD_FULL_RESOLUTION, address),
        Packet::StoreTileBuffer { bits, address } => {
            put_half_word(out, at, STORE_TILE_BUFFER, bits, address)
        }
        Packet::LoadTileBuffer { bits, address } => {
            put_half_word(out, at, LOAD_TILE_BUFFER, bits, address)
        }
        Packet::TileRenderingMode {
            address,
            width,
            height,
            bits,
        } => put_rendering_mode(out, at, address, (width, height, bits)),
        Packet::ClearColors {
            first,
            second,
            z,
            stencil,
        } => put_clear_colors(out, at, (first, second), z, stencil),
        Packet::TileCoordinates { x, y } => put(out, at, &[TILE_COORDINATES, x, y]),
    }
}

/// Puts the packet, where there is one, and gives the place behind it.
#[inline(always)]
#[tactic(auto, using(field_words::proofs::Writes::with_nothing))]
pub fn put_slot(out: &mut [u8], at: usize, slot: Option<Packet>) -> usize
    requires room { at + length (slots_text (slot ∷ [])) ≤ length out.old }
    ensures text { out.new ≡ with_bytes out.old at (slots_text (slot ∷ [])) }
    ensures end { result ≡ at + length (slots_text (slot ∷ [])) }
{
    match slot {
        None => at,
        Some(packet) => put_packet(out, at, packet),
    }
}

/// Puts the packets that are there, one after the other, and gives the place behind them.
pub fn put_present(out: &mut [u8], at: usize, slots: &[Option<Packet>]) -> usize
    requires room { at + length (slots_text slots.now) ≤ length out.old }
    ensures text { out.new ≡ with_bytes out.old at (slots_text slots.now) }
    ensures end { result ≡ at + length (slots_text slots.now) }
{
    let mut here = at;
    for slot in slots {
        here = put_slot(out, here, *slot);
    }
    here
}
