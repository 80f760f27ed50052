//! Writing the list that the hardware is given.
ghost use Rattle.std.specs.Prelude.{◌≡◌, ◌≤◌, ◌+◌, ◌*◌, length, slice_index};
ghost use Rattle.field_words.specs.Sizes.{slot_size};
ghost use Rattle.buffer_table.specs.Handles.{IsData};
ghost use Rattle.field_words.specs.Words.{u32_at};
ghost use Rattle.tile_memory.specs.Slots.{alloc_offset};
ghost use Rattle.bin_list.specs.Rules.{index_buffer};
ghost use Rattle.bin_list.specs.Fine.{IsFine, IsLow};
ghost use Rattle.bin_list.specs.Emitted.{index_text, state_text, config_text, packet_text};
ghost use Rattle.field_words.specs.Writes.{with_bytes};

use crate::cut::opcode;
use crate::given::Given;
use crate::rules::index_buffer;
use crate::seen::Seen;
use field_words::{SLOT_SIZE, byte_at, put_u32, word_at};
use packets::opcode::{BUFFER_HANDLES, GL_SHADER_STATE, INDEXED_PRIMITIVE_LIST, TILE_BINNING_MODE};
use relocation::Layout;
use tile_memory::alloc_offset;

/// Puts one byte at a place of the window.
#[inline]
#[tactic(auto, using(crate::proofs::Inside::one_byte))]
fn put_byte(out: &mut [u8], at: usize, bytes: &[u8])
    requires one { length bytes.now ≡ 1 }
    requires room { at + 1 ≤ length out.old }
    ensures { out.new ≡ with_bytes out.old at bytes.now }
{
    out[at] = bytes[0];
}

/// Puts at a place of the window so many bytes as are known before it runs, which is short work.
#[inline]
#[tactic(auto, using(crate::proofs::Inside::taken_whole))]
fn put_known<const N: usize>(out: &mut [u8], at: usize, bytes: &[u8])
    requires known { length bytes.now ≡ N }
    requires room { at + N ≤ length out.old }
    ensures { out.new ≡ with_bytes out.old at bytes.now }
{
    out[at..at + N].copy_from_slice(&bytes[..N]);
}

/// Puts any bytes at a place of the window.
fn put_any(out: &mut [u8], at: usize, bytes: &[u8])
    requires room { at + length bytes.now ≤ length out.old }
    ensures { out.new ≡ with_bytes out.old at bytes.now }
{
    out[at..at + bytes.len()].copy_from_slice(bytes);
}

/// Puts bytes at a place of the window, and gives the place behind them. Most packets have one of a few lengths.
#[inline]
pub(crate) fn put(out: &mut [u8], at: usize, bytes: &[u8]) -> usize
    requires room { at + length bytes.now ≤ length out.old }
    ensures text { out.new ≡ with_bytes out.old at bytes.now }
    ensures end { result ≡ at + length bytes.now }
{
    match bytes.len() {
        1 => put_byte(out, at, bytes),
        2 => put_known::<2>(out, at, bytes),
        4 => put_known::<4>(out, at, bytes),
        5 => put_known::<5>(out, at, bytes),
        9 => put_known::<9>(out, at, bytes),
        10 => put_known::<10>(out, at, bytes),
        14 => put_known::<14>(out, at, bytes),
        _ => put_any(out, at, bytes),
    }
    at + bytes.len()
}

/// An indexed primitive, with the address of its indexes in memory.
#[tactic(auto, unfolding(crate::specs::Emitted::index_text), using(field_words::proofs::Writes::with_inner))]
fn put_indexed(given: &Given, seen: &Seen, packet: &[u8], out: &mut [u8], at: usize) -> usize
    requires whole { 14 ≤ length packet.now }
    requires buffer { IsData given.now.table given.now.handles seen.now.index_handle }
    requires indexes { u32_at packet.now 6 ≤ (index_buffer given.now seen.now).size }
    requires room { at + length packet.now ≤ length out.old }
    ensures text { out.new ≡ with_bytes out.old at (index_text given.now seen.now packet.now) }
    ensures end { result ≡ at + length (index_text given.now seen.now packet.now) }
    ensures long { length (index_text given.now seen.now packet.now) ≤ length packet.now }
{
    let Some(buffer) = index_buffer(given, seen) else {
        unreachable!();
    };
    let end = put(out, at, packet);
    put_u32(out, at + 6, buffer.place + word_at(packet, 6));
    end
}

/// A shader state, with the place of its emitted record.
#[tactic(auto, unfolding(crate::specs::Emitted::state_text))]
fn put_state(layout: &Layout, seen: &Seen, packet: &[u8], out: &mut [u8], at: usize) -> usize
    requires low { IsLow layout.now }
    requires records { seen.now.records ≤ 144 * 65536 }
    requires whole { 5 ≤ length packet.now }
    requires room { at + length packet.now ≤ length out.old }
    ensures text { out.new ≡ with_bytes out.old at (state_text layout.now seen.now packet.now) }
    ensures end { result ≡ at + length (state_text layout.now seen.now packet.now) }
    ensures long { length (state_text layout.now seen.now packet.now) ≤ length packet.now }
{
    let record = layout.place + layout.records + seen.records;
    let [w0, w1, w2, w3] = (record + word_at(packet, 1) % 16).to_le_bytes();
    put(out, at, &[GL_SHADER_STATE, w0, w1, w2, w3])
}

// The bytes of a configuration, which names the parts of the job's tile slot.
#[tactic(auto, unfolding(crate::specs::Emitted::config_text))]
fn config_bytes(layout: &Layout, packet: &[u8]) -> [u8; 16]
    requires low { IsLow layout.now }
    requires whole { 16 ≤ length packet.now }
    requires grid { alloc_offset (slice_index packet.now 13 * slice_index packet.now 14)
        ≤ slot_size }
    ensures text { result ≡ config_text layout.now packet.now }
    ensures long { length (config_text layout.now packet.now) ≡ 16 }
{
    let across = byte_at(packet, 13);
    let down = byte_at(packet, 14);
    let start = alloc_offset(u32::from(across) * u32::from(down));
    let [a0, a1, a2, a3] = (layout.slot + start).to_le_bytes();
    let [n0, n1, n2, n3] = (SLOT_SIZE - start).to_le_bytes();
    let [s0, s1, s2, s3] = layout.slot.to_le_bytes();
    let flags = byte_at(packet, 15) % 2 + 0x44;
    [
        TILE_BINNING_MODE,
        a0,
        a1,
        a2,
        a3,
        n0,
        n1,
        n2,
        n3,
        s0,
        s1,
        s2,
        s3,
        across,
        down,
        flags,
    ]
}

/// A configuration, which names the parts of the job's tile slot.
fn put_config(layout: &Layout, packet: &[u8], out: &mut [u8], at: usize) -> usize
    requires low { IsLow layout.now }
    requires whole { 16 ≤ length packet.now }
    requires grid { alloc_offset (slice_index packet.now 13 * slice_index packet.now 14)
        ≤ slot_size }
    requires room { at + length packet.now ≤ length out.old }
    ensures text { out.new ≡ with_bytes out.old at (config_text layout.now packet.now) }
    ensures end { result ≡ at + length (config_text layout.now packet.now) }
    ensures long { length (config_text layout.now packet.now) ≤ length packet.now }
{
    put(out, at, &config_bytes(layout, packet))
}

/// Writes what a packet is emitted as, and gives the place behind it.
#[tactic(auto, unfolding(crate::specs::Emitted::packet_text, packets::specs::Length::bin_length), using(field_words::proofs::Writes::with_nothing))]
pub(crate) fn put_packet(
    given: &Given,
    layout: &Layout,
    seen: &Seen,
    packet: &[u8],
    out: &mut [u8],
    at: usize,
) -> usize
    requires some { 1 ≤ length packet.now }
    requires fine { IsFine given.now seen.now packet.now }
    requires low { IsLow layout.now }
    requires few { given.now.declared ≤ 65536 }
    requires records { seen.now.records ≤ 144 * seen.now.states }
    requires room { at + length packet.now ≤ length out.old }
    ensures text { out.new ≡ with_bytes out.old at
        (packet_text given.now layout.now seen.now packet.now) }
    ensures end { result ≡ at + length (packet_text given.now layout.now seen.now packet.now) }
    ensures long { length (packet_text given.now layout.now seen.now packet.now)
        ≤ length packet.now }
{
    match opcode(packet) {
        BUFFER_HANDLES => at,
        INDEXED_PRIMITIVE_LIST => put_indexed(given, seen, packet, out, at),
        GL_SHADER_STATE => put_state(layout, seen, packet, out, at),
        TILE_BINNING_MODE => put_config(layout, packet, out, at),
        _ => put(out, at, packet),
    }
}
