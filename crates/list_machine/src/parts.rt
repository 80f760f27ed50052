//! The accesses of loads and stores.
#![tactic(auto, unfolding(crate::proofs::Opened::parts))]

ghost use Rattle.std.specs.Prelude.{◌≡◌, ◌*◌, ◌≤◌, ◌<◌, ◌^◌, true, IfSome};
ghost use Rattle.arrayvec.specs.ArrayVec.{array_vec_len};
ghost use Rattle.machine_plan.specs.Memory.{bytes_stored};
ghost use Rattle.list_machine.specs.Store.{chosen_byte, bytes_chosen};
ghost use Rattle.list_machine.specs.Cover.{IsSmall, part_count, part_place, parts_written, parts_read};
ghost use Rattle.list_machine.specs.Surfaces.{Stores, Loads, aligned_address, names_none, whole_written, cover_written, cover_read, general_written, general_read, frame_written, waiting_read};

use crate::cover::{cover_for, part_count, part_place};
use crate::reads::end_wild;
use crate::state::Load;
use crate::surface::{Cover, Tile};
use crate::turn::Turn;
use field_words::{Way, field};
use machine_plan::{Accesses, Choices, Who, list_access, put_byte};
use phys_mem::PhysMem;
use texture_layouts::{frame_style, general_style};

/// A buffer that is stored to or loaded from by general bits: the bits, and its address.
#[derive(Clone, Copy, Debug, PartialEq, Eq)]
pub(crate) struct Buffer {
    pub bits: u16,
    pub address: u32,
}

/// The bytes of a tile in full resolution.
const WHOLE_SIZE: u32 = 16384;

/// Byte `k` of the choice words.
fn byte_of_words<C: Choices>(words: &C, k: u64) -> u8
    requires { k < 2 ^ 20 }
    ensures { result ≡ chosen_byte (C.listed words.now) k }
{
    let word = words.word(k / 4);
    ((word >> (8 * (k % 4)) as u32) % 256) as u8
}

/// Writes `size` chosen bytes at `place`, from byte `from` of the choice words on.
#[tactic(auto, using(crate::proofs::Storing::chosen_step), unfolding(crate::specs::Store::bytes_chosen, machine_plan::specs::Memory::bytes_stored))]
fn store_chosen<C: Choices>(memory: &mut PhysMem, place: u64, words: &C, from: u64, size: u32)
    requires few { size ≤ 2 ^ 14 }
    requires near { from ≤ 2 ^ 19 }
    requires room { place ≤ 2 ^ 60 }
    ensures { memory.new ≡ bytes_stored memory.old place
        (bytes_chosen (C.listed words.now) from size) }
{
    for i in 0..size {
        put_byte(
            memory,
            place + i as u64,
            byte_of_words(words, from + i as u64),
        );
    }
}

/// How many bytes the parts before part `i` take.
#[tactic(auto, using(crate::proofs::Storing::bytes_limit))]
fn bytes_before(cover: &Cover, i: u32) -> u64
    requires small { IsSmall cover.now }
    requires part { i < 256 }
    ensures value { result ≡ i * cover.now.size }
    ensures limit { result ≤ 2 ^ 19 }
{
    i as u64 * cover.size as u64
}

/// Writes all parts with the bytes of the choice words, and lists a write of each.
fn write_parts<C: Choices>(
    cover: &Cover,
    turn: &Turn<C>,
    memory: &mut PhysMem,
    accesses: &mut Accesses,
)
    requires small { IsSmall cover.now }
    requires room { array_vec_len accesses.old ≤ 8 }
    ensures { Stores turn.now.who
        (parts_written cover.now (C.listed turn.now.words.now) 0 (part_count cover.now)) memory.old
        memory.new accesses.old accesses.new true }
{
    for i in 0..part_count(cover) {
        let place = part_place(cover, i);
        store_chosen(
            memory,
            place,
            turn.words,
            bytes_before(cover, i),
            cover.size,
        );
        list_access(turn.who, Way::Write, place, cover.size, accesses);
    }
}

/// Lists a read of each part.
fn read_parts(cover: &Cover, who: Who, accesses: &mut Accesses)
    requires small { IsSmall cover.now }
    requires room { array_vec_len accesses.old ≤ 8 }
    ensures { Loads who (parts_read cover.now 0 (part_count cover.now)) accesses.old
        accesses.new true }
{
    for i in 0..part_count(cover) {
        list_access(who, Way::Read, part_place(cover, i), cover.size, accesses);
    }
}

/// Writes all parts of a cover. False comes exactly where there is none, which is undefined.
fn write_cover<C: Choices>(
    cover: Option<Cover>,
    turn: &Turn<C>,
    memory: &mut PhysMem,
    accesses: &mut Accesses,
) -> bool
    requires small { IfSome cover IsSmall }
    requires room { array_vec_len accesses.old ≤ 8 }
    ensures { Stores turn.now.who (cover_written cover (C.listed turn.now.words.now)) memory.old
        memory.new accesses.old accesses.new result }
{
    match cover {
        Some(cover) => {
            write_parts(&cover, turn, memory, accesses);
            true
        }
        None => end_wild(turn.who, accesses),
    }
}

/// Reads all parts of a cover. False comes exactly where there is none, which is undefined.
fn read_cover(cover: Option<Cover>, who: Who, accesses: &mut Accesses) -> bool
    requires small { IfSome cover IsSmall }
    requires room { array_vec_len accesses.old ≤ 8 }
    ensures { Loads who (cover_read cover) accesses.old accesses.new result }
{
    match cover {
        Some(cover) => {
            read_parts(&cover, who, accesses);
            true
        }
        None => end_wild(who, accesses),
    }
}

/// An address without its low four bits.
fn aligned(address: u32) -> u32
    ensures { result ≡ aligned_address address }
{
    address - address % 16
}

/// Whether general bits name no buffer.
fn names_none(bits: u16) -> bool
    ensures { result ≡ names_none bits }
{
    field(bits as u64, 2, 0) == 0
}

/// Stores tile (x, y) by general bits. False comes exactly where that is undefined.
pub(crate) fn store_general<C: Choices>(
    buffer: Buffer,
    tile: Tile,
    turn: &Turn<C>,
    memory: &mut PhysMem,
    accesses: &mut Accesses,
) -> bool
    requires { array_vec_len accesses.old ≤ 8 }
    ensures { let words = C.listed turn.now.words.now in Stores turn.now.who
        (general_written buffer.bits buffer.address tile.frame tile.x tile.y words)
        memory.old memory.new accesses.old accesses.new result }
{
    if names_none(buffer.bits) {
        return true;
    }
    let style = general_style(buffer.bits);
    let cover = cover_for(style, tile.frame, aligned(buffer.address), tile.x, tile.y);
    write_cover(cover, turn, memory, accesses)
}

/// Loads tile (x, y) by general bits. False comes exactly where that is undefined.
fn load_general(buffer: Buffer, tile: Tile, who: Who, accesses: &mut Accesses) -> bool
    requires { array_vec_len accesses.old ≤ 8 }
    ensures { Loads who (general_read buffer.bits buffer.address tile.frame tile.x tile.y)
        accesses.old accesses.new result }
{
    if names_none(buffer.bits) {
        return true;
    }
    let style = general_style(buffer.bits);
    let cover = cover_for(style, tile.frame, aligned(buffer.address), tile.x, tile.y);
    read_cover(cover, who, accesses)
}

/// Stores tile (x, y) of the frame. False comes exactly where that is undefined.
pub(crate) fn store_frame<C: Choices>(
    tile: Tile,
    turn: &Turn<C>,
    memory: &mut PhysMem,
    accesses: &mut Accesses,
) -> bool
    requires { array_vec_len accesses.old ≤ 8 }
    ensures { let words = C.listed turn.now.words.now in Stores turn.now.who
        (frame_written tile.frame tile.x tile.y words) memory.old memory.new accesses.old
        accesses.new result }
{
    match tile.frame {
        None => end_wild(turn.who, accesses),
        Some(frame) => {
            let style = frame_style(frame.bits);
            let cover = cover_for(style, Some(frame), frame.address, tile.x, tile.y);
            write_cover(cover, turn, memory, accesses)
        }
    }
}

/// Stores a tile in full resolution.
#[tactic(auto, unfolding(crate::specs::Surfaces::whole_written), using(crate::proofs::Storing::chosen_size))]
pub(crate) fn store_whole<C: Choices>(
    address: u32,
    turn: &Turn<C>,
    memory: &mut PhysMem,
    accesses: &mut Accesses,
)
    requires { array_vec_len accesses.old ≤ 8 }
    ensures { Stores turn.now.who (whole_written address (C.listed turn.now.words.now)) memory.old
        memory.new accesses.old accesses.new true }
{
    let place = aligned(address) as u64;
    store_chosen(memory, place, turn.words, 0, WHOLE_SIZE);
    list_access(turn.who, Way::Write, place, WHOLE_SIZE, accesses);
}

/// Does the load that waits, where one does. False comes exactly where that is undefined.
pub(crate) fn load_waiting(
    waiting: Option<Load>,
    tile: Tile,
    who: Who,
    accesses: &mut Accesses,
) -> bool
    requires { array_vec_len accesses.old ≤ 8 }
    ensures { Loads who (waiting_read waiting tile.frame tile.x tile.y) accesses.old
        accesses.new result }
{
    match waiting {
        None => true,
        Some(Load::Full(address)) => {
            let place = aligned(address) as u64;
            list_access(who, Way::Read, place, WHOLE_SIZE, accesses);
            true
        }
        Some(Load::General { bits, address }) => {
            load_general(Buffer { bits, address }, tile, who, accesses)
        }
    }
}
