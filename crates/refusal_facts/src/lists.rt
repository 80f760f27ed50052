//! The facts of binner lists.
ghost use Rattle.std.specs.Prelude.{◌≡◌, ◌≤◌, length};
ghost use Rattle.field_words.specs.Sizes.{most_list};
ghost use Rattle.bin_list.specs.{Packets.packets, States.states_of};
ghost use Rattle.refusal_facts.specs.Lists.{draw_of, handle_behind, draw_among, indexes_at, states_fact};
ghost use Rattle.refusal_facts.specs.Whole.{bin_facts};

use crate::fact::{Facts, IndexFact, StateFact};
use crate::known::{Known, named};
use bin_list::split_front;
use field_words::{byte_at, word_at};
use packets::opcode::{BUFFER_HANDLES, GL_SHADER_STATE};

/// What a packet draws: so many indexes of 1 or 2 bytes, from `address` on in the buffer of a handle.
#[derive(Clone, Copy)]
pub(crate) struct Draw {
    handle: u32,
    address: u32,
    count: u32,
    bytes: u32,
}

// What a packet draws with the handle that is in force.
#[tactic(auto, unfolding(crate::specs::Lists::draw_of, bin_list::specs::Rules::index_size))]
fn draw_of(handle: u32, packet: &[u8]) -> Draw
    ensures { result ≡ draw_of handle packet.now }
{
    let bytes = if byte_at(packet, 1) / 16 == 0 { 1 } else { 2 };
    Draw {
        handle,
        address: word_at(packet, 6),
        count: word_at(packet, 2),
        bytes,
    }
}

// The handle that is in force behind a packet.
#[tactic(auto, unfolding(crate::specs::Lists::handle_behind))]
fn handle_behind(packet: &[u8], handle: u32) -> u32
    requires { 1 ≤ length packet.now }
    ensures { result ≡ handle_behind packet.now handle }
{
    if packet[0] == BUFFER_HANDLES {
        word_at(packet, 1)
    } else {
        handle
    }
}

// What the packet of a list draws that begins at a byte.
#[tactic(auto, using(crate::proofs::Walk::draw_here, crate::proofs::Walk::draw_past, crate::proofs::Walk::draw_none))]
fn draw_in(list: &[u8], byte: u64) -> Option<Draw>
    requires { length list.now ≤ most_list }
    ensures { result ≡ draw_among byte (packets list.now) 0 0 }
{
    let mut at = 0u64;
    let mut handle = 0u32;
    let mut rest = list;
    while !rest.is_empty() {
        let (packet, behind) = split_front(rest);
        if at == byte {
            return Some(draw_of(handle, packet));
        }
        handle = handle_behind(packet, handle);
        at += packet.len() as u64;
        rest = behind;
    }
    None
}

// B10: the indexes that the packet draws that begins at a byte.
#[tactic(auto, unfolding(crate::specs::Lists::indexes_at))]
fn indexes_at(known: &Known, byte: u64) -> Option<IndexFact>
    ensures { result ≡ indexes_at known.now byte }
{
    let draw = draw_in(known.job.bin, byte)?;
    Some(IndexFact {
        buffer: named(known, draw.handle)?,
        address: draw.address,
        count: draw.count,
        bytes: draw.bytes,
    })
}

// How many shader states a list has.
#[tactic(auto, using(crate::proofs::Walk::states_here, crate::proofs::Walk::states_past, crate::proofs::Walk::states_none))]
fn count_states(list: &[u8]) -> u64
    requires { length list.now ≤ most_list }
    ensures { result ≡ length (states_of (packets list.now)) }
{
    let mut count = 0u64;
    let mut rest = list;
    while !rest.is_empty() {
        let (packet, behind) = split_front(rest);
        if packet[0] == GL_SHADER_STATE {
            count += 1;
        }
        rest = behind;
    }
    count
}

// B12: how many states the job declares, and how many there are.
fn states_fact(known: &Known) -> StateFact
    ensures { result ≡ states_fact known.now }
{
    StateFact {
        declared: known.job.declared,
        states: count_states(known.job.bin),
    }
}

/// B10 and B12, of a job, at a byte of its binner list.
#[tactic(auto, unfolding(crate::specs::Whole::bin_facts))]
pub(crate) fn bin_facts(known: &Known, number: u8, at: u64) -> Option<Facts>
    ensures { result ≡ bin_facts known.now number at }
{
    match number {
        10 => Some(Facts::Indexes(indexes_at(known, at)?)),
        12 => Some(Facts::States(states_fact(known))),
        _ => None,
    }
}
