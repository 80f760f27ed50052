//! The rules of a binner list, kind by kind of packet.
ghost use Rattle.std.specs.Prelude.{◌≡◌, ◌≤◌, ◌<◌, ◌+◌, ◌*◌, ◌^◌, ◌++◌, length, slice_index, is_some, IfNone, IfSome};
ghost use Rattle.field_words.specs.Sizes.{slot_size};
ghost use Rattle.buffer_table.specs.Table.{most_place};
ghost use Rattle.field_words.specs.Words.{u32_at};
ghost use Rattle.std.specs.Option.{SomeIff};
ghost use Rattle.field_words.specs.Questions.{first_of};
ghost use Rattle.buffer_table.specs.Handles.{IsData, data_of};
ghost use Rattle.tile_memory.specs.Slots.{alloc_offset};
ghost use Rattle.packets.specs.Length.{bin_length};
ghost use Rattle.bin_list.specs.Packets.{opcode};
ghost use Rattle.bin_list.specs.Fine.{IsFine};
ghost use Rattle.bin_list.specs.Rules.{cut_questions, flush_questions, start_questions, increment_questions, primitive_questions, index_buffer, index_size, indexes_end, index_questions, array_questions, state_questions, config_questions, kind_questions, packet_questions, end_questions};

use crate::cut::opcode;
use crate::given::Given;
use crate::rule::BinRule;
use crate::seen::Seen;
use buffer_table::{Buffer, use_data};
use field_words::{byte_at, word_at};
use packets::bin_length;
use packets::opcode::{
    ARRAY_PRIMITIVE_LIST, FLUSH, GL_SHADER_STATE, INCREMENT_SEMAPHORE, INDEXED_PRIMITIVE_LIST,
    START_TILE_BINNING, TILE_BINNING_MODE,
};
use tile_memory::slot_fits;

/// B1 and B2. The packet is whole where neither is broken.
#[tactic(auto, unfolding(crate::specs::Rules::cut_questions))]
fn cut_fault(packet: &[u8]) -> Option<BinRule>
    requires { 1 ≤ length packet.now }
    ensures first { result ≡ first_of (cut_questions packet.now) }
    ensures whole { IfNone result (bin_length (opcode packet.now) ≤ length packet.now) }
{
    let length = bin_length(opcode(packet)) as usize;
    if length == 0 {
        return Some(BinRule::UnknownOpcode);
    }
    if packet.len() < length {
        return Some(BinRule::CutOff);
    }
    None
}

/// B3.
#[tactic(auto, unfolding(crate::specs::Rules::flush_questions))]
fn flush_fault(given: &Given, seen: &Seen) -> Option<BinRule>
    ensures { result ≡ first_of (flush_questions given.now seen.now) }
{
    if seen.at as usize + 1 != given.size {
        return Some(BinRule::FlushNotLast);
    }
    None
}

/// B4 and B5.
#[tactic(auto, unfolding(crate::specs::Rules::start_questions))]
fn start_fault(seen: &Seen) -> Option<BinRule>
    ensures { result ≡ first_of (start_questions seen.now) }
{
    if seen.started {
        return Some(BinRule::SecondStart);
    }
    if !seen.configured {
        return Some(BinRule::StartWithoutConfig);
    }
    None
}

/// B6.
#[tactic(auto, unfolding(crate::specs::Rules::increment_questions))]
fn increment_fault(given: &Given, seen: &Seen) -> Option<BinRule>
    ensures { result ≡ first_of (increment_questions given.now seen.now) }
{
    if seen.at as usize + 2 != given.size {
        return Some(BinRule::IncrementNotLast);
    }
    None
}

/// B7 and B8.
#[tactic(auto, unfolding(crate::specs::Rules::primitive_questions))]
fn primitive_fault(seen: &Seen) -> Option<BinRule>
    ensures { result ≡ first_of (primitive_questions seen.now) }
{
    if seen.states == 0 {
        return Some(BinRule::PrimitiveWithoutState);
    }
    if !seen.started {
        return Some(BinRule::PrimitiveWithoutStart);
    }
    None
}

/// The buffer that the indexes come from. `None` comes exactly where its handle names no data buffer.
#[inline(always)]
#[tactic(auto, unfolding(crate::specs::Rules::index_buffer))]
pub(crate) fn index_buffer(given: &Given, seen: &Seen) -> Option<Buffer>
    ensures exact { SomeIff result (IsData given.now.table given.now.handles seen.now.index_handle)
        (index_buffer given.now seen.now) }
    ensures some { is_some result
        ≡ is_some (data_of given.now.table given.now.handles seen.now.index_handle) }
    ensures inside { IfSome result (λ buffer. buffer.place + buffer.size ≤ most_place) }
{
    let number = use_data(given.table, given.handles, seen.index_handle)?;
    Some(given.table.buffer(number))
}

/// The bytes of an index.
#[inline(always)]
#[tactic(auto, unfolding(crate::specs::Rules::index_size))]
fn index_size(packet: &[u8]) -> u64
    requires { 2 ≤ length packet.now }
    ensures value { result ≡ index_size packet.now }
    ensures limit { result ≤ 2 }
{
    if byte_at(packet, 1) / 16 == 0 { 1 } else { 2 }
}

/// Where the indexes end in their buffer.
#[inline(always)]
#[tactic(auto, unfolding(crate::specs::Rules::indexes_end))]
fn indexes_end(packet: &[u8]) -> u64
    requires { 14 ≤ length packet.now }
    ensures value { result ≡ indexes_end packet.now }
    ensures from { u32_at packet.now 6 ≤ result }
{
    u64::from(word_at(packet, 6)) + u64::from(word_at(packet, 2)) * index_size(packet)
}

/// B9 and B10. Where neither is broken, the indexes begin inside a data buffer.
#[tactic(auto, unfolding(crate::specs::Rules::index_questions))]
fn index_fault(given: &Given, seen: &Seen, packet: &[u8]) -> Option<BinRule>
    requires { 14 ≤ length packet.now }
    ensures first { result ≡ first_of (index_questions given.now seen.now packet.now) }
    ensures buffer { IfNone result (IsData given.now.table given.now.handles
        seen.now.index_handle) }
    ensures indexes { IfNone result (u32_at packet.now 6 ≤ (index_buffer given.now seen.now).size) }
{
    let Some(buffer) = index_buffer(given, seen) else {
        return Some(BinRule::NoIndexBuffer);
    };
    if indexes_end(packet) > u64::from(buffer.size) {
        return Some(BinRule::IndexesOutside);
    }
    None
}

/// B11.
#[tactic(auto, unfolding(crate::specs::Rules::array_questions))]
fn array_fault(packet: &[u8]) -> Option<BinRule>
    requires { 10 ≤ length packet.now }
    ensures first { result ≡ first_of (array_questions packet.now) }
    ensures fits { IfNone result (u32_at packet.now 6 + u32_at packet.now 2 < 2 ^ 32) }
{
    if u64::from(word_at(packet, 6)) + u64::from(word_at(packet, 2)) >= 1 << 32 {
        return Some(BinRule::IndexOverflow);
    }
    None
}

/// B12 and B13.
#[tactic(auto, unfolding(crate::specs::Rules::state_questions))]
fn state_fault(given: &Given, seen: &Seen, packet: &[u8]) -> Option<BinRule>
    requires { 5 ≤ length packet.now }
    ensures first { result ≡ first_of (state_questions given.now seen.now packet.now) }
    ensures declared { IfNone result (seen.now.states < given.now.declared) }
{
    if seen.states >= given.declared {
        return Some(BinRule::UndeclaredState);
    }
    if word_at(packet, 1) >= 16 {
        return Some(BinRule::StateBits);
    }
    None
}

/// B14 to B17.
#[tactic(auto, unfolding(crate::specs::Rules::config_questions))]
fn config_fault(seen: &Seen, packet: &[u8]) -> Option<BinRule>
    requires { 16 ≤ length packet.now }
    ensures first { result ≡ first_of (config_questions seen.now packet.now) }
    ensures grid { IfNone result (alloc_offset
        (slice_index packet.now 13 * slice_index packet.now 14) ≤ slot_size) }
{
    let across = byte_at(packet, 13);
    let down = byte_at(packet, 14);
    if seen.configured {
        return Some(BinRule::SecondConfig);
    }
    if across == 0 || down == 0 {
        return Some(BinRule::NoTiles);
    }
    if byte_at(packet, 15) & 0x82 != 0 {
        return Some(BinRule::ConfigFlags);
    }
    if !slot_fits(u32::from(across) * u32::from(down)) {
        return Some(BinRule::TooManyTiles);
    }
    None
}

/// The rules of an indexed primitive.
#[tactic(auto, using(field_words::proofs::Questions::passes, field_words::proofs::Questions::stops))]
fn indexed_primitive_fault(given: &Given, seen: &Seen, packet: &[u8]) -> Option<BinRule>
    requires { 14 ≤ length packet.now }
    ensures first { result ≡ first_of (primitive_questions seen.now
        ++ index_questions given.now seen.now packet.now) }
    ensures buffer { IfNone result (IsData given.now.table given.now.handles
        seen.now.index_handle) }
    ensures indexes { IfNone result (u32_at packet.now 6 ≤ (index_buffer given.now seen.now).size) }
{
    match primitive_fault(seen) {
        Some(rule) => Some(rule),
        None => index_fault(given, seen, packet),
    }
}

/// The rules of an array primitive.
#[tactic(auto, using(field_words::proofs::Questions::passes, field_words::proofs::Questions::stops))]
fn array_primitive_fault(seen: &Seen, packet: &[u8]) -> Option<BinRule>
    requires { 10 ≤ length packet.now }
    ensures first { result ≡ first_of (primitive_questions seen.now ++ array_questions packet.now) }
    ensures fits { IfNone result (u32_at packet.now 6 + u32_at packet.now 2 < 2 ^ 32) }
{
    match primitive_fault(seen) {
        Some(rule) => Some(rule),
        None => array_fault(packet),
    }
}

/// The rules of a whole packet's kind.
#[tactic(auto, unfolding(crate::specs::Rules::kind_questions, packets::specs::Length::bin_length))]
fn kind_fault(given: &Given, seen: &Seen, packet: &[u8]) -> Option<BinRule>
    requires some { 1 ≤ length packet.now }
    requires whole { bin_length (opcode packet.now) ≤ length packet.now }
    ensures first { result ≡ first_of (kind_questions given.now seen.now packet.now) }
    ensures fine { IfNone result (IsFine given.now seen.now packet.now) }
{
    match opcode(packet) {
        FLUSH => flush_fault(given, seen),
        START_TILE_BINNING => start_fault(seen),
        INCREMENT_SEMAPHORE => increment_fault(given, seen),
        INDEXED_PRIMITIVE_LIST => indexed_primitive_fault(given, seen, packet),
        ARRAY_PRIMITIVE_LIST => array_primitive_fault(seen, packet),
        GL_SHADER_STATE => state_fault(given, seen, packet),
        TILE_BINNING_MODE => config_fault(seen, packet),
        _ => None,
    }
}

/// The first broken rule at this packet.
#[tactic(auto, unfolding(crate::specs::Rules::packet_questions), using(field_words::proofs::Questions::passes, field_words::proofs::Questions::stops))]
pub(crate) fn packet_fault(given: &Given, seen: &Seen, packet: &[u8]) -> Option<BinRule>
    requires { 1 ≤ length packet.now }
    ensures first { result ≡ first_of (packet_questions given.now seen.now packet.now) }
    ensures fine { IfNone result (IsFine given.now seen.now packet.now) }
{
    match cut_fault(packet) {
        Some(rule) => Some(rule),
        None => kind_fault(given, seen, packet),
    }
}

/// B18 and B19.
#[tactic(auto, unfolding(crate::specs::Rules::end_questions))]
pub(crate) fn end_fault(seen: &Seen) -> Option<BinRule>
    ensures { result ≡ first_of (end_questions seen.now) }
{
    if !seen.started {
        return Some(BinRule::NoStart);
    }
    if !(seen.before_last == INCREMENT_SEMAPHORE && seen.last == FLUSH) {
        return Some(BinRule::NoEnd);
    }
    None
}
