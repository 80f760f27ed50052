//! The strict rules at one packet.
ghost use Rattle.std.specs.Prelude.{◌≡◌, ◌≤◌, length};
ghost use Rattle.field_words.specs.Questions.{first_of};
ghost use Rattle.strict_lists.specs.Rules.{e9, e10, is_reset, e13, packet_questions};
ghost use Rattle.bin_list.specs.Packets.{draws};

use crate::course::Course;
use crate::rule::ListRule;
use bin_list::draws;
use field_words::byte_at;
use packets::opcode::{
    ARRAY_PRIMITIVE_LIST, INDEXED_PRIMITIVE_LIST, PRIMITIVE_LIST_FORMAT, START_TILE_BINNING,
};

// A primitive of no kind.
#[tactic(auto, unfolding(crate::specs::Rules::e9))]
fn breaks_e9(packet: &[u8]) -> bool
    requires { 1 ≤ length packet.now }
    ensures { result ≡ e9 packet.now }
{
    let kind = byte_at(packet, 1);
    (packet[0] == INDEXED_PRIMITIVE_LIST && (1 < kind / 16 || 6 < kind % 16))
        || (packet[0] == ARRAY_PRIMITIVE_LIST && 6 < kind)
}

// One primitive too many.
#[tactic(auto, unfolding(crate::specs::Rules::e10))]
fn breaks_e10(course: &Course, packet: &[u8]) -> bool
    requires { 1 ≤ length packet.now }
    ensures { result ≡ e10 course.now packet.now }
{
    draws(packet) && course.primitives == 7920
}

// The reset that a tile list begins with.
#[tactic(auto, unfolding(crate::specs::Rules::is_reset))]
fn is_reset(packet: &[u8]) -> bool
    requires { 1 ≤ length packet.now }
    ensures { result ≡ is_reset packet.now }
{
    packet[0] == PRIMITIVE_LIST_FORMAT && byte_at(packet, 1) == 18
}

// A tile list doesn't begin with the reset, or has another format later.
#[tactic(auto, unfolding(crate::specs::Rules::e13))]
fn breaks_e13(course: &Course, packet: &[u8]) -> bool
    requires { 1 ≤ length packet.now }
    ensures { result ≡ e13 course.now packet.now }
{
    if course.last == START_TILE_BINNING {
        return !is_reset(packet);
    }
    course.started && packet[0] == PRIMITIVE_LIST_FORMAT
}

/// The first strict rule that the packet breaks.
#[tactic(auto, unfolding(crate::specs::Rules::packet_questions))]
pub(crate) fn broken(course: &Course, packet: &[u8]) -> Option<ListRule>
    requires { 1 ≤ length packet.now }
    ensures { result ≡ first_of (packet_questions course.now packet.now) }
{
    if breaks_e9(packet) {
        return Some(ListRule::PrimitiveKind);
    }
    if breaks_e10(course, packet) {
        return Some(ListRule::PrimitiveCount);
    }
    if breaks_e13(course, packet) {
        return Some(ListRule::ListFormat);
    }
    None
}
