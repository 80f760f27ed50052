//! Cutting a binner list into packets, and reading a packet's fields.
ghost use Rattle.std.specs.Prelude.{◌≡◌, ◌≤◌, ◌+◌, length, IfSome};
ghost use Rattle.packets.specs.Length.{bin_taken};
ghost use Rattle.bin_list.specs.Packets.{opcode, draws, front_packet, behind};
ghost use Rattle.bin_list.specs.Fine.{IsPlainFront};

use field_words::byte_at;
use packets::bin_taken;
use packets::opcode::{ARRAY_PRIMITIVE_LIST, HALT, INDEXED_PRIMITIVE_LIST};

/// A packet's opcode.
#[inline(always)]
pub(crate) fn opcode(packet: &[u8]) -> u8
    requires { 1 ≤ length packet.now }
    ensures { result ≡ opcode packet.now }
{
    packet[0]
}

/// Whether a packet draws a primitive.
#[tactic(auto, unfolding(crate::specs::Packets::draws))]
pub fn draws(packet: &[u8]) -> bool
    ensures { result ≡ draws packet.now }
{
    let opcode = byte_at(packet, 0);
    opcode == INDEXED_PRIMITIVE_LIST || opcode == ARRAY_PRIMITIVE_LIST
}

/// The bytes of a plain packet by its opcode, from opcode 0 on. It is 0 where no packet has the opcode, and where one has rules
/// of its own, tells something to later packets, isn't copied as it is, or ends the list.
static PLAIN_LENGTHS: [u8; 256] = [
    0, 1, 0, 0, 0, 0, 0, 0, 0, 0, 0, 0, 0, 0, 0, 0, 0, 0, 0, 0, 0, 0, 0, 0, 0, 0, 0, 0, 0, 0, 0, 0,
    0, 0, 0, 0, 0, 0, 0, 0, 0, 0, 0, 0, 0, 0, 0, 0, 0, 0, 0, 0, 0, 0, 0, 0, 2, 0, 0, 0, 0, 0, 0, 0,
    0, 0, 0, 0, 0, 0, 0, 0, 0, 0, 0, 0, 0, 0, 0, 0, 0, 0, 0, 0, 0, 0, 0, 0, 0, 0, 0, 0, 0, 0, 0, 0,
    4, 5, 5, 5, 3, 5, 9, 5, 0, 9, 9, 0, 0, 0, 0, 0, 0, 0, 0, 0, 0, 0, 0, 0, 0, 0, 0, 0, 0, 0, 0, 0,
    0, 0, 0, 0, 0, 0, 0, 0, 0, 0, 0, 0, 0, 0, 0, 0, 0, 0, 0, 0, 0, 0, 0, 0, 0, 0, 0, 0, 0, 0, 0, 0,
    0, 0, 0, 0, 0, 0, 0, 0, 0, 0, 0, 0, 0, 0, 0, 0, 0, 0, 0, 0, 0, 0, 0, 0, 0, 0, 0, 0, 0, 0, 0, 0,
    0, 0, 0, 0, 0, 0, 0, 0, 0, 0, 0, 0, 0, 0, 0, 0, 0, 0, 0, 0, 0, 0, 0, 0, 0, 0, 0, 0, 0, 0, 0, 0,
    0, 0, 0, 0, 0, 0, 0, 0, 0, 0, 0, 0, 0, 0, 0, 0, 0, 0, 0, 0, 0, 0, 0, 0, 0, 0, 0, 0, 0, 0, 0, 0,
];

/// The bytes of the plain packet that is whole at the front; `None` where there is none. Most packets are plain.
#[inline(always)]
#[tactic(auto, using(crate::proofs::Front::plain_front))]
pub(crate) fn plain_front(bytes: &[u8]) -> Option<usize>
    requires { 1 ≤ length bytes.now }
    ensures { IfSome result (λ n. IsPlainFront bytes.now n) }
{
    let taken = PLAIN_LENGTHS[bytes[0] as usize] as usize;
    if taken != 0 && taken <= bytes.len() {
        Some(taken)
    } else {
        None
    }
}

/// The plain packet at the front of the bytes, and the bytes behind it.
#[inline(always)]
pub(crate) fn split_plain(bytes: &[u8], taken: usize) -> (&[u8], &[u8])
    requires { IsPlainFront bytes.now taken }
    ensures packet { result.0.now ≡ front_packet bytes.now }
    ensures rest { result.1.now ≡ behind bytes.now }
    ensures some { 1 ≤ length result.0.now }
    ensures fits { length result.0.now + length result.1.now ≤ length bytes.now }
{
    bytes.split_at(taken)
}

#[tactic(auto, unfolding(crate::specs::Packets::front_packet, crate::specs::Packets::behind, packets::specs::Length::bin_taken), using(crate::proofs::Cutting::drop_min, crate::proofs::Cutting::take_min))]
#[inline]
fn cut_front(bytes: &[u8]) -> (&[u8], &[u8])
    requires { 1 ≤ length bytes.now }
    ensures packet { result.0.now ≡ front_packet bytes.now }
    ensures rest { result.1.now ≡ behind bytes.now }
{
    let taken = bin_taken(bytes[0]) as usize;
    let (packet, rest) = bytes.split_at(taken.min(bytes.len()));
    if bytes[0] == HALT {
        return (packet, &rest[..0]);
    }
    (packet, rest)
}

/// The packet at the front of the bytes, and the bytes behind it that are still read: none behind a halt.
#[inline]
pub fn split_front(bytes: &[u8]) -> (&[u8], &[u8])
    requires { 1 ≤ length bytes.now }
    ensures packet { result.0.now ≡ front_packet bytes.now }
    ensures rest { result.1.now ≡ behind bytes.now }
    ensures some { 1 ≤ length result.0.now }
    ensures fits { length result.0.now + length result.1.now ≤ length bytes.now }
{
    cut_front(bytes)
}
