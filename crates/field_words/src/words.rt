//! Little-endian numbers at a place, bit fields, and rounding up.
ghost use Rattle.std.specs.Prelude.{◌≡◌, ◌+◌, ◌-◌, ◌*◌, ◌%◌, ◌^◌, ◌<◌, ◌≤◌, length, drop, slice_index};
ghost use Rattle.std.specs.Option.{SomeIff};
ghost use Rattle.std.specs.Int.{to_le_bytes, w32};
ghost use Rattle.field_words.specs.Words.{u16_at, u32_at, bits_of, IsRoundedUp};
ghost use Rattle.field_words.specs.Writes.{with_bytes};

use byteorder::{ByteOrder, LittleEndian};

/// The little-endian number of two bytes at `at`. `None` comes exactly where the two bytes do
/// not lie inside `bytes`.
#[tactic(auto, unfolding(crate::specs::Words::u16_at))]
pub fn get_u16(bytes: &[u8], at: usize) -> Option<u16>
    ensures { SomeIff result (at + 2 ≤ length bytes.now) (u16_at bytes.now at) }
{
    if at >= bytes.len() || bytes.len() - at < 2 {
        return None;
    }
    Some(LittleEndian::read_u16(&bytes[at..]))
}

/// The little-endian number of four bytes at `at`. `None` comes exactly where the four bytes do
/// not lie inside `bytes`.
#[tactic(auto, unfolding(crate::specs::Words::u32_at))]
pub fn get_u32(bytes: &[u8], at: usize) -> Option<u32>
    ensures { SomeIff result (at + 4 ≤ length bytes.now) (u32_at bytes.now at) }
{
    if at >= bytes.len() || bytes.len() - at < 4 {
        return None;
    }
    Some(LittleEndian::read_u32(&bytes[at..]))
}

/// The byte at `at`; 0 past the end.
pub fn byte_at(bytes: &[u8], at: usize) -> u8
    ensures { result ≡ slice_index bytes.now at }
{
    match bytes.get(at) {
        Some(byte) => *byte,
        None => 0,
    }
}

/// The bytes from `at` on, none past the end.
fn bytes_from(bytes: &[u8], at: usize) -> &[u8]
    ensures { result.now ≡ drop at bytes.now }
{
    &bytes[at.min(bytes.len())..]
}

/// The little-endian number of four bytes at `at`, of which those past the end count as 0.
#[tactic(auto, unfolding(crate::specs::Words::u32_at))]
pub fn word_at(bytes: &[u8], at: usize) -> u32
    ensures { result ≡ u32_at bytes.now at }
{
    if let Some(word) = get_u32(bytes, at) {
        return word;
    }
    let here = bytes_from(bytes, at);
    u32::from_le_bytes([
        byte_at(here, 0),
        byte_at(here, 1),
        byte_at(here, 2),
        byte_at(here, 3),
    ])
}

/// Writes `word`, little endian, at `at`. Only these four bytes change.
pub fn put_u32(bytes: &mut [u8], at: usize, word: u32)
    requires { at + 4 ≤ length bytes.old }
    ensures { bytes.new ≡ with_bytes bytes.old at (to_le_bytes w32 word) }
{
    LittleEndian::write_u32(&mut bytes[at..at + 4], word);
}

/// Bits `high` down to `low` of `word`, as a number. Bit 0 is the lowest.
pub fn field(word: u64, high: u32, low: u32) -> u64
    requires order { low ≤ high }
    requires width { high ≤ 63 }
    ensures { result ≡ bits_of word high low }
{
    let width = high + 1 - low;
    ((word as u128 >> low) % (1u128 << width)) as u64
}

/// The least multiple of `unit` that is at least `n`.
#[tactic(auto, using(crate::proofs::Numbers::rounded), unfolding(crate::specs::Words::rounded_up))]
pub fn round_up(n: u64, unit: u64) -> u64
    requires positive { 1 ≤ unit }
    requires room { n + unit < 2 ^ 63 }
    ensures { IsRoundedUp n unit result }
{
    n.div_ceil(unit) * unit
}
