//! What a shader state's word says of its record.
ghost use Rattle.std.specs.Prelude.{◌≡◌, ◌≤◌};
ghost use Rattle.packets.specs.StateWord.{attribute_count, is_extended, record_size, record_room};

use field_words::round_up;

/// How many attributes the record of a shader state with this word has.
#[inline(always)]
#[tactic(auto, unfolding(crate::specs::StateWord::attribute_count))]
pub fn attribute_count(state: u32) -> u32
    ensures value { result ≡ attribute_count state }
    ensures some { 1 ≤ result }
    ensures limit { result ≤ 8 }
{
    match state % 8 {
        0 => 8,
        count => count,
    }
}

/// Whether each attribute has a word more, with the high bits of its stride.
#[inline(always)]
#[tactic(auto, unfolding(crate::specs::StateWord::is_extended))]
pub fn is_extended(state: u32) -> bool
    ensures { result ≡ is_extended state }
{
    state / 8 % 2 == 1
}

/// The bytes of the record: 36 and 8 for each attribute, or where it is extended 100 and 4 for each attribute.
#[inline(always)]
#[tactic(auto, unfolding(crate::specs::StateWord::record_size))]
pub fn record_size(state: u32) -> u32
    ensures value { result ≡ record_size state }
    ensures limit { result ≤ 132 }
{
    if is_extended(state) {
        100 + 4 * attribute_count(state)
    } else {
        36 + 8 * attribute_count(state)
    }
}

/// The bytes from this emitted record to the next: its size, filled to a multiple of 16.
#[inline(always)]
#[tactic(auto, unfolding(crate::specs::StateWord::record_room))]
pub fn record_room(state: u32) -> u32
    ensures value { result ≡ record_room state }
    ensures limit { result ≤ 144 }
{
    round_up(u64::from(record_size(state)), 16) as u32
}
