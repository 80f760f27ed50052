//! The strict rules on a shader record, and on the place of a tile slot.
ghost use Rattle.std.specs.Prelude.{◌≡◌, ◌≤◌, ◌<◌, ◌^◌};
ghost use Rattle.field_words.specs.Questions.{first_of};
ghost use Rattle.strict_lists.specs.Records.{selects_past, selection_questions, crosses};

use field_words::{SLOT_SIZE, byte_at};

// A byte selects an attribute past the state's number.
#[tactic(auto, unfolding(crate::specs::Records::selects_past))]
fn selects_past(byte: u8, attributes: u32) -> bool
    requires { attributes ≤ 8 }
    ensures { result ≡ selects_past byte attributes }
{
    u32::from(byte) >> attributes != 0
}

/// E11 of a record that begins at this place, of a state with so many attributes, 1 to 8: the place in the record of the first byte
/// that selects one that isn't there, 14 (the vertex shader's) or 26 (the coordinate shader's).
#[tactic(auto, unfolding(crate::specs::Records::selection_questions))]
pub fn selection_fault(bytes: &[u8], from: usize, attributes: u32) -> Option<u32>
    requires near { from < 2 ^ 32 }
    requires few { attributes ≤ 8 }
    ensures { result ≡ first_of (selection_questions bytes.now from attributes) }
{
    if selects_past(byte_at(bytes, from + 14), attributes) {
        return Some(14);
    }
    if selects_past(byte_at(bytes, from + 26), attributes) {
        return Some(26);
    }
    None
}

/// E12: whether the addresses of a tile slot at this place differ in their top four bits. The binner keeps 28 bits of a tile
/// list's address, and takes the others from the first.
#[tactic(auto, unfolding(crate::specs::Records::crosses))]
pub fn crosses(place: u64) -> bool
    requires { place < 2 ^ 32 }
    ensures { result ≡ crosses place }
{
    place / (1 << 28) != (place + (SLOT_SIZE as u64 - 1)) / (1 << 28)
}
