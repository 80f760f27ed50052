//! Rows of 16 elements, and masks of elements.
ghost use Rattle.std.specs.Prelude.{◌≡◌, ◌+◌, ◌≤◌, ◌<◌};
ghost use Rattle.qpu_machine.specs.Row.{chosen_row, chosen_rows, has_lane, rows_merged, mask_of};

use crate::state::Row;
use machine_plan::Choices;

/// 16 choice words, from this one on.
#[tactic(auto, using(crate::proofs::Fronts::front_more), unfolding(crate::specs::Row::chosen_row))]
pub(crate) fn chosen_row<C: Choices>(words: &C, from: u64) -> Row
    requires { from ≤ 1000 }
    ensures { result ≡ chosen_row (C.listed words.now) from }
{
    let mut row = [0; 16];
    for e in 0..16 {
        row[e] = words.word(from + e as u64);
    }
    row
}

/// r0 to r5 of a fresh thread.
#[tactic(auto, unfolding(crate::specs::Row::chosen_rows))]
pub(crate) fn chosen_rows<C: Choices>(words: &C) -> [Row; 6]
    ensures { result ≡ chosen_rows (C.listed words.now) }
{
    [
        chosen_row(words, 82),
        chosen_row(words, 98),
        chosen_row(words, 114),
        chosen_row(words, 130),
        chosen_row(words, 146),
        chosen_row(words, 162),
    ]
}

/// Whether element `e` is in the mask.
#[tactic(auto, unfolding(crate::specs::Row::has_lane))]
pub(crate) fn has_lane(mask: u32, e: u32) -> bool
    requires { e < 16 }
    ensures { result ≡ has_lane mask e }
{
    (mask >> e) % 2 == 1
}

/// The new words in the elements of the mask, the old ones in the others.
#[tactic(auto, using(crate::proofs::Fronts::front_more), unfolding(crate::specs::Row::rows_merged))]
pub(crate) fn merged(mask: u32, old: &Row, new: &Row) -> Row
    ensures { result ≡ rows_merged mask old.now new.now }
{
    let mut row = [0; 16];
    for e in 0..16 {
        row[e] = if has_lane(mask, e as u32) {
            new[e]
        } else {
            old[e]
        };
    }
    row
}

/// The elements that a unit writes under this condition; a test of flags finds the bits of choice word 0 from `from` on.
#[tactic(auto, unfolding(crate::specs::Row::mask_of))]
pub(crate) fn mask_of<C: Choices>(condition: u8, words: &C, from: u32) -> u32
    requires { from ≤ 16 }
    ensures { result ≡ mask_of condition (C.listed words.now) from }
{
    match condition {
        1 => 65535,
        0 => 0,
        _ => (words.word(0) >> from) % (1 << 16),
    }
}
