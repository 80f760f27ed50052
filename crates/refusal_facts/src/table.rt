//! The facts of the memory table's rules.
ghost use Rattle.std.specs.Prelude.{◌≡◌, ◌<◌, ◌^◌, IfSome};
ghost use Rattle.buffer_table.specs.Table.{items_of, shares};
ghost use Rattle.field_words.specs.Questions.{first_of};
ghost use Rattle.refusal_facts.specs.Items.{index_of, item_fact, sharing_question, first_sharing, pair_at, content_room};

use crate::fact::{ItemFact, PairFact, RoomFact};
use buffer_table::{Buffer, Item, Regions, item_at};
use job_format::{Part, Place};

/// The index of the item that a place is about.
#[tactic(auto, unfolding(crate::specs::Items::index_of))]
pub(crate) fn index_of(place: Place) -> u64
    ensures value { result ≡ index_of place }
    ensures limit { result < 2 ^ 33 }
{
    match place.part {
        Part::Entry => 2 + u64::from(place.index),
        _ if place.at == 20 => 1,
        _ => 0,
    }
}

/// An item, its place and its size.
#[tactic(auto, unfolding(crate::specs::Items::item_fact))]
pub(crate) fn item_fact(regions: &Regions, buffers: &[Buffer], k: u64) -> ItemFact
    requires { k < 2 ^ 33 }
    ensures { result ≡ item_fact (items_of regions.now buffers.now) k }
{
    let item = item_at(regions, buffers, k as usize);
    ItemFact {
        item: k + 1,
        place: item.place,
        size: item.size,
    }
}

// Whether two items have a byte in common.
#[tactic(auto, unfolding(buffer_table::specs::Table::shares))]
fn shares(x: &Item, y: &Item) -> bool
    ensures { result ≡ shares x.now y.now }
{
    let start = u128::from(x.place.max(y.place));
    let x_end = u128::from(x.place) + u128::from(x.size);
    let y_end = u128::from(y.place) + u128::from(y.size);
    start < x_end.min(y_end)
}

// The item of this index before this one, where it has a byte of it.
#[tactic(auto, unfolding(crate::specs::Items::sharing_question))]
fn sharing(regions: &Regions, buffers: &[Buffer], k: u64, i: u64) -> Option<u64>
    ensures value { result ≡ first_of (sharing_question (items_of regions.now buffers.now) k i) }
    ensures same { IfSome result (λ other. other ≡ i) }
{
    let item = item_at(regions, buffers, k as usize);
    let other = item_at(regions, buffers, i as usize);
    if shares(&item, &other) { Some(i) } else { None }
}

// The first item before this one that has a byte of it.
#[tactic(auto, unfolding(crate::specs::Items::first_sharing), using(field_words::proofs::Questions::each_on, field_words::proofs::Questions::each_stop, field_words::proofs::Questions::each_end))]
fn first_sharing(regions: &Regions, buffers: &[Buffer], k: u64) -> Option<u64>
    ensures value { result ≡ first_sharing (items_of regions.now buffers.now) k }
    ensures before { IfSome result (λ i. i < k) }
{
    for i in 0..k {
        if let Some(other) = sharing(regions, buffers, k, i) {
            return Some(other);
        }
    }
    None
}

/// M4: the item, and the first earlier one that has a byte of it.
#[tactic(auto, unfolding(crate::specs::Items::pair_at))]
pub(crate) fn pair_at(regions: &Regions, buffers: &[Buffer], k: u64) -> Option<PairFact>
    requires { k < 2 ^ 33 }
    ensures { result ≡ pair_at (items_of regions.now buffers.now) k }
{
    let i = first_sharing(regions, buffers, k)?;
    Some(PairFact {
        later: item_fact(regions, buffers, k),
        earlier: item_fact(regions, buffers, i),
    })
}

/// M5: the item needs room for what is given of it.
pub(crate) fn content_room(regions: &Regions, buffers: &[Buffer], k: u64) -> RoomFact
    ensures { result ≡ content_room (items_of regions.now buffers.now) k }
{
    let item = item_at(regions, buffers, k as usize);
    RoomFact {
        needs: item.content,
        has: item.size,
    }
}
