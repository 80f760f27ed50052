//! Items by ascending place, as their numbers. No two of them have a byte in common, so their ends ascend too.
ghost use Rattle.std.specs.Prelude.{◌≡◌, ◌<◌, length};
ghost use Rattle.buffer_table.specs.Order.{IsOrder, IsSplit};
ghost use Rattle.buffer_table.specs.Table.{items_of, shares_with_first};

use crate::buffer::{Buffer, Regions};
use crate::item::{Item, end_of, item_at};

/// How many of the items end at or before a place.
pub fn count_before(order: &[u16], regions: &Regions, buffers: &[Buffer], place: u64) -> usize
    requires ordered { IsOrder (items_of regions.now buffers.now) order.now }
    ensures { IsSplit (items_of regions.now buffers.now) order.now place result }
{
    order.partition_point(|number| {
        end_of(&item_at(regions, buffers, usize::from(*number))) <= u128::from(place)
    })
}

/// Whether one of the items has a byte of `x`: only the first that ends behind its place can.
pub fn is_shared(order: &[u16], regions: &Regions, buffers: &[Buffer], at: usize, x: &Item) -> bool
    requires ordered { IsOrder (items_of regions.now buffers.now) order.now }
    requires split { IsSplit (items_of regions.now buffers.now) order.now x.now.place at }
    requires some { 0 < x.now.size }
    ensures { result ≡ shares_with_first x.now (items_of regions.now buffers.now)
        (length order.now) }
{
    match order.get(at) {
        None => false,
        Some(number) => {
            u128::from(item_at(regions, buffers, usize::from(*number)).place) < end_of(x)
        }
    }
}
