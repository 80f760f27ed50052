//! The items of a memory table as intervals, and the rules that each of them keeps.
ghost use Rattle.std.specs.Prelude.{◌≡◌, ◌+◌, ◌≤◌, Some, IfNone, length, map};
ghost use Rattle.field_words.specs.Questions.{first_of};
ghost use Rattle.buffer_table.specs.Order.{IsOrder, IsSplit, place_in};
ghost use Rattle.buffer_table.specs.Table.{lists_item, tile_item, buffer_item, is_off_page, item_questions, items_questions, memory_within, table_within, items_of, item_at, fault};

use crate::buffer::{Buffer, Regions, TableFault, TableRule};
use crate::sorted::{count_before, is_shared};
use arrayvec::ArrayVec;
use field_words::{PAGE_SIZE, SLOT_SIZE};

/// `size` bytes of the memory from `place` on, of which the file gives the first `content`.
#[derive(Clone, Copy, Debug, PartialEq, Eq)]
pub struct Item {
    pub place: u64,
    pub size: u64,
    pub content: u64,
}

/// An item of no bytes.
const NO_ITEM: Item = Item {
    place: 0,
    size: 0,
    content: 0,
};

/// The most items of a table: the two regions and 1,024 buffers.
const MOST_ITEMS: usize = 1026;

/// The size of a page, of which each place and size is a multiple.
const PAGE: u64 = PAGE_SIZE as u64;

fn lists_of(regions: &Regions) -> Item
    ensures { result ≡ lists_item regions.now }
{
    Item {
        place: u64::from(regions.lists_place),
        size: u64::from(regions.lists_size),
        content: 0,
    }
}

fn tiles_of(regions: &Regions) -> Item
    ensures { result ≡ tile_item regions.now }
{
    Item {
        place: u64::from(regions.tile_place),
        size: u64::from(SLOT_SIZE) * u64::from(regions.tile_slots),
        content: 0,
    }
}

fn item_of(buffers: &[Buffer], number: usize) -> Item
    ensures { result ≡ item_at (map buffer_item buffers.now) number }
{
    match buffers.get(number) {
        None => NO_ITEM,
        Some(buffer) => Item {
            place: u64::from(buffer.place),
            size: u64::from(buffer.size),
            content: u64::from(buffer.content),
        },
    }
}

/// Whether a place or size is no multiple of a page, or there is no byte.
#[tactic(auto, unfolding(crate::specs::Table::is_off_page))]
fn is_off_page(x: &Item) -> bool
    ensures { result ≡ is_off_page x.now }
{
    x.place % PAGE != 0 || x.size % PAGE != 0 || x.size == 0
}

/// Where an item ends.
pub(crate) fn end_of(x: &Item) -> u128
    ensures { result ≡ x.now.place + x.now.size }
{
    u128::from(x.place) + u128::from(x.size)
}

/// Item `k` of a table: the lists' region, the tile region, and then the buffers. Past the end it has no bytes.
pub fn item_at(regions: &Regions, buffers: &[Buffer], k: usize) -> Item
    ensures { result ≡ item_at (items_of regions.now buffers.now) k }
{
    match k {
        0 => lists_of(regions),
        1 => tiles_of(regions),
        _ => item_of(buffers, k - 2),
    }
}

/// M1: the memory's size, which is at most `limit` bytes.
#[tactic(auto, unfolding(crate::specs::Table::memory_within))]
fn memory_fault(limit: u32, mem_size: u32) -> Option<TableFault>
    ensures first { result ≡ first_of (memory_within limit mem_size) }
    ensures limit { IfNone result (mem_size ≤ limit) }
{
    if mem_size == 0 || u64::from(mem_size) % PAGE != 0 || mem_size > limit {
        return fault(TableRule::MemorySize, 0);
    }
    None
}

fn fault(rule: TableRule, item: u32) -> Option<TableFault>
    ensures { result ≡ Some (fault rule item) }
{
    Some(TableFault {
        number: rule.number(),
        item,
    })
}

/// M2 to M5 of the item after those in order. The first `at` of those end at or before its place.
#[tactic(auto, unfolding(crate::specs::Table::item_questions))]
fn item_fault(
    mem_size: u32,
    regions: &Regions,
    buffers: &[Buffer],
    order: &[u16],
    at: usize,
) -> Option<TableFault>
    requires few { length order.now ≤ 1026 }
    requires ordered { IsOrder (items_of regions.now buffers.now) order.now }
    requires split { IsSplit (items_of regions.now buffers.now) order.now
        (place_in (items_of regions.now buffers.now) (length order.now)) at }
    ensures { result ≡ first_of (item_questions mem_size (items_of regions.now buffers.now)
        (length order.now)) }
{
    let k = order.len();
    let x = item_at(regions, buffers, k);
    let item = k as u32 + 1;
    if is_off_page(&x) {
        return fault(TableRule::OffPage, item);
    }
    if end_of(&x) > u128::from(mem_size) {
        return fault(TableRule::OutsideMemory, item);
    }
    if is_shared(order, regions, buffers, at, &x) {
        return fault(TableRule::SharedByte, item);
    }
    if x.content > x.size {
        return fault(TableRule::TooMuchContent, item);
    }
    None
}

/// The first of M2 to M5, item by item. The numbers in order take 2 KB of stack, which are given back before the jobs are checked.
#[inline(never)]
fn items_fault(mem_size: u32, regions: &Regions, buffers: &[Buffer]) -> Option<TableFault>
    requires few { length buffers.now ≤ 1024 }
    ensures { result ≡ first_of (items_questions mem_size (items_of regions.now buffers.now)) }
{
    let mut order = ArrayVec::<u16, MOST_ITEMS>::new();
    for k in 0..buffers.len() + 2 {
        let place = item_at(regions, buffers, k).place;
        let at = count_before(order.as_slice(), regions, buffers, place);
        if let Some(fault) = item_fault(mem_size, regions, buffers, order.as_slice(), at) {
            return Some(fault);
        }
        order.insert(at, k as u16);
    }
    None
}

/// The first of M1 to M5, of a memory of at most `limit` bytes.
#[tactic(auto, unfolding(crate::specs::Table::all_within), using(field_words::proofs::Questions::passes, field_words::proofs::Questions::stops))]
pub(crate) fn table_fault(
    limit: u32,
    mem_size: u32,
    regions: &Regions,
    buffers: &[Buffer],
) -> Option<TableFault>
    requires few { length buffers.now ≤ 1024 }
    ensures { result ≡ first_of (table_within limit mem_size regions.now buffers.now) }
{
    match memory_fault(limit, mem_size) {
        Some(fault) => Some(fault),
        None => items_fault(mem_size, regions, buffers),
    }
}
