//! The memory table.
ghost use Rattle.std.specs.Prelude.{◌≡◌, ◌<◌, ◌≤◌, length, IfOk};
ghost use Rattle.field_words.specs.Sizes.{most_memory};
ghost use Rattle.field_words.specs.Questions.{Answers, NamesFirst, NeverHidesFault};
ghost use Rattle.buffer_table.specs.Table.{TableModel, FirstIsLeast, SharingMeansByte, most_place, table_questions, table_within, buffer_at};
ghost use Rattle.buffer_table.specs.Sound.{IsSound, IsSoundBuffer};

use crate::buffer::{Buffer, Regions, TableFault};
use crate::item::table_fault;
use field_words::{MOST_MEMORY, Stop};
use std::alloc::Global;
use std::marker::Model;

/// The greatest limit of a memory, in bytes: all that is added to a place below it stays below 2^32.
pub const MOST_PLACE: u32 = 0xff00_0000;

/// The memory of a job, with its regions and buffers, of which no memory rule is broken: all of
/// them are made of whole pages inside the memory, and no two have a byte in common.
#[derive(Drop)]
pub struct Table<'a> {
    memory: u32,
    regions: Regions,
    buffers: &'a [Buffer],
}

impl<'a> Model for Table<'a> {
    ghost use Rattle.buffer_table.specs.Table.{TableModel};
    ghost use Rattle.buffer_table.specs.Sound.{IsSound};

    ghost Value = { TableModel };

    ghost view = { λ t. record { memory = t.memory; regions = t.regions; buffers = t.buffers.now } };

    ghost invariant = { λ t. IsSound t.memory t.regions t.buffers.now };
}

/// The entry of a buffer among those of a table.
#[tactic(auto, unfolding(crate::specs::Table::buffer_at))]
fn entry_of(buffers: &[Buffer], number: usize) -> Buffer
    requires { number < length buffers.now }
    ensures { result ≡ buffer_at buffers.now number }
{
    buffers[number]
}

impl<'a> Table<'a> {
    /// The table of a memory of `mem_size` bytes, of which there are at most `limit`; its buffers are lent. The fault is the first of
    /// M1 to M5, by item and number. No memory is taken.
    pub fn make_within(
        limit: u32,
        mem_size: u32,
        regions: Regions,
        buffers: &'a Vec<Buffer>,
    ) -> Result<Table<'a>, Stop<TableFault>>
        requires limit { limit ≤ most_place }
        requires few { length buffers.now.items ≤ 1024 }
        ensures made { Answers (table_within limit mem_size regions buffers.now.items)
            (λ t. t ≡ record { memory = mem_size; regions = regions; buffers = buffers.now.items }) result }
        ensures first { NamesFirst (table_within limit mem_size regions buffers.now.items) result }
        ensures memory { NeverHidesFault (table_within limit mem_size regions
            buffers.now.items) result }
        ensures sound { IfOk result (λ t. IsSound t.memory t.regions t.buffers) }
        ensures small { IfOk result (λ t. t.memory ≤ limit) }
    {
        if let Some(fault) = table_fault(limit, mem_size, &regions, buffers) {
            return Err(Stop::Fault(fault));
        }
        Ok(Table {
            memory: mem_size,
            regions,
            buffers,
        })
    }

    /// The table of the memory of a job file, which has at most 64 MiB.
    pub fn make(
        _alloc: Global,
        mem_size: u32,
        regions: Regions,
        buffers: &'a Vec<Buffer>,
    ) -> Result<Table<'a>, Stop<TableFault>>
        requires few { length buffers.now.items ≤ 1024 }
        ensures made { Answers (table_questions mem_size regions buffers.now.items)
            (λ t. t ≡ record { memory = mem_size; regions = regions; buffers = buffers.now.items }) result }
        ensures first { NamesFirst (table_questions mem_size regions buffers.now.items) result }
        ensures memory { NeverHidesFault (table_questions mem_size regions
            buffers.now.items) result }
        ensures sound { IfOk result (λ t. IsSound t.memory t.regions t.buffers) }
        ensures small { IfOk result (λ t. t.memory ≤ most_memory) }
    {
        Table::make_within(MOST_MEMORY, mem_size, regions, buffers)
    }

    /// How many buffers there are.
    pub fn count(&self) -> usize
        ensures { result ≡ length self.now.buffers }
    {
        self.buffers.len()
    }

    /// The entry of a buffer.
    pub fn buffer(&self, number: usize) -> Buffer
        requires { number < length self.now.buffers }
        ensures entry { result ≡ buffer_at self.now.buffers number }
        ensures sound { IsSoundBuffer self.now.memory result }
    {
        entry_of(self.buffers, number)
    }
}

/// The first broken memory rule is the least of all that are broken, by item and then by number.
pub fn first_fault_is_least()
    ensures { FirstIsLeast }
{}

/// Two items share a byte by M4 exactly where some byte of the memory lies in both.
pub fn sharing_means_a_byte()
    ensures { SharingMeansByte }
{}
