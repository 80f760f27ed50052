//! The stages of the check that are asked of the file as a whole.
ghost use Rattle.std.specs.Prelude.{◌≡◌, ◌≤◌, length, IsOk};
ghost use Rattle.buffer_table.specs.Table.{most_place, table_within};
ghost use Rattle.field_words.specs.Questions.{Answers, NeverHidesFault, with_answers};
ghost use Rattle.job_format.specs.Offsets.{most_buffers};
ghost use Rattle.buffer_table.specs.Sound.{IsSound};
ghost use Rattle.job_check.specs.Faults.{table_refused};

use super::refusals::table_refusal;
use buffer_table::{Buffer, Regions, Table};
use field_words::Stop;
use job_format::Refusal;

/// M: the memory table, of a memory of at most `limit` bytes. Finding a fault takes no memory.
#[tactic(auto, using(field_words::proofs::Questions::answered_none, field_words::proofs::Questions::answered_some))]
pub fn table_stage<'a>(
    limit: u32,
    mem_size: u32,
    regions: Regions,
    buffers: &'a Vec<Buffer>,
) -> Result<Table<'a>, Stop<Refusal>>
    requires limit { limit ≤ most_place }
    requires few { length buffers.now.items ≤ most_buffers }
    ensures answers { Answers (with_answers table_refused
        (table_within limit mem_size regions buffers.now.items))
        (λ table. table
        ≡ record { memory = mem_size; regions = regions; buffers = buffers.now.items }) result }
    ensures memory { NeverHidesFault (with_answers table_refused
        (table_within limit mem_size regions buffers.now.items)) result }
    ensures sound { IsOk result → IsSound mem_size regions buffers.now.items }
    ensures small { IsOk result → mem_size ≤ limit }
{
    match Table::make_within(limit, mem_size, regions, buffers) {
        Ok(table) => Ok(table),
        Err(Stop::Fault(fault)) => Err(Stop::Fault(table_refusal(&fault))),
        Err(Stop::NoMemory) => Err(Stop::NoMemory),
    }
}
