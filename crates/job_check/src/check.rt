//! The whole check of a job file, and the memory that its jobs are to run in.
ghost use Rattle.std.specs.Prelude.{◌≡◌, ◌≤◌, length, IfOk};
ghost use Rattle.field_words.specs.Sizes.{most_memory};
ghost use Rattle.field_words.specs.Questions.{Answers, NamesFirst, NeverHidesFault};
ghost use Rattle.job_format.specs.File.{IsWellFormed};
ghost use Rattle.job_format.specs.Model.{file_view};
ghost use Rattle.job_format.specs.Parts.{parts_view};
ghost use Rattle.buffer_table.specs.Sound.{IsSound};
ghost use Rattle.job_check.specs.Faults.{table_stage, file_stages};
ghost use Rattle.job_check.specs.Emit.{fresh_memory_of, memory_of, Emits, IsPlaced};
ghost use Rattle.job_check.specs.Region.{IsRegion};

use super::emit::put_contents;
use super::region::{Region, check_parts};
use super::stages::table_stage;
use field_words::{MOST_MEMORY, NoMemory, Stop};
use job_format::{FileParts, JobFile, Refusal};
use phys_mem::PhysMem;
use relocation::{Layout, Lengths};
use std::alloc::Global;

/// An accepted file: the memory that its jobs are to run in, and job by job where its lists lie there and how many bytes of each
/// were emitted.
#[derive(Drop)]
pub struct Checked {
    pub memory: PhysMem,
    pub layouts: Vec<Layout>,
    pub lengths: Vec<Lengths>,
}

/// The memory of the file before any list: the contents of its buffers.
fn fresh_memory(alloc: Global, parts: &FileParts) -> Result<PhysMem, NoMemory>
    requires well_formed { IsWellFormed (parts_view parts.now) }
    requires sound { IsSound parts.now.mem_size parts.now.regions parts.now.buffers.items }
    ensures size { IfOk result (λ memory. length memory ≡ parts.now.mem_size) }
    ensures contents { IfOk result (λ memory. memory ≡ fresh_memory_of (parts_view parts.now)) }
{
    let mut memory = PhysMem::new(alloc, parts.mem_size)?;
    put_contents(&mut memory, &parts.buffers, &parts.contents);
    Ok(memory)
}

/// The memory of an accepted file: the contents of its buffers, and its lists.
fn make_memory(alloc: Global, parts: &FileParts, region: &Region) -> Result<PhysMem, NoMemory>
    requires well_formed { IsWellFormed (parts_view parts.now) }
    requires sound { IsSound parts.now.mem_size parts.now.regions parts.now.buffers.items }
    requires region_is { IsRegion (parts_view parts.now) region.now }
    ensures value { IfOk result (λ memory. memory ≡ memory_of (parts_view parts.now)) }
    ensures size { IfOk result (λ memory. length memory ≡ parts.now.mem_size) }
{
    let mut memory = fresh_memory(alloc, parts)?;
    memory.write_bytes(parts.regions.lists_place, &region.bytes);
    Ok(memory)
}

/// An accepted file with its memory.
fn with_memory(alloc: Global, parts: &FileParts, region: &Region) -> Result<Checked, NoMemory>
    requires well_formed { IsWellFormed (parts_view parts.now) }
    requires sound { IsSound parts.now.mem_size parts.now.regions parts.now.buffers.items }
    requires small { parts.now.mem_size ≤ most_memory }
    requires region_is { IsRegion (parts_view parts.now) region.now }
    ensures emits { IfOk result (Emits (parts_view parts.now)) }
    ensures placed { IfOk result (λ checked. IsPlaced checked.memory checked.layouts.items) }
    ensures sized { IfOk result (λ checked. length checked.memory ≡ parts.now.mem_size) }
{
    let memory = make_memory(alloc, parts, region)?;
    Ok(Checked {
        memory,
        layouts: Vec::from_slice(alloc, region.layouts.as_slice())?,
        lengths: Vec::from_slice(alloc, region.lengths.as_slice())?,
    })
}

/// `check_job` of the parts of a file; their contents are copied only into the memory.
pub fn check_read(alloc: Global, parts: &FileParts) -> Result<Checked, Stop<Refusal>>
    requires { IsWellFormed (parts_view parts.now) }
    ensures answers { Answers (file_stages (parts_view parts.now))
        (Emits (parts_view parts.now)) result }
    ensures memory { NeverHidesFault (table_stage (parts_view parts.now)) result }
    ensures placed { IfOk result (λ checked. IsPlaced checked.memory checked.layouts.items) }
    ensures sized { IfOk result (λ checked. length checked.memory ≡ parts.now.mem_size) }
{
    let region = check_parts(alloc, MOST_MEMORY, parts, None)?;
    Ok(with_memory(alloc, parts, &region)?)
}

/// Checks a file that was read. `Ok` comes exactly where no rule is broken by the memory table, by the shaders, or by any job's handles,
/// its binner list, its records and uniforms, its frame and surfaces, and its layout; else the refusal is the first that does, job by
/// job, with its place in the file. A fault of the memory table is never answered as want of memory. No memory of the jobs is made
/// before all rules are asked.
#[tactic(auto, unfolding(crate::specs::Faults::table_stage_within))]
pub fn check_job(alloc: Global, file: &JobFile) -> Result<Checked, Stop<Refusal>>
    requires { IsWellFormed (file_view file.now) }
    ensures answers { Answers (file_stages (file_view file.now))
        (Emits (file_view file.now)) result }
    ensures first { NamesFirst (file_stages (file_view file.now)) result }
    ensures memory { NeverHidesFault (table_stage (file_view file.now)) result }
    ensures placed { IfOk result (λ checked. IsPlaced checked.memory checked.layouts.items) }
    ensures sized { IfOk result (λ checked. length checked.memory ≡ file.now.mem_size) }
{
    table_stage(MOST_MEMORY, file.mem_size, file.regions, &file.buffers)?;
    let parts = file.parts(alloc)?;
    check_read(alloc, &parts)
}
