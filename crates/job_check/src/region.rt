//! The rules of a file, and the lists of its jobs. No memory of the jobs is made.
ghost use Rattle.std.specs.Prelude.{◌≡◌, ◌<◌, ◌≤◌, ◌+◌, ◌++◌, ◌-◌, length, IfOk, IfSome, IsOk, []};
ghost use Rattle.buffer_table.specs.Table.{most_place};
ghost use Rattle.field_words.specs.Questions.{Answers, NamesFirst, NeverHidesFault};
ghost use Rattle.field_words.specs.Writes.{parts_placed, zeros};
ghost use Rattle.job_format.specs.File.{IsWellFormed};
ghost use Rattle.job_format.specs.Parts.{parts_view};
ghost use Rattle.buffer_table.specs.Sound.{IsSound};
ghost use Rattle.shader_records.specs.Inputs.{shaders_view, AreShaped};
ghost use Rattle.job_check.specs.Shaders.{table_of, shaders_of};
ghost use Rattle.relocation.specs.Layout.{region_end};
ghost use Rattle.job_check.specs.Jobs.{lists_begin, layout_of, end_of};
ghost use Rattle.job_check.specs.Faults.{table_stage_within, shaders_stage, lists_stages, laid_stages, job_stages, jobs_stages, stages_within};
ghost use Rattle.job_check.specs.Emit.{ArePlaced, PartsFit, list_parts, lengths_of, parts_moved};
ghost use Rattle.job_check.specs.Region.{region_size, region_parts, IsLaid, IsRegion, AreChecked, Under};
ghost use Rattle.job_check.specs.Context.{IsReported};

use super::context::Context;
use super::layout::next_place;
use super::shaders::shaders_stage;
use super::stages::table_stage;
use arrayvec::ArrayVec;
use buffer_table::Table;
use field_words::Stop;
use job_format::{FileParts, Refusal};
use qpu_isa::ShaderInfo;
use relocation::{Layout, Lengths};
use std::alloc::{AllocError, Global};

/// The lists of an accepted file: their bytes, from where the lists of job 0 begin to where those of the last job end, with zeros
/// between them; and job by job where its lists lie in memory and how many bytes of each were emitted.
#[derive(Drop)]
pub struct Region {
    pub bytes: Vec<u8>,
    pub layouts: ArrayVec<Layout, 8>,
    pub lengths: ArrayVec<Lengths, 8>,
}

/// Where the lists of a job lie, and how many bytes of each were emitted.
#[derive(Clone, Copy)]
pub struct Lists {
    pub layout: Layout,
    pub lengths: Lengths,
}

/// Makes a region longer, with zeros behind.
#[tactic(auto, unfolding(field_words::specs::Writes::zeros))]
fn extend_region(region: &mut Vec<u8>, size: usize) -> Result<(), AllocError>
    requires { length region.old.items ≤ size }
    ensures { IfOk result (λ _. region.new.items ≡ region.old.items
        ++ zeros (size - length region.old.items)) }
{
    region.resize(size, 0)
}

/// The rules of the lists of a job in view, which are written from this place in the region on.
fn write_at(
    alloc: Global,
    job: &Context,
    region: &mut [u8],
    from: usize,
) -> Result<Lengths, Stop<Refusal>>
    requires { from + (layout_of job.now.file job.now.number).end ≡ length region.old }
    ensures answers { IsReported job.now → Answers (lists_stages job.now.file job.now.number)
        (λ lengths. lengths ≡ lengths_of job.now.file job.now.number) result }
    ensures written { IsReported job.now
        → IfOk result (λ _. region.new
        ≡ parts_placed region.old (parts_moved from (list_parts job.now.file job.now.number))) }
    ensures fit { IsReported job.now
        → IfOk result (λ _. PartsFit (layout_of job.now.file job.now.number).end
        (list_parts job.now.file job.now.number)) }
{
    job.write_lists(alloc, &mut region[from..])
}

/// The rules of the lists of a job in view, and its lists in the region, which is as long as they need.
#[tactic(auto, unfolding(crate::specs::Region::region_size, crate::specs::Region::region_parts))]
fn write_region(
    alloc: Global,
    job: &Context,
    region: &mut Vec<u8>,
) -> Result<Lengths, Stop<Refusal>>
    requires { length region.old.items ≡ region_size job.now.file job.now.number }
    ensures size { IfOk result (λ _. length region.new.items
        ≡ region_size job.now.file (job.now.number + 1)) }
    ensures answers { IsReported job.now → Answers (lists_stages job.now.file job.now.number)
        (λ lengths. lengths ≡ lengths_of job.now.file job.now.number) result }
    ensures written { IsReported job.now
        → IfOk result (λ _. region.new.items
        ≡ parts_placed (region.old.items
        ++ zeros (region_size job.now.file (job.now.number + 1) - length region.old.items))
        (region_parts job.now.file job.now.number)) }
    ensures fit { IsReported job.now
        → IfOk result (λ _. PartsFit (layout_of job.now.file job.now.number).end
        (list_parts job.now.file job.now.number)) }
{
    let from = job.place_in_region() as usize;
    extend_region(region, from + job.layout.end as usize)?;
    write_at(alloc, job, region, from)
}

/// The rules of a job in view, and its lists in the region. The rule that its lists fit is asked last.
fn place_lists(alloc: Global, job: &Context, region: &mut Vec<u8>) -> Result<Lists, Stop<Refusal>>
    requires { length region.old.items ≡ region_size job.now.file job.now.number }
    ensures size { IfOk result (λ _. length region.new.items
        ≡ region_size job.now.file (job.now.number + 1)) }
    ensures layout { IfOk result (λ lists. lists.layout ≡ layout_of job.now.file job.now.number) }
    ensures answers { IsReported job.now
        → Answers (laid_stages job.now.file job.now.number)
        (ArePlaced job.now.file job.now.number) result }
    ensures written { IsReported job.now
        → IfOk result (λ _. region.new.items
        ≡ parts_placed (region.old.items
        ++ zeros (region_size job.now.file (job.now.number + 1) - length region.old.items))
        (region_parts job.now.file job.now.number)) }
    ensures fit { IsReported job.now
        → IfOk result (λ _. PartsFit (layout_of job.now.file job.now.number).end
        (list_parts job.now.file job.now.number)) }
    ensures fits { IfOk result (λ lists. end_of lists.layout ≤ region_end job.now.file.regions) }
{
    let layout = job.layout;
    let lengths = write_region(alloc, job, region)?;
    if !job.fits() {
        return Err(Stop::Fault(job.layout_refusal()));
    }
    Ok(Lists { layout, lengths })
}

/// All rules of the job of this number, whose lists begin at this place, and its lists in the region behind those of the jobs before it.
#[tactic(auto, unfolding(crate::specs::Faults::job_stages))]
fn check_one(
    alloc: Global,
    file: &FileParts,
    number: usize,
    place: u32,
    table: &Table,
    shaders: &Vec<Option<ShaderInfo>>,
    region: &mut Vec<u8>,
) -> Result<Lists, Stop<Refusal>>
    requires well_formed { IsWellFormed (parts_view file.now) }
    requires inside { number < length file.now.jobs.items }
    requires place_is { place ≡ lists_begin (parts_view file.now) number }
    requires begins { place ≤ region_end file.now.regions }
    requires table_is { table.now ≡ table_of (parts_view file.now) }
    requires shaped { AreShaped (table_of (parts_view file.now)) (shaders_view shaders.now.items) }
    requires sound { IsSound file.now.mem_size file.now.regions file.now.buffers.items }
    requires size { length region.old.items ≡ region_size (parts_view file.now) number }
    ensures size { IfOk result (λ _. length region.new.items
        ≡ region_size (parts_view file.now) (number + 1)) }
    ensures layout { IfOk result (λ lists. lists.layout ≡ layout_of (parts_view file.now) number) }
    ensures answers { shaders_view shaders.now.items ≡ shaders_of (parts_view file.now) →
        Answers (job_stages (parts_view file.now) number) (ArePlaced (parts_view file.now) number) result }
    ensures written { shaders_view shaders.now.items ≡ shaders_of (parts_view file.now)
        → IfOk result (λ _. region.new.items
        ≡ parts_placed (region.old.items
        ++ zeros (region_size (parts_view file.now) (number + 1) - length region.old.items))
        (region_parts (parts_view file.now) number)) }
    ensures fit { shaders_view shaders.now.items ≡ shaders_of (parts_view file.now) →
        IfOk result (λ _. PartsFit (layout_of (parts_view file.now) number).end
        (list_parts (parts_view file.now) number)) }
    ensures fits { IfOk result (λ lists. end_of lists.layout ≤ region_end file.now.regions) }
{
    let job = Context::open(alloc, file, number, place, table, shaders)?;
    place_lists(alloc, &job, region)
}

impl Region {
    /// No lists yet.
    fn empty(alloc: Global) -> Region
        ensures bytes { result.bytes.items ≡ [] }
        ensures layouts { result.layouts.items ≡ [] }
        ensures lengths { result.lengths.items ≡ [] }
    {
        Region {
            bytes: Vec::new(alloc),
            layouts: ArrayVec::new(),
            lengths: ArrayVec::new(),
        }
    }
}

/// The rules of the jobs, and the region of their lists, those of each job behind those of the job before it.
#[inline(never)]
fn check_jobs(
    alloc: Global,
    file: &FileParts,
    table: &Table,
    shaders: &Vec<Option<ShaderInfo>>,
    region: &mut Region,
) -> Result<(), Stop<Refusal>>
    requires well_formed { IsWellFormed (parts_view file.now) }
    requires table_is { table.now ≡ table_of (parts_view file.now) }
    requires shaped { AreShaped (table_of (parts_view file.now)) (shaders_view shaders.now.items) }
    requires sound { IsSound file.now.mem_size file.now.regions file.now.buffers.items }
    requires no_bytes { region.old.bytes.items ≡ [] }
    requires no_layouts { region.old.layouts.items ≡ [] }
    requires no_lengths { region.old.lengths.items ≡ [] }
    ensures laid { IfOk result (λ _. IsLaid (parts_view file.now) region.new) }
    ensures answers { shaders_view shaders.now.items ≡ shaders_of (parts_view file.now) →
        Answers (jobs_stages (parts_view file.now)) (λ _. IsRegion (parts_view file.now) region.new) result }
{
    let mut place = file.regions.lists_place;
    for number in 0..file.jobs.len() {
        let lists = check_one(
            alloc,
            file,
            number,
            place,
            table,
            shaders,
            &mut region.bytes,
        )?;
        place = next_place(&lists.layout);
        region.layouts.push(lists.layout);
        region.lengths.push(lists.lengths);
    }
    Ok(())
}

/// What is reported of the shaders: what was reported before, or what S finds where nothing was.
fn reported_shaders(
    alloc: Global,
    file: &FileParts,
    report: Option<Vec<Option<ShaderInfo>>>,
) -> Result<Vec<Option<ShaderInfo>>, Stop<Refusal>>
    requires well_formed { IsWellFormed (parts_view file.now) }
    requires shaped { IfSome report (λ shaders. AreShaped (table_of (parts_view file.now))
        (shaders_view shaders.items)) }
    ensures shaped { IfOk result (λ shaders. AreShaped (table_of (parts_view file.now))
        (shaders_view shaders.items)) }
    ensures answers { IfSome report (λ shaders. AreChecked (parts_view file.now)
        (shaders_view shaders.items))
        → Answers (shaders_stage (parts_view file.now))
        (λ shaders. shaders_view shaders.items ≡ shaders_of (parts_view file.now)) result }
{
    match report {
        Some(shaders) => Ok(shaders),
        None => shaders_stage(alloc, file),
    }
}

/// S where nothing was reported of the shaders, and then the jobs.
fn check_reported(
    alloc: Global,
    file: &FileParts,
    table: &Table,
    report: Option<Vec<Option<ShaderInfo>>>,
    region: &mut Region,
) -> Result<(), Stop<Refusal>>
    requires well_formed { IsWellFormed (parts_view file.now) }
    requires table_is { table.now ≡ table_of (parts_view file.now) }
    requires shaped { IfSome report (λ shaders. AreShaped (table_of (parts_view file.now))
        (shaders_view shaders.items)) }
    requires sound { IsSound file.now.mem_size file.now.regions file.now.buffers.items }
    requires no_bytes { region.old.bytes.items ≡ [] }
    requires no_layouts { region.old.layouts.items ≡ [] }
    requires no_lengths { region.old.lengths.items ≡ [] }
    ensures laid { IfOk result (λ _. IsLaid (parts_view file.now) region.new) }
    ensures answers { IfSome report (λ shaders. AreChecked (parts_view file.now)
        (shaders_view shaders.items))
        → Answers (shaders_stage (parts_view file.now) ++ jobs_stages (parts_view file.now))
        (λ _. IsRegion (parts_view file.now) region.new) result }
{
    let shaders = reported_shaders(alloc, file, report)?;
    check_jobs(alloc, file, table, &shaders, region)
}

/// Checks the parts of a file whose memory has at most `limit` bytes, and makes no memory of its jobs; contents and lists are read where
/// they lie. The shaders may have been checked before: then `report` has what was reported of the shader in each Code buffer, and S isn't asked
/// again; the answer is the one that asking would give. Where `report` is false, the answer may be wrong; all places are inside all the same.
/// `Ok` comes exactly where no rule is broken by the memory table, by the shaders, or by
/// any job's handles, its binner list, its records and uniforms, its frame and surfaces, and its layout.
///
/// # Errors
/// The first broken rule, job by job, with its place in the file; or want of memory, which never hides a rule of the memory table.
#[tactic(auto, unfolding(crate::specs::Faults::stages_within, crate::specs::Faults::table_stage_within))]
pub fn check_parts(
    alloc: Global,
    limit: u32,
    parts: &FileParts,
    report: Option<Vec<Option<ShaderInfo>>>,
) -> Result<Region, Stop<Refusal>>
    requires limit { limit ≤ most_place }
    requires well_formed { IsWellFormed (parts_view parts.now) }
    requires shaped { IfSome report (λ shaders. AreShaped (table_of (parts_view parts.now))
        (shaders_view shaders.items)) }
    ensures laid { IfOk result (IsLaid (parts_view parts.now)) }
    ensures answers { Under report (λ shaders. AreChecked (parts_view parts.now)
        (shaders_view shaders.items)) (Answers (stages_within limit (parts_view parts.now))
        (IsRegion (parts_view parts.now)) result) }
    ensures first { Under report (λ shaders. AreChecked (parts_view parts.now)
        (shaders_view shaders.items)) (NamesFirst
        (stages_within limit (parts_view parts.now)) result) }
    ensures memory { NeverHidesFault (table_stage_within limit (parts_view parts.now)) result }
    ensures sound { IsOk result → IsSound parts.now.mem_size parts.now.regions
        parts.now.buffers.items }
    ensures small { IsOk result → parts.now.mem_size ≤ limit }
{
    let table = table_stage(limit, parts.mem_size, parts.regions, &parts.buffers)?;
    let mut region = Region::empty(alloc);
    check_reported(alloc, parts, &table, report, &mut region)?;
    Ok(region)
}
