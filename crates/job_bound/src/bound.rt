//! The bound of a file.
ghost use Rattle.std.specs.Prelude.{◌≡◌, ◌<◌, ◌≤◌, ◌+◌, ◌*◌, length, IfOk};
ghost use Rattle.field_words.specs.Sizes.{most_list};
ghost use Rattle.field_words.specs.Questions.{Answers, NeverHidesFault};
ghost use Rattle.job_format.specs.File.{IsWellFormed, Fits};
ghost use Rattle.job_format.specs.Parts.{parts_view};
ghost use Rattle.render_list.specs.Frame.{IsTileSet};
ghost use Rattle.render_list.specs.Text.{number_where};
ghost use Rattle.list_machine.specs.Lists.{most_items};
ghost use Rattle.promises.specs.{Prepared.IsFaultless, Bounded.longest_of, Bounded.job_bound, Bounded.bound_of};
ghost use Rattle.job_check.specs.Jobs.{job_of, has_bin, layout_of, bin_list_of};
ghost use Rattle.job_check.specs.Faults.{table_stage, file_stages};
ghost use Rattle.job_check.specs.Region.{region_from, IsRegion};
ghost use Rattle.job_bound.specs.Bound.{bound_in, most_program, most_job};
ghost use Rattle.job_bound.specs.Items.{items_in, items_of};

use crate::binner::{bin_steps, room};
use crate::named::{Sought, first_place, longest};
use crate::programs::programs_of;
use crate::renderer::frame_steps;
use field_words::{MOST_MEMORY, NoMemory, Stop};
use job_check::{Region, check_parts, job_at};
use job_format::{FileParts, Frame, Refusal};
use std::alloc::Global;

/// What is known of how many steps the jobs of a file take.
#[derive(Clone, Copy, Debug, PartialEq, Eq)]
pub enum Bound {
    /// No shader that a handle names has a loop: each run has at most `most` steps, and `stay` more for each step in which a renderer
    /// stays at an item, of which there are at most `items`: a run in which none is stayed at more than K times has at most
    /// `most` + `stay` * K * `items` steps. `wait` is the place in the file of the first instruction that may wait for a request that isn't
    /// there, or for the room that the hardware has.
    Steps {
        most: u128,
        stay: u32,
        items: u64,
        wait: Option<u64>,
    },
    /// The first branch that leads back stands at this place in the file.
    Loops {
        offset: u64,
    },
}

/// Where in the region the binner list of the job of this number begins.
fn bin_place(file: &FileParts, number: usize, region: &Region) -> usize
    requires region { IsRegion (parts_view file.now) region.now }
    requires inside { number < length file.now.jobs.items }
    ensures { result ≡ region_from (parts_view file.now) number
        + (layout_of (parts_view file.now) number).bin }
{
    let layout = region.layouts.as_slice()[number];
    (layout.place - file.regions.lists_place) as usize + layout.bin as usize
}

/// How many bytes the binner list of the job of this number has.
fn bin_length(file: &FileParts, number: usize, region: &Region) -> usize
    requires region { IsRegion (parts_view file.now) region.now }
    requires inside { number < length file.now.jobs.items }
    ensures { result ≡ length (bin_list_of (parts_view file.now) number) }
{
    region.lengths.as_slice()[number].bin as usize
}

/// The binner list that the hardware is given for the job of this number.
fn bin_list<'a>(file: &FileParts, number: usize, region: &'a Region) -> &'a [u8]
    requires faultless { IsFaultless (parts_view file.now) }
    requires region { IsRegion (parts_view file.now) region.now }
    requires inside { number < length file.now.jobs.items }
    ensures value { result.now ≡ bin_list_of (parts_view file.now) number }
    ensures short { length result.now ≤ most_list }
{
    let from = bin_place(file, number, region);
    &region.bytes[from..from + bin_length(file, number, region)]
}

/// Whether the job of this number has a binner list.
#[tactic(auto, unfolding(job_check::specs::Jobs::has_bin))]
fn has_bin(file: &FileParts, number: usize) -> bool
    requires faultless { IsFaultless (parts_view file.now) }
    requires inside { number < length file.now.jobs.items }
    ensures { result ≡ has_bin (parts_view file.now) number }
{
    job_at(file, number).bin.len() != 0
}

/// The frame of the job of this number.
fn frame_at<'a>(file: &'a FileParts, number: usize) -> &'a Frame
    requires faultless { IsFaultless (parts_view file.now) }
    requires inside { number < length file.now.jobs.items }
    ensures value { result.now ≡ (job_of (parts_view file.now) number).frame }
    ensures set { IsTileSet result.now }
{
    &job_at(file, number).frame
}

/// The steps for the items for which the tile lists of a job have room. Each is put once, and the renderer goes past it once where there
/// is a binner list.
fn items_steps(room: u64, has_bin: bool) -> u128
    requires { room ≤ most_items }
    ensures value { result ≡ room * (1 + number_where has_bin 1) }
    ensures few { result ≤ 65536 }
{
    let times = if has_bin { 2 } else { 1 };
    u128::from(room) * times
}

/// For how many items the tile lists of the job of this number have room.
fn items_in(file: &FileParts, number: usize, region: &Region) -> u64
    requires faultless { IsFaultless (parts_view file.now) }
    requires inside { number < length file.now.jobs.items }
    requires region { IsRegion (parts_view file.now) region.now }
    ensures value { result ≡ items_in (parts_view file.now) number }
    ensures few { result ≤ most_items }
{
    room(bin_list(file, number, region))
}

/// The most steps of the job of this number.
fn job_bound(file: &FileParts, number: usize, region: &Region, longest: u32) -> u128
    requires faultless { IsFaultless (parts_view file.now) }
    requires inside { number < length file.now.jobs.items }
    requires region { IsRegion (parts_view file.now) region.now }
    requires longest { longest ≡ longest_of (parts_view file.now) }
    requires few { longest ≤ most_program }
    ensures value { result ≡ job_bound (parts_view file.now) number }
    ensures limit { result ≤ most_job }
{
    let has_bin = has_bin(file, number);
    let list = bin_list(file, number, region);
    let frame = frame_at(file, number);
    bin_steps(longest, list)
        + items_steps(items_in(file, number, region), has_bin)
        + u128::from(frame_steps(frame, has_bin))
}

/// The most steps of all jobs, and for how many items their tile lists have room.
fn totals(file: &FileParts, region: &Region, longest: u32) -> (u128, u64)
    requires faultless { IsFaultless (parts_view file.now) }
    requires region { IsRegion (parts_view file.now) region.now }
    requires longest { longest ≡ longest_of (parts_view file.now) }
    requires few { longest ≤ most_program }
    ensures steps { result.0 ≡ bound_of (parts_view file.now) }
    ensures items { result.1 ≡ items_of (parts_view file.now) }
{
    let mut steps = 0;
    let mut items = 0;
    for number in 0..file.jobs.len() {
        steps += job_bound(file, number, region, longest);
        items += items_in(file, number, region);
    }
    (steps, items)
}

/// The bound of an accepted file with these lists. It takes time and memory in proportion to the file: each shader is looked at once, however
/// many handles name it. Only want of memory fails.
#[tactic(auto, unfolding(crate::specs::Bound::bound_in))]
pub fn bound_with(alloc: Global, file: &FileParts, region: &Region) -> Result<Bound, NoMemory>
    requires faultless { IsFaultless (parts_view file.now) }
    requires region { IsRegion (parts_view file.now) region.now }
    ensures { IfOk result (λ bound. bound ≡ bound_in (parts_view file.now)) }
{
    let programs = programs_of(alloc, file)?;
    if let Some(offset) = first_place(file, &programs, Sought::LeadsBack) {
        return Ok(Bound::Loops { offset });
    }
    let longest = longest(file, &programs);
    let (most, items) = totals(file, region, longest);
    Ok(Bound::Steps {
        most,
        stay: longest + 1,
        items,
        wait: first_place(file, &programs, Sought::MayWait),
    })
}

/// Checks a file that was read, and reports how many steps its jobs take at most. `Ok` comes exactly where no rule of the file is broken. No
/// memory of the jobs is made. It takes time and memory in proportion to the file.
///
/// # Errors
/// The first rule that is broken, with its place in the file; or want of memory, which never hides a rule of the memory table.
pub fn find_bound(alloc: Global, file: &FileParts) -> Result<Bound, Stop<Refusal>>
    requires well_formed { IsWellFormed (parts_view file.now) }
    requires fits { Fits (parts_view file.now) }
    ensures answers { Answers (file_stages (parts_view file.now))
        (λ bound. bound ≡ bound_in (parts_view file.now)) result }
    ensures memory { NeverHidesFault (table_stage (parts_view file.now)) result }
{
    let region = check_parts(alloc, MOST_MEMORY, file, None)?;
    Ok(bound_with(alloc, file, &region)?)
}
