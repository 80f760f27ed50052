//! Where the lists of the jobs go.
ghost use Rattle.std.specs.Prelude.{◌≡◌, ◌↔◌, ◌≤◌, ◌+◌, ◌*◌, IsTrue};
ghost use Rattle.buffer_table.specs.Table.{most_place};
ghost use Rattle.field_words.specs.Sizes.{slot_size, most_render};
ghost use Rattle.job_format.specs.File.{IsJobWellFormed};
ghost use Rattle.job_format.specs.Parts.{parts_view, job_parts_view};
ghost use Rattle.relocation.specs.Layout.{region_end, begins_after};
ghost use Rattle.job_check.specs.Jobs.{job_of, has_tiles, render_room, lists_begin, layout_of, end_of};

use buffer_table::Regions;
use field_words::round_up;
use job_format::{FileParts, Frame, JobParts};
use relocation::Layout;
use render_list::render_size;
use tile_memory::slot_place;

/// Whether the smallest tile isn't over the largest.
#[tactic(auto, unfolding(crate::specs::Jobs::has_tiles))]
fn has_tiles(frame: &Frame) -> bool
    ensures { result ≡ has_tiles frame.now }
{
    frame.min_x <= frame.max_x && frame.min_y <= frame.max_y
}

/// The room of the renderer list: nothing where the tile set is reversed, which a rule on the frame refuses.
#[tactic(auto, unfolding(crate::specs::Jobs::render_room, crate::specs::Jobs::has_tiles))]
fn render_room(frame: &Frame, has_bin: bool) -> u64
    ensures value { result ≡ render_room frame.now has_bin }
    ensures limit { result ≤ most_render }
{
    if has_tiles(frame) {
        return render_size(frame, has_bin);
    }
    0
}

/// Where the lists of the job go that begin at this place, also where they don't fit their region: the rules before the one that
/// refuses this are asked of them all the same.
#[tactic(auto, unfolding(crate::specs::Jobs::layout_of, crate::specs::Jobs::slot_of, crate::specs::Jobs::has_bin))]
pub fn job_layout(file: &FileParts, number: usize, place: u32, job: &JobParts) -> Layout
    requires job_is { job_parts_view job.now ≡ job_of (parts_view file.now) number }
    requires limits { IsJobWellFormed (job_parts_view job.now) }
    requires place_is { place ≡ lists_begin (parts_view file.now) number }
    requires slot { file.now.regions.tile_place + slot_size * number ≤ most_place }
    ensures { result ≡ layout_of (parts_view file.now) number }
{
    let slot = slot_place(file.regions.tile_place, number as u32);
    let bin = job.bin.len() as u32;
    let records = job.records.len() as u32;
    let uniforms = job.uniforms.len() as u32;
    let render = render_room(&job.frame, job.bin.len() != 0);
    Layout::at(place, bin, records, uniforms, render, slot)
}

/// Where the lists of the job after the one with this layout begin.
#[tactic(auto, unfolding(relocation::specs::Layout::begins_after))]
pub fn next_place(layout: &Layout) -> u32
    requires { end_of layout.now ≤ most_place }
    ensures { result ≡ begins_after layout.now.place layout.now.end }
{
    round_up(u64::from(layout.place) + u64::from(layout.end), 16) as u32
}

/// Whether the lists of a job end inside their region.
pub fn is_inside(layout: &Layout, regions: &Regions) -> bool
    ensures { IsTrue result ↔ (end_of layout.now ≤ region_end regions.now) }
{
    let end = u64::from(layout.place) + u64::from(layout.end);
    end <= u64::from(regions.lists_place) + u64::from(regions.lists_size)
}
