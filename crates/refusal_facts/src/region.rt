//! The facts of the lists' region.
ghost use Rattle.std.specs.Prelude.{◌≡◌, ◌<◌, ◌^◌, not, ◌==◌, length};
ghost use Rattle.job_format.specs.File.{IsWellFormed, IsJobWellFormed};
ghost use Rattle.job_format.specs.Parts.{parts_view, job_parts_view};
ghost use Rattle.relocation.specs.Layout.{lists_end};
ghost use Rattle.job_check.specs.Jobs.{has_tiles, render_room, layout_of, end_of};
ghost use Rattle.refusal_facts.specs.Lists.{region_room};

use crate::fact::RoomFact;
use field_words::round_up;
use job_check::job_at;
use job_format::{FileParts, JobParts};
use relocation::Layout;
use render_list::render_size;

// The bytes that the lists of a job take.
#[tactic(auto, unfolding(job_check::specs::Jobs::render_room, job_check::specs::Jobs::has_tiles))]
fn lists_size(job: &JobParts) -> u64
    requires { IsJobWellFormed (job_parts_view job.now) }
    ensures value { result ≡ lists_end (length job.now.bin.now) (length job.now.records.now)
        (length job.now.uniforms.now) (render_room job.now.frame (not (length job.now.bin.now == 0))) }
    ensures limit { result < 2 ^ 32 }
{
    let frame = &job.frame;
    let render = if frame.min_x <= frame.max_x && frame.min_y <= frame.max_y {
        render_size(frame, !job.bin.is_empty())
    } else {
        0
    };
    let bin = job.bin.len() as u32;
    let records = job.records.len() as u32;
    let uniforms = job.uniforms.len() as u32;
    u64::from(Layout::at(0, bin, records, uniforms, render, 0).end)
}

// Where in memory the lists of a job end.
#[tactic(auto, unfolding(job_check::specs::Jobs::lists_begin, job_check::specs::Jobs::lists_room, job_check::specs::Jobs::layout_of, job_check::specs::Jobs::has_bin, relocation::specs::Layout::begins_after))]
fn lists_end(file: &FileParts, j: usize) -> u64
    requires well_formed { IsWellFormed (parts_view file.now) }
    requires inside { j < length file.now.jobs.items }
    ensures { result ≡ end_of (layout_of (parts_view file.now) j) }
{
    let mut place = u64::from(file.regions.lists_place);
    for number in 0..j {
        place = round_up(place + lists_size(job_at(file, number)), 16);
    }
    place + lists_size(job_at(file, j))
}

/// X1: what the lists of a job need of their region, with those of the jobs before it.
#[tactic(auto, unfolding(crate::specs::Lists::region_room))]
pub(crate) fn region_room(file: &FileParts, j: usize) -> RoomFact
    requires well_formed { IsWellFormed (parts_view file.now) }
    requires inside { j < length file.now.jobs.items }
    ensures { result ≡ region_room (parts_view file.now) j }
{
    let place = u64::from(file.regions.lists_place);
    RoomFact {
        needs: lists_end(file, j).saturating_sub(place),
        has: u64::from(file.regions.lists_size),
    }
}
