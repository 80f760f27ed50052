//! What the jobs use a buffer as.
ghost use Rattle.std.specs.Prelude.{◌≡◌, map};
ghost use Rattle.job_format.specs.Parts.{job_parts_view};
ghost use Rattle.pictures.specs.Roles.{surface_buffer, has_surface, has_colours, has_depths, use_words};

use job_format::JobParts;

/// The buffer that a surface of a job's frame lies in, if the surface is there.
#[tactic(auto, unfolding(crate::specs::Roles::surface_buffer))]
fn surface_buffer(job: &JobParts, surface: usize) -> Option<u64>
    ensures { result ≡ surface_buffer surface (job_parts_view job.now) }
{
    let index = job.frame.surfaces.get(surface)?.hindex as usize;
    let handle = *job.handles.as_slice().get(index)?;
    Some(u64::from(handle))
}

/// Whether this surface of one of the jobs lies in the buffer of this number.
fn has_surface(jobs: &[JobParts], number: u64, surface: usize) -> bool
    ensures { result ≡ has_surface (map job_parts_view jobs.now) number surface }
{
    jobs.iter()
        .any(|job| surface_buffer(job, surface) == Some(number))
}

/// Whether a job's colour read, colour write or multisample colour write lies in the buffer.
#[tactic(auto, unfolding(crate::specs::Roles::has_colours))]
fn has_colours(jobs: &[JobParts], number: u64) -> bool
    ensures { result ≡ has_colours (map job_parts_view jobs.now) number }
{
    has_surface(jobs, number, 0) || has_surface(jobs, number, 1) || has_surface(jobs, number, 4)
}

/// Whether a job's ZS read, ZS write or multisample ZS write lies in the buffer.
#[tactic(auto, unfolding(crate::specs::Roles::has_depths))]
fn has_depths(jobs: &[JobParts], number: u64) -> bool
    ensures { result ≡ has_depths (map job_parts_view jobs.now) number }
{
    has_surface(jobs, number, 2) || has_surface(jobs, number, 3) || has_surface(jobs, number, 5)
}

/// The words behind the kind of the buffer of this number, where it is a surface of a job's frame.
#[tactic(auto, unfolding(crate::specs::Roles::use_words))]
pub(crate) fn use_words(jobs: &[JobParts], number: u64) -> &'static str
    ensures { result.now ≡ use_words (map job_parts_view jobs.now) number }
{
    match (has_colours(jobs, number), has_depths(jobs, number)) {
        (true, true) => ", colour, depth",
        (true, false) => ", colour",
        (false, true) => ", depth",
        (false, false) => "",
    }
}
