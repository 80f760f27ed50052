//! Where the contents of buffers begin in the file.
ghost use Rattle.std.specs.Prelude.{◌≡◌, ◌≤◌, ◌<◌, ◌^◌, length, map, sum, take};
ghost use Rattle.job_format.specs.File.{IsWellFormed};
ghost use Rattle.job_format.specs.Parts.{parts_view};
ghost use Rattle.job_format.specs.Offsets.{most_buffers};
ghost use Rattle.job_check.specs.Offsets.{content_offset};

use buffer_table::Buffer;
use job_format::{ENTRY_SIZE, FileParts, HEADER_SIZE, JOB_SIZE};

/// How many bytes of contents the buffers before this one have.
fn content_before(buffers: &[Buffer], b: usize) -> u64
    requires inside { b ≤ length buffers.now }
    requires few { length buffers.now ≤ most_buffers }
    ensures value { result ≡ sum (map (λ x. x.content) (take b buffers.now)) }
    ensures fits { result < 2 ^ 42 }
{
    let mut size = 0;
    for buffer in &buffers[..b] {
        size += u64::from(buffer.content);
    }
    size
}

/// Where the contents of buffer `b` begin, or where the contents end.
#[tactic(auto, unfolding(crate::specs::Offsets::content_offset))]
pub fn content_offset(file: &FileParts, b: usize) -> u64
    requires well_formed { IsWellFormed (parts_view file.now) }
    requires inside { b ≤ length file.now.buffers.items }
    ensures value { result ≡ content_offset (parts_view file.now) b }
    ensures fits { result < 2 ^ 43 }
{
    let entries = HEADER_SIZE + ENTRY_SIZE * file.buffers.len() + JOB_SIZE * file.jobs.len();
    entries as u64 + content_before(&file.buffers, b)
}
