//! Sizes of the parts of a job file, in bytes, and the limits on their numbers. The definitions
//! have the same names, in `specs/Offsets.antt`.
ghost use Rattle.std.specs.Prelude.{◌≡◌, ◌+◌, ◌*◌, ◌<◌, ◌^◌};
ghost use Rattle.job_format.specs.Offsets.{job_size, buffer_limit, handle_limit, entry_offset};

/// The letters `VC4J` as a number.
pub(crate) const MAGIC: u32 = 0x4a34_4356;

/// The header.
pub const HEADER_SIZE: usize = 36;

/// A buffer's entry.
pub const ENTRY_SIZE: usize = 20;

/// A job's entry.
pub const JOB_SIZE: usize = 124;

/// The most buffers, of version 2.
pub const MOST_BUFFERS: u32 = 1024;

/// The most handles of a job, of version 2.
pub const MOST_HANDLES: u32 = 1024;

/// The most buffers, and the most handles, of version 1.
pub const MOST_FIRST: u32 = 64;

/// The most jobs, of version 2. Version 1 has one.
pub const MOST_JOBS: u32 = 8;

/// The most shader states that a job may declare.
pub const MOST_STATES: u32 = 65_536;

/// The most buffers of a version.
#[tactic(auto, unfolding(crate::specs::Offsets::buffer_limit))]
pub(crate) fn buffer_limit(version: u32) -> u32
    ensures { result ≡ buffer_limit version }
{
    if version == 1 {
        MOST_FIRST
    } else {
        MOST_BUFFERS
    }
}

/// The most handles of a job of a version.
#[tactic(auto, unfolding(crate::specs::Offsets::handle_limit))]
pub(crate) fn handle_limit(version: u32) -> u32
    ensures { result ≡ handle_limit version }
{
    if version == 1 {
        MOST_FIRST
    } else {
        MOST_HANDLES
    }
}

/// Where the entry of buffer `b` begins; where `b` is the number of buffers, what follows the last
/// entry.
pub(crate) fn entry_offset(b: usize) -> usize
    requires few { b < 2 ^ 32 }
    ensures { result ≡ entry_offset b }
{
    HEADER_SIZE + ENTRY_SIZE * b
}

/// Where the entry of job `j` begins, after those of so many buffers; where `j` is the number of
/// jobs, what follows the last entry.
pub(crate) fn job_offset(buffers: usize, j: usize) -> usize
    requires few_buffers { buffers < 2 ^ 32 }
    requires few_jobs { j < 2 ^ 32 }
    ensures { result ≡ entry_offset buffers + job_size * j }
{
    entry_offset(buffers) + JOB_SIZE * j
}
