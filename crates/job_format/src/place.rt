//! Places in the file's bytes.
ghost use Rattle.std.specs.Prelude.{◌≡◌, ◌<◌, ◌+◌, ◌^◌};
ghost use Rattle.job_format.specs.Offsets.{job_word, content_offset, handles_offset, bin_offset};
ghost use Rattle.job_format.specs.Places.{start_of, offset_of};

use crate::rule::{Part, Place};
use crate::sizes::{entry_offset, job_offset};
use field_words::word_at;

/// The word at `k` bytes in the entry of job `j`.
fn job_word(bytes: &[u8], j: usize, k: usize) -> u128
    requires few { j < 2 ^ 32 }
    requires inside { k < 124 }
    ensures value { result ≡ job_word bytes.now j k }
    ensures fits { result < 2 ^ 32 }
{
    let buffers = word_at(bytes, 28) as usize;
    u128::from(word_at(bytes, job_offset(buffers, j) + k))
}

/// Where the contents of buffer `b` begin.
#[tactic(auto, using(crate::proofs::Standing::content_offset_first, crate::proofs::Standing::content_offset_step))]
fn content_offset(bytes: &[u8], b: usize) -> u128
    requires few { b < 2 ^ 32 }
    ensures value { result ≡ content_offset bytes.now b }
    ensures fits { result < 2 ^ 66 }
{
    let mut offset = job_offset(word_at(bytes, 28) as usize, word_at(bytes, 32) as usize) as u128;
    for k in 0..b {
        offset += u128::from(word_at(bytes, entry_offset(k) + 16));
    }
    offset
}

/// Where the parts of job `j` begin.
#[tactic(auto, unfolding(crate::specs::Offsets::bin_offset, crate::specs::Offsets::records_offset, crate::specs::Offsets::uniforms_offset, crate::specs::Offsets::end_offset), using(crate::proofs::Standing::handles_offset_first, crate::proofs::Standing::handles_offset_step))]
fn handles_offset(bytes: &[u8], j: usize) -> u128
    requires few { j < 2 ^ 32 }
    ensures value { result ≡ handles_offset bytes.now j }
    ensures fits { result < 2 ^ 68 }
{
    let mut offset = content_offset(bytes, word_at(bytes, 28) as usize);
    for k in 0..j {
        offset += 4 * job_word(bytes, k, 8);
        offset += job_word(bytes, k, 12) + job_word(bytes, k, 16) + job_word(bytes, k, 24);
    }
    offset
}

/// Where the binner list of job `j` begins.
#[tactic(auto, unfolding(crate::specs::Offsets::bin_offset))]
fn bin_offset(bytes: &[u8], j: usize) -> u128
    requires few { j < 2 ^ 32 }
    ensures value { result ≡ bin_offset bytes.now j }
    ensures fits { result < 2 ^ 68 + 2 ^ 34 }
{
    handles_offset(bytes, j) + 4 * job_word(bytes, j, 8)
}

/// Where a part begins. A header may claim any number of buffers and jobs, so that only what the part needs is added up.
#[tactic(auto, unfolding(crate::specs::Offsets::records_offset, crate::specs::Offsets::uniforms_offset))]
fn start_of(bytes: &[u8], part: Part, index: u32) -> u128
    ensures value { result ≡ start_of bytes.now part index }
    ensures fits { result < 2 ^ 69 }
{
    let index = index as usize;
    match part {
        Part::File | Part::Header => 0,
        Part::Entry => entry_offset(index) as u128,
        Part::JobEntry => job_offset(word_at(bytes, 28) as usize, index) as u128,
        Part::Contents => content_offset(bytes, index),
        Part::Handles => handles_offset(bytes, index),
        Part::BinnerList => bin_offset(bytes, index),
        Part::Records => bin_offset(bytes, index) + job_word(bytes, index, 12),
        Part::Uniforms => {
            bin_offset(bytes, index) + job_word(bytes, index, 12) + job_word(bytes, index, 16)
        }
    }
}

/// The offset in the file of a place in a part of it. It is total: where the file ends before the
/// entries that say where the part begins, their bytes count as zeros.
pub fn offset_of(bytes: &[u8], place: Place) -> u128
    ensures { result ≡ offset_of bytes.now place }
{
    start_of(bytes, place.part, place.index) + u128::from(place.at)
}
