//! The facts of the format's rules.
ghost use Rattle.std.specs.Prelude.{◌≡◌, ◌+◌};
ghost use Rattle.field_words.specs.Words.{u32_at};
ghost use Rattle.job_format.specs.Offsets.{job_offset, entry_offset};
ghost use Rattle.refusal_facts.specs.Cuts.{size_of, cut_at};

use crate::fact::RoomFact;
use field_words::word_at;
use job_format::{ENTRY_SIZE, HEADER_SIZE, JOB_SIZE, Part, Place, offset_of};

// A word of a buffer's entry.
fn entry_word(bytes: &[u8], b: u32, at: u32) -> u32
    ensures { result ≡ u32_at bytes.now (entry_offset b + at) }
{
    word_at(bytes, HEADER_SIZE + ENTRY_SIZE * b as usize + at as usize)
}

// A word of a job's entry.
fn job_word(bytes: &[u8], j: u32, at: u32) -> u32
    ensures { result ≡ u32_at bytes.now (job_offset bytes.now j + at) }
{
    let entries = HEADER_SIZE + ENTRY_SIZE * word_at(bytes, 28) as usize;
    word_at(bytes, entries + JOB_SIZE * j as usize + at as usize)
}

/// The bytes of the part of this number; 0 of the file.
#[tactic(auto, unfolding(crate::specs::Cuts::size_of))]
pub fn size_of(bytes: &[u8], part: Part, index: u32) -> u64
    ensures { result ≡ size_of bytes.now part index }
{
    match part {
        Part::Header => HEADER_SIZE as u64,
        Part::Entry => ENTRY_SIZE as u64,
        Part::JobEntry => JOB_SIZE as u64,
        Part::Contents => u64::from(entry_word(bytes, index, 16)),
        Part::Handles => 4 * u64::from(job_word(bytes, index, 8)),
        Part::BinnerList => u64::from(job_word(bytes, index, 12)),
        Part::Records => u64::from(job_word(bytes, index, 16)),
        Part::Uniforms => u64::from(job_word(bytes, index, 24)),
        _ => 0,
    }
}

/// F2: a part that is cut off.
pub(crate) fn cut_at(bytes: &[u8], place: Place) -> RoomFact
    ensures { result ≡ cut_at bytes.now place }
{
    let left = (bytes.len() as u128).saturating_sub(offset_of(bytes, place));
    RoomFact {
        needs: size_of(bytes, place.part, place.index),
        has: left as u64,
    }
}
