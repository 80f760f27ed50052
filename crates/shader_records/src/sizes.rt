//! What a state's word says of its record's source.
ghost use Rattle.std.specs.Prelude.{◌≡◌, ◌≤◌};
ghost use Rattle.shader_records.specs.Sources.{handles_size, source_size};

use packets::{attribute_count, record_size};

/// The bytes of the handles before a record.
#[tactic(auto, unfolding(crate::specs::Sources::handles_size))]
pub fn handles_size(state: u32) -> usize
    ensures value { result ≡ handles_size state }
    ensures some { 16 ≤ result }
    ensures limit { result ≤ 44 }
{
    4 * (3 + attribute_count(state) as usize)
}

/// The bytes of a record's source: its handles and itself.
#[tactic(auto, unfolding(crate::specs::Sources::source_size))]
pub fn source_size(state: u32) -> usize
    ensures value { result ≡ source_size state }
    ensures limit { result ≤ 176 }
{
    handles_size(state) + record_size(state) as usize
}
