//! The memory that an accepted job is to run in.
ghost use Rattle.std.specs.Prelude.{◌≡◌, ◌≤◌, ◌<◌, ◌+◌, length, map};
ghost use Rattle.field_words.specs.Writes.{parts_placed, with_bytes};
ghost use Rattle.job_check.specs.Emit.{content_parts, ContentsFit};

use buffer_table::Buffer;
use phys_mem::PhysMem;

/// Puts the contents of each buffer at its place.
#[tactic(auto, unfolding(crate::specs::Emit::content_parts))]
pub fn put_contents(memory: &mut PhysMem, buffers: &[Buffer], contents: &Vec<&[u8]>)
    requires each { length contents.now.items ≡ length buffers.now }
    requires fit { ContentsFit (length memory.old) buffers.now
        (map (λ c. c.now) contents.now.items) }
    ensures long { length memory.new ≡ length memory.old }
    ensures put { memory.new ≡ parts_placed memory.old
        (content_parts buffers.now (map (λ c. c.now) contents.now.items)) }
{
    for k in 0..buffers.len() {
        put_content(memory, &buffers[k], contents[k]);
    }
}

/// Puts the contents of one buffer at its place.
fn put_content(memory: &mut PhysMem, buffer: &Buffer, content: &[u8])
    requires { buffer.now.place + length content.now ≤ length memory.old }
    ensures { memory.new ≡ with_bytes memory.old buffer.now.place content.now }
{
    memory.write_bytes(buffer.place, content);
}
