//! Emission of all records, and of all streams.
ghost use Rattle.std.specs.Prelude.{◌≡◌, None, ◌+◌, ◌<◌, ◌≤◌, ◌^◌, length};
ghost use Rattle.field_words.specs.Sizes.{most_memory};
ghost use Rattle.field_words.specs.Questions.{first_of};
ghost use Rattle.field_words.specs.Writes.{with_bytes};
ghost use Rattle.shader_records.specs.Inputs.{Fits};
ghost use Rattle.shader_records.specs.Sources.{record_offset, stream_offset};
ghost use Rattle.packets.specs.StateWord.{record_room};
ghost use Rattle.shader_records.specs.Rules.{all_questions};
ghost use Rattle.shader_records.specs.Emission.{emitted_records, emitted_uniforms};

use crate::faults::source_of;
use crate::inputs::Inputs;
use crate::record_text::put_record;
use crate::sizes::source_size;
use crate::stream_text::{Stream, put_streams};
use packets::record_room;

/// Emits all records from `base` on; their streams stand from the place `first` on. Gives the bytes.
pub(crate) fn put_records(inputs: &Inputs, first: u32, out: &mut [u8], base: usize) -> usize
    requires fits { Fits inputs.now }
    requires fine { first_of (all_questions inputs.now) ≡ None }
    requires base { base ≤ most_memory }
    requires places { first + length inputs.now.uniforms < 2 ^ 32 }
    requires room { base + length inputs.now.records ≤ length out.old }
    ensures text { out.new ≡ with_bytes out.old base (emitted_records inputs.now first) }
    ensures length { result ≡ record_offset inputs.now (length inputs.now.states) }
{
    let mut at = 0;
    let mut given = 0;
    let mut done = 0;
    for k in 0..inputs.count() {
        let source = source_of(inputs, k, at);
        given += put_record(inputs, source, first + given as u32, out, base + done);
        at += source_size(source.state);
        done += record_room(source.state) as usize;
    }
    done
}

/// Emits all streams from `base` on; they stand from the place `first` on. Gives the bytes.
pub(crate) fn put_uniforms(inputs: &Inputs, first: u32, out: &mut [u8], base: usize) -> usize
    requires fits { Fits inputs.now }
    requires fine { first_of (all_questions inputs.now) ≡ None }
    requires base { base ≤ most_memory }
    requires places { first + length inputs.now.uniforms < 2 ^ 32 }
    requires room { base + length inputs.now.uniforms ≤ length out.old }
    ensures text { out.new ≡ with_bytes out.old base (emitted_uniforms inputs.now first) }
    ensures length { result ≡ stream_offset inputs.now (length inputs.now.states) }
{
    let mut at = 0;
    let mut from = 0;
    let mut done = 0;
    for k in 0..inputs.count() {
        let stream = Stream {
            from,
            place: first + done as u32,
            base: base + done,
        };
        let amounts = put_streams(inputs, at, stream, out);
        from += amounts.taken;
        done += amounts.given;
        at += source_size(inputs.state(k).word);
    }
    done
}
