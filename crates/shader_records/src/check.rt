//! The check of shader records and uniforms.
ghost use Rattle.std.specs.Prelude.{◌≡◌, ◌≢◌, None, ◌+◌, ◌<◌, ◌≤◌, length, ◌*◌};
ghost use Rattle.field_words.specs.Sizes.{most_list};
ghost use Rattle.buffer_table.specs.Table.{most_place};
ghost use Rattle.field_words.specs.Questions.{first_of, Answers};
ghost use Rattle.field_words.specs.declared.stop.Stop.TheVariants.{NoMemory as OutOfMemory};
ghost use Rattle.shader_records.specs.Inputs.{Fits};
ghost use Rattle.shader_records.specs.Rules.{all_questions};
ghost use Rattle.shader_records.specs.Emitted.{IsEmitted};

use crate::emit::{put_records, put_uniforms};
use crate::fault::RecordFault;
use crate::faults::first_fault;
use crate::info::RecordInfo;
use crate::inputs::Inputs;
use field_words::Stop;
use relocation::Layout;

/// Emits records and uniforms of which no rule fails, each at its offset in `out`.
#[tactic(auto, using(crate::proofs::Lengths::length_records, crate::proofs::Lengths::length_uniforms))]
fn emit(inputs: &Inputs, layout: &Layout, out: &mut [u8]) -> RecordInfo
    requires fits { Fits inputs.now }
    requires fine { first_of (all_questions inputs.now) ≡ None }
    requires place_limit { layout.now.place ≤ most_place }
    requires limit { layout.now.uniforms ≤ 2 * most_list + 32 }
    requires order { layout.now.records + length inputs.now.records ≤ layout.now.uniforms }
    requires room { layout.now.uniforms + length inputs.now.uniforms ≤ length out.old }
    ensures { IsEmitted inputs.now layout.now out.old out.new result }
{
    let first = layout.place + layout.uniforms;
    let records = put_records(inputs, first, out, layout.records as usize);
    let uniforms = put_uniforms(inputs, first, out, layout.uniforms as usize);
    RecordInfo {
        records: records as u32,
        uniforms: uniforms as u32,
    }
}

/// Checks the shader records of all states, and the uniforms that their shaders take.
///
/// The fault is the first rule that fails, state by state: at the record by place and number (A1 to A10 but
/// A8), then shader by shader (fragment, vertex, coordinate) that its uniforms are there (A8) and then
/// sample by sample (U1 to U9). Where none fails, `out`, the window of the lists' region, has the emitted
/// records and uniforms at their offsets in `layout`, and no other byte of it changed. After a fault it may
/// hold any bytes.
///
/// What is left over of the job's records and uniforms is ignored. No memory is taken.
pub fn check_records(
    inputs: &Inputs,
    layout: &Layout,
    out: &mut [u8],
) -> Result<RecordInfo, Stop<RecordFault>>
    requires fits { Fits inputs.now }
    requires place_limit { layout.now.place ≤ most_place }
    requires limit { layout.now.uniforms ≤ 2 * most_list + 32 }
    requires order { layout.now.records + length inputs.now.records ≤ layout.now.uniforms }
    requires room { layout.now.uniforms + length inputs.now.uniforms ≤ length out.old }
    ensures answers { Answers (all_questions inputs.now)
        (λ info. IsEmitted inputs.now layout.now out.old out.new info) result }
    ensures takes_no_memory { result ≢ Err OutOfMemory }
{
    match first_fault(inputs) {
        Some(fault) => Err(Stop::Fault(fault)),
        None => Ok(emit(inputs, layout, out)),
    }
}
