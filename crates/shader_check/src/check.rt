//! The checker.
ghost use Rattle.std.specs.Prelude.{◌≡◌, ◌<◌, ◌≤◌, ◌+◌, ◌*◌, length, IfOk};
ghost use Rattle.field_words.specs.Sizes.{most_words};
ghost use Rattle.field_words.specs.Least.{NamesLeast};
ghost use Rattle.field_words.specs.Questions.{Answers};
ghost use Rattle.qpu_isa.specs.Shader.{IsSoundShader, shader_view};
ghost use Rattle.shader_flow.specs.Flow.{IsFlow};
ghost use Rattle.shader_flow.specs.Pending.{count_of};
ghost use Rattle.uniform_stream.specs.Stream.{uniforms_of};
ghost use Rattle.shader_check.specs.Info.{IsInfo};
ghost use Rattle.shader_check.specs.Least.{IsUpTo};
ghost use Rattle.shader_check.specs.Rules.{shader_questions};

use crate::fault::ShaderFault;
use crate::walk::walk;
use crate::whole::whole_fault;
use field_words::{Steps, Stop};
use qpu_isa::ShaderInfo;
use shader_flow::{Flow, flow};
use std::alloc::Global;
use std::marker::Brand;
use std::sync::ledger::{Blank, Ledger};
use uniform_stream::{is_open, stream};

// How many uniforms the shader's stream has, where its instructions take `count`.
#[tactic(auto, using(shader_flow::proofs::Counts::count_le), unfolding(uniform_stream::specs::Stream::uniforms_of))]
fn uniforms(code: &[u64], flow: &Flow, count: u32) -> u32
    requires made { IsFlow code.now flow.now }
    requires taken { count ≡ count_of code.now (length code.now) }
    ensures { result ≡ uniforms_of code.now }
{
    if is_open(code, flow) {
        return count + 1;
    }
    count
}

/// Checks a shader of at most 8,192 words. A fault is the first broken rule, by index and then by number, of all rules at
/// all checked instructions and on the whole shader; else what the shader takes and reads is reported. `NoMemory` may come at
/// any time and says nothing of the shader.
///
/// What is reported is sound, which the emission of uniforms rests on: all positions lie in the stream, and the words that the
/// validator writes there (address words, and the first of each sample) are apart from each other and from all others that
/// it tests.
///
/// `steps` counts the looks at the table of facts and its changes: at most eight a word and eight more, whatever is answered. A
/// caller that doesn't want the count takes [`check_code`].
pub fn check_shader<L: Ledger>(
    alloc: Global,
    code: &[u64],
    steps: &mut Steps<L>,
) -> Result<ShaderInfo, Stop<ShaderFault>>
    requires { length code.now ≤ most_words }
    ensures answers { Answers (shader_questions code.now) (IsInfo code.now) result }
    ensures least { NamesLeast IsUpTo (shader_questions code.now) result }
    ensures sound { IfOk result (λ info. IsSoundShader (shader_view info)) }
    ensures bound { steps.new ≤ steps.old + (8 * length code.now + 8) }
{
    let flow = flow(alloc, code)?;
    let stream = stream(alloc, code, &flow)?;
    let samples = match walk(alloc, code, &flow, &stream, steps) {
        Ok(samples) => samples,
        Err(stop) => return Err(stop),
    };
    if let Some(number) = whole_fault(code, &flow) {
        let index = code.len() as u32;
        return Err(Stop::Fault(ShaderFault { number, index }));
    }
    let uniforms = uniforms(code, &flow, stream.counts[code.len()]);
    Ok(ShaderInfo {
        uniforms,
        samples,
        address_words: stream.address_words,
        threaded: flow.threaded,
    })
}

// The checker's answer, with a counter that is made here and has no bytes at run time.
fn counted<L: Ledger>(
    alloc: Global,
    code: &[u64],
    blank: Blank,
) -> Result<ShaderInfo, Stop<ShaderFault>>
    requires few { length code.now ≤ most_words }
    requires name { blank.name ≡ L.name }
    requires parts { blank.parts ≡ L.parts }
    requires some { 0 < blank.parts }
    ensures answers { Answers (shader_questions code.now) (IsInfo code.now) result }
    ensures least { NamesLeast IsUpTo (shader_questions code.now) result }
    ensures sound { IfOk result (λ info. IsSoundShader (shader_view info)) }
{
    check_shader(alloc, code, &mut Steps::<L>::new(blank))
}

/// Checks a shader as [`check_shader`] does, and keeps the count of its steps to itself.
pub fn check_code(alloc: Global, code: &[u64]) -> Result<ShaderInfo, Stop<ShaderFault>>
    requires { length code.now ≤ most_words }
    ensures answers { Answers (shader_questions code.now) (IsInfo code.now) result }
    ensures least { NamesLeast IsUpTo (shader_questions code.now) result }
    ensures sound { IfOk result (λ info. IsSoundShader (shader_view info)) }
{
    counted::<Brand>(alloc, code, Blank::new(1))
}
