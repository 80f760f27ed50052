//! The command `shader`: one shader, checked without a job.
ghost use Rattle.std.specs.Prelude.{◌≡◌, ◌≤◌, ◌<◌, ◌++◌, length, Some, IfOk, OnOk};
ghost use Rattle.std.specs.Fmt.{decimal};
ghost use Rattle.std.specs.List.{flat_map};
ghost use Rattle.field_words.specs.{Questions.Answers, Sizes.most_code, Sizes.most_list, Sizes.most_words};
ghost use Rattle.job_check.specs.Shaders.{words_of, report_of};
ghost use Rattle.qpu_isa.specs.Shader.{shader_view};
ghost use Rattle.shader_check.specs.Rules.{shader_questions};
ghost use Rattle.shader_flow.specs.Flow.{IsFlow};
ghost use Rattle.commands.specs.Cause.{notes_cause, report_cause, words_cause, IsRefusal};
ghost use Rattle.commands.specs.declared.cause.Cause.TheVariants.{Shader as Broken, Long};
ghost use Rattle.commands.specs.declared.command.Command.TheVariants.{Shader, ShaderText};
ghost use Rattle.commands.specs.ShaderReport.{position_text, sample_line, address_line, thread_count, head_text, shader_text, shader_refusal, long_text, IsFine, IsReported, IsWordsAnswer};
ghost use Rattle.commands.specs.Answer.{IsAnswerTo};

use super::answer::Answer;
use super::asm::text_refused;
use super::cause::{Cause, shader_rule, strict_rule};
use field_words::{MOST_WORDS, NoMemory, Stop};
use itoa::Buffer;
use job_check::{shader_in, words_of};
use qpu_asm::assemble;
use qpu_isa::{Sample, ShaderInfo};
use rule_words::RuleName;
use shader_check::{ShaderFault, check_code};
use shader_flow::{Flow, flow};
use shader_notes::notes;
use std::alloc::{AllocError, Global};
use strict_rules::check_strict;

fn put_number(out: &mut Vec<u8>, number: u32) -> Result<(), AllocError>
    ensures { OnOk result (out.new.items ≡ out.old.items ++ decimal number) }
{
    let mut buffer = Buffer::new();
    out.extend_from_slice(buffer.format(number).as_bytes())
}

#[tactic(auto, unfolding(crate::specs::ShaderReport::position_text))]
fn put_position(out: &mut Vec<u8>, position: Option<u32>) -> Result<(), AllocError>
    ensures { OnOk result (out.new.items ≡ out.old.items ++ position_text position) }
{
    match position {
        Some(position) => {
            out.extend_from_slice(b" ")?;
            put_number(out, position)
        }
        None => Ok(()),
    }
}

fn put_positions(out: &mut Vec<u8>, positions: &[Option<u32>]) -> Result<(), AllocError>
    ensures { OnOk result (out.new.items ≡ out.old.items ++ flat_map position_text positions.now) }
{
    for position in positions {
        put_position(out, *position)?;
    }
    Ok(())
}

#[tactic(auto, unfolding(crate::specs::ShaderReport::sample_line))]
fn put_sample(out: &mut Vec<u8>, sample: &Sample) -> Result<(), AllocError>
    ensures { OnOk result (out.new.items ≡ out.old.items ++ sample_line sample.now) }
{
    let name = if sample.direct { "direct" } else { "texture" };
    out.extend_from_slice(name.as_bytes())?;
    put_positions(out, &sample.p)?;
    out.extend_from_slice(b"\n")
}

fn put_samples(out: &mut Vec<u8>, samples: &[Sample]) -> Result<(), AllocError>
    ensures { OnOk result (out.new.items ≡ out.old.items ++ flat_map sample_line samples.now) }
{
    for sample in samples {
        put_sample(out, sample)?;
    }
    Ok(())
}

#[tactic(auto, unfolding(crate::specs::ShaderReport::address_line))]
fn put_address(out: &mut Vec<u8>, position: u32) -> Result<(), AllocError>
    ensures { OnOk result (out.new.items ≡ out.old.items ++ address_line position) }
{
    out.extend_from_slice(b"address ")?;
    put_number(out, position)?;
    out.extend_from_slice(b"\n")
}

fn put_addresses(out: &mut Vec<u8>, positions: &[u32]) -> Result<(), AllocError>
    ensures { OnOk result (out.new.items ≡ out.old.items ++ flat_map address_line positions.now) }
{
    for position in positions {
        put_address(out, *position)?;
    }
    Ok(())
}

fn thread_count(threaded: bool) -> u32
    ensures { result ≡ thread_count threaded }
{
    if threaded { 2 } else { 1 }
}

#[tactic(auto, unfolding(crate::specs::ShaderReport::head_text))]
fn head_text(alloc: Global, uniforms: u32, threads: u32) -> Result<Vec<u8>, AllocError>
    ensures { IfOk result (λ text. text.items ≡ head_text uniforms threads) }
{
    Ok(format!(in alloc; "accepted\nuniforms {uniforms}\nthreads {threads}\n")?.into_bytes())
}

// What is printed of an accepted shader.
#[tactic(auto, unfolding(crate::specs::ShaderReport::shader_text))]
fn shader_text(alloc: Global, info: &ShaderInfo) -> Result<Vec<u8>, AllocError>
    ensures { IfOk result (λ text. text.items ≡ shader_text (shader_view info.now)) }
{
    let mut text = head_text(alloc, info.uniforms, thread_count(info.threaded))?;
    put_samples(&mut text, &info.samples)?;
    put_addresses(&mut text, &info.address_words)?;
    Ok(text)
}

// The answer to a shader that no rule refuses: what it takes and reads, with its notes.
fn accepted(alloc: Global, code: &[u64], flow: &Flow, info: &ShaderInfo) -> Result<Answer, NoMemory>
    requires flow { IsFlow code.now flow.now }
    requires report { shader_view info.now ≡ report_of code.now }
    ensures answers { IfOk result (λ a. IsFine code.now a.status a.text.items) }
    ensures status { IfOk result (λ a. a.status < 2) }
    ensures cause { IfOk result (λ a. a.cause ≡ notes_cause code.now) }
{
    let notes = notes(code, flow);
    let cause = if notes.has_note() {
        Some(Cause::Notes(notes))
    } else {
        None
    };
    Ok(Answer::noted(shader_text(alloc, info)?, cause))
}

// The answer where this rule is the first that is broken, at this instruction.
#[tactic(auto, unfolding(crate::specs::ShaderReport::shader_refusal))]
fn refused(alloc: Global, name: RuleName, index: u32) -> Result<Answer, NoMemory>
    ensures { IfOk result (IsRefusal (shader_refusal name index) (Some (Broken name index))) }
{
    let text = format!(in alloc; "refused {name} at instruction {index}\n")?.into_bytes();
    Ok(Answer::refused(text, Some(Cause::Shader(name, index))))
}

// The answer to a shader of so many words, which are too many.
#[tactic(auto, unfolding(crate::specs::ShaderReport::long_text))]
fn long_refused(alloc: Global, count: u64) -> Result<Answer, NoMemory>
    ensures { IfOk result (IsRefusal (long_text count) (Some (Long count))) }
{
    let text = format!(in alloc; "instructions {count}\n")?.into_bytes();
    Ok(Answer::refused(text, Some(Cause::Long(count))))
}

// What is answered to a shader that breaks no rule but maybe a strict one, where those are asked.
#[tactic(auto, using(field_words::proofs::Questions::first_is))]
fn report(alloc: Global, strict: bool, code: &[u64], info: &ShaderInfo) -> Result<Answer, NoMemory>
    requires few { length code.now ≤ most_words }
    requires report { shader_view info.now ≡ report_of code.now }
    ensures answers { IfOk result (λ a. IsReported strict code.now a.status a.text.items) }
    ensures status { IfOk result (λ a. a.status < 2) }
    ensures cause { IfOk result (λ a. a.cause ≡ report_cause strict code.now) }
{
    let flow = flow(alloc, code)?;
    if !strict {
        return accepted(alloc, code, &flow, info);
    }
    match check_strict(code, &flow) {
        Ok(()) => accepted(alloc, code, &flow, info),
        Err(fault) => refused(alloc, strict_rule(&fault), fault.at),
    }
}

// The words of a shader's bytes.
fn code_in(alloc: Global, bytes: &[u8]) -> Result<Vec<u64>, NoMemory>
    requires { length bytes.now ≤ most_code }
    ensures words { IfOk result (λ code. code.items ≡ words_of bytes.now) }
    ensures few { IfOk result (λ code. length code.items ≤ most_words) }
{
    Ok(words_of(alloc, bytes)?)
}

/// What `shader` answers to bytes: what the shader of the words that they spell takes and reads, or the first broken rule of it, the
/// strict ones last.
#[tactic(auto, using(field_words::proofs::Questions::first_is))]
pub fn shader_answer(alloc: Global, strict: bool, bytes: &[u8]) -> Result<Answer, NoMemory>
    requires { length bytes.now ≤ most_code }
    ensures { IfOk result (IsAnswerTo (Shader strict) bytes.now) }
{
    match shader_in(alloc, bytes) {
        Ok(info) => {
            let code = code_in(alloc, bytes)?;
            report(alloc, strict, &code, &info)
        }
        Err(Stop::Fault(fault)) => refused(alloc, shader_rule(&fault), fault.index),
        Err(Stop::NoMemory) => Err(NoMemory),
    }
}

// The checker's answer, as it is reported of a shader in a job.
#[tactic(auto, unfolding(job_check::specs::Shaders::report_of))]
fn checked(alloc: Global, code: &[u64]) -> Result<ShaderInfo, Stop<ShaderFault>>
    requires { length code.now ≤ most_words }
    ensures { Answers (shader_questions code.now)
        (λ info. shader_view info ≡ report_of code.now) result }
{
    check_code(alloc, code)
}

// What is answered to a shader of these words.
#[tactic(auto, using(field_words::proofs::Questions::first_is))]
fn words_answer(alloc: Global, strict: bool, code: &[u64]) -> Result<Answer, NoMemory>
    ensures answers { IfOk result (λ a. IsWordsAnswer strict code.now a.status a.text.items) }
    ensures status { IfOk result (λ a. a.status < 2) }
    ensures cause { IfOk result (λ a. a.cause ≡ words_cause strict code.now) }
{
    if code.len() > MOST_WORDS as usize {
        return long_refused(alloc, code.len() as u64);
    }
    match checked(alloc, code) {
        Ok(info) => report(alloc, strict, code, &info),
        Err(Stop::Fault(fault)) => refused(alloc, shader_rule(&fault), fault.index),
        Err(Stop::NoMemory) => Err(NoMemory),
    }
}

/// What `shader --asm` answers to a text: the same of the shader of its words, or the text's first fault.
pub fn shader_text_answer(alloc: Global, strict: bool, text: &[u8]) -> Result<Answer, NoMemory>
    requires { length text.now ≤ most_list }
    ensures { IfOk result (IsAnswerTo (ShaderText strict) text.now) }
{
    match assemble(alloc, text) {
        Ok(words) => words_answer(alloc, strict, &words),
        Err(Stop::Fault(fault)) => text_refused(alloc, text, fault),
        Err(Stop::NoMemory) => Err(NoMemory),
    }
}
