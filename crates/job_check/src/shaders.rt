//! S: the shaders of a file, by buffer.
ghost use Rattle.std.specs.Prelude.{◌≡◌, ◌<◌, ◌≤◌, ◌*◌, ◌/◌, length, IfOk, IfSome};
ghost use Rattle.field_words.specs.Words.{u64_at};
ghost use Rattle.field_words.specs.Sizes.{most_code, most_list};
ghost use Rattle.field_words.specs.Questions.{Answers, NeverHidesFault};
ghost use Rattle.buffer_table.specs.declared.buffer.Kind.TheVariants.{Code as CodeKind};
ghost use Rattle.buffer_table.specs.Table.{buffer_at};
ghost use Rattle.job_format.specs.File.{IsWellFormed};
ghost use Rattle.job_format.specs.Parts.{parts_view};
ghost use Rattle.qpu_isa.specs.Shader.{shader_view, IsSoundShader};
ghost use Rattle.shader_records.specs.Inputs.{shader_option, shaders_view};
ghost use Rattle.job_check.specs.Shaders.{words_of, code_questions, report_of, content_of, shader_of, AreShadersIn};
ghost use Rattle.job_check.specs.Faults.{shader_stage, whole_questions_in, whole_stage, shaders_stage, HidesNoShader};

use super::refusals::shader_refusal;
use buffer_table::Kind;
use byteorder::{ByteOrder, LittleEndian};
use field_words::Stop;
use job_format::{FileParts, Refusal};
use qpu_isa::ShaderInfo;
use shader_check::{S1_NO_WORDS, ShaderFault, check_code};
use std::alloc::{AllocError, Global};

/// Word k of the bytes.
#[tactic(auto, unfolding(field_words::specs::Words::u64_at))]
fn word_at(bytes: &[u8], k: usize) -> u64
    requires few { length bytes.now ≤ most_list }
    requires inside { k < length bytes.now / 8 }
    ensures { result ≡ u64_at bytes.now (8 * k) }
{
    LittleEndian::read_u64(&bytes[8 * k..])
}

/// The words of eight bytes that the bytes spell, the lowest byte first; up to seven bytes after the last are left.
#[tactic(auto, using(crate::proofs::Codes::words_none, crate::proofs::Codes::words_more))]
pub fn words_of(alloc: Global, bytes: &[u8]) -> Result<Vec<u64>, AllocError>
    requires { length bytes.now ≤ most_list }
    ensures { IfOk result (λ words. words.items ≡ words_of bytes.now) }
{
    let mut words = Vec::with_capacity(alloc, bytes.len() / 8)?;
    for k in 0..bytes.len() / 8 {
        words.push(word_at(bytes, k))?;
    }
    Ok(words)
}

/// What the shader that these bytes hold takes and reads. The fault is the first broken rule of shaders of them, of which the
/// first is that they are whole words.
#[tactic(auto, unfolding(crate::specs::Shaders::code_questions, crate::specs::Shaders::report_of))]
pub fn shader_in(alloc: Global, bytes: &[u8]) -> Result<ShaderInfo, Stop<ShaderFault>>
    requires { length bytes.now ≤ most_code }
    ensures answers { Answers (code_questions bytes.now)
        (λ info. shader_view info ≡ report_of (words_of bytes.now)) result }
    ensures memory { NeverHidesFault (whole_questions_in CodeKind bytes.now) result }
    ensures sound { IfOk result (λ info. IsSoundShader (shader_view info)) }
{
    if bytes.len() % 8 != 0 {
        return Err(Stop::Fault(ShaderFault {
            number: S1_NO_WORDS,
            index: 0,
        }));
    }
    let code = words_of(alloc, bytes)?;
    check_code(alloc, &code)
}

/// The kind of buffer `b`.
#[tactic(auto, unfolding(buffer_table::specs::Table::buffer_at))]
fn kind_at(file: &FileParts, b: usize) -> Kind
    requires { b < length file.now.buffers.items }
    ensures { result ≡ (buffer_at file.now.buffers.items b).kind }
{
    file.buffers[b].kind
}

/// The contents of buffer `b`.
pub fn content_at<'a>(file: &FileParts<'a>, b: usize) -> &'a [u8]
    requires well_formed { IsWellFormed (parts_view file.now) }
    requires inside { b < length file.now.buffers.items }
    ensures value { result.now ≡ content_of (parts_view file.now) b }
    ensures few { (buffer_at file.now.buffers.items b).kind ≡ CodeKind
        → length result.now ≤ most_code }
{
    file.contents[b]
}

/// S of buffer `b`: what its shader takes and reads, or `None` where it is a data buffer.
#[tactic(auto, unfolding(crate::specs::Faults::shader_stage, crate::specs::Faults::whole_stage, crate::specs::Shaders::shader_of), using(field_words::proofs::Questions::answered_none, field_words::proofs::Questions::answered_some))]
fn shader_at(alloc: Global, file: &FileParts, b: usize) -> Result<Option<ShaderInfo>, Stop<Refusal>>
    requires well_formed { IsWellFormed (parts_view file.now) }
    requires inside { b < length file.now.buffers.items }
    ensures answers { Answers (shader_stage (parts_view file.now) b)
        (λ shader. shader_option shader ≡ shader_of (parts_view file.now) b) result }
    ensures memory { NeverHidesFault (whole_stage (parts_view file.now) b) result }
    ensures sound { IfOk result (λ shader. IfSome (shader_option shader) IsSoundShader) }
{
    match kind_at(file, b) {
        Kind::Plain => Ok(None),
        Kind::Code => match shader_in(alloc, content_at(file, b)) {
            Ok(info) => Ok(Some(info)),
            Err(stop) => Err(stop.map_fault(|fault| shader_refusal(b, &fault))),
        },
    }
}

/// S: the shaders in all Code buffers, whether or not a job names them. There is one entry for each buffer. Want of memory hides no
/// fault of an earlier shader, nor that a shader's own bytes aren't whole words.
#[tactic(auto, unfolding(crate::specs::Faults::shaders_stage), using(field_words::proofs::Questions::each_on, field_words::proofs::Questions::each_stop, field_words::proofs::Questions::each_end, crate::proofs::Codes::shaders_none, crate::proofs::Codes::shaders_more))]
#[inline(never)]
pub fn shaders_stage(
    alloc: Global,
    file: &FileParts,
) -> Result<Vec<Option<ShaderInfo>>, Stop<Refusal>>
    requires { IsWellFormed (parts_view file.now) }
    ensures answers { Answers (shaders_stage (parts_view file.now))
        (λ shaders. AreShadersIn (parts_view file.now) (shaders_view shaders.items)) result }
    ensures memory { HidesNoShader (parts_view file.now) result }
{
    let mut shaders = Vec::new(alloc);
    for b in 0..file.buffers.len() {
        match shader_at(alloc, file, b) {
            Ok(shader) => shaders.push(shader)?,
            Err(stop) => return Err(stop),
        }
    }
    Ok(shaders)
}
