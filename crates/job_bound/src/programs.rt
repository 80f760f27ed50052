//! The shaders of a file, each looked at once.
ghost use Rattle.std.specs.Prelude.{◌≡◌, ◌<◌, ◌≤◌, ◌^◌, length, IfOk, Some};
ghost use Rattle.field_words.specs.Sizes.{most_code};
ghost use Rattle.shader_flow.specs.Flow.{EndsAt};
ghost use Rattle.job_format.specs.File.{IsWellFormed};
ghost use Rattle.job_format.specs.Parts.{parts_view};
ghost use Rattle.job_check.specs.Shaders.{words_of};
ghost use Rattle.promises.specs.Steps.{instruction_steps, program_steps};
ghost use Rattle.job_bound.specs.Bound.{code_in, most_program, IsProgramOf, AreProgramsOf};

use crate::back::first_back;
use crate::wait::find_wait;
use buffer_table::Kind;
use field_words::NoMemory;
use job_check::{content_at, content_offset, words_of};
use job_format::FileParts;
use qpu_isa::writes::writes_s;
use shader_flow::{checked, flow};
use std::alloc::Global;

/// What is kept of the shader in a buffer: the most steps of a program of it, where it doesn't loop, and where in the file its first
/// branch stands that leads back, and the first instruction that may wait for a request that isn't there. A data buffer has no steps
/// and neither place.
#[derive(Clone, Copy, Debug, PartialEq, Eq)]
pub struct Program {
    pub steps: u32,
    pub back: Option<u64>,
    pub wait: Option<u64>,
}

/// The steps of an instruction: its own, and that of the texture unit which serves what it asks for.
#[tactic(auto, unfolding(promises::specs::Steps::instruction_steps))]
fn instruction_steps(word: u64) -> u32
    ensures value { result ≡ instruction_steps word }
    ensures few { result ≤ 2 }
{
    if writes_s(word, 0) || writes_s(word, 1) {
        2
    } else {
        1
    }
}

/// The steps of a program of a shader without loops, whose program end is the instruction `end`.
#[tactic(auto, unfolding(promises::specs::Steps::program_steps))]
fn program_steps(code: &[u64], end: u32) -> u32
    requires { EndsAt code.now end }
    ensures value { result ≡ program_steps code.now }
    ensures few { result ≤ most_program }
{
    let mut steps = 0;
    for at in 0..checked(code, end) {
        steps += instruction_steps(code[at]);
    }
    steps
}

/// The shader that these bytes hold, which stand at `place` in the file.
fn program_in(alloc: Global, bytes: &[u8], place: u64) -> Result<Program, NoMemory>
    requires few { length bytes.now ≤ most_code }
    requires low { place < 2 ^ 62 }
    ensures { IfOk result (IsProgramOf (Some (words_of bytes.now)) place) }
{
    let code = words_of(alloc, bytes)?;
    let flow = flow(alloc, &code)?;
    Ok(Program {
        steps: program_steps(&code, flow.end),
        back: first_back(&code, flow.end, place),
        wait: find_wait(&code, &flow, place),
    })
}

/// The shader in buffer `b`, whose contents stand at `place` in the file.
#[tactic(auto, unfolding(crate::specs::Bound::code_in, buffer_table::specs::Table::buffer_at))]
fn program_at(alloc: Global, file: &FileParts, b: usize, place: u64) -> Result<Program, NoMemory>
    requires well_formed { IsWellFormed (parts_view file.now) }
    requires inside { b < length file.now.buffers.items }
    requires low { place < 2 ^ 62 }
    ensures { IfOk result (IsProgramOf (code_in (parts_view file.now) b) place) }
{
    match file.buffers[b].kind {
        Kind::Plain => Ok(Program {
            steps: 0,
            back: None,
            wait: None,
        }),
        Kind::Code => program_in(alloc, content_at(file, b), place),
    }
}

/// The shaders of all buffers, of which one may be named by many handles.
pub fn programs_of(alloc: Global, file: &FileParts) -> Result<Vec<Program>, NoMemory>
    requires { IsWellFormed (parts_view file.now) }
    ensures { IfOk result (λ programs. AreProgramsOf (parts_view file.now) programs.items) }
{
    let mut programs = Vec::new(alloc);
    for b in 0..file.buffers.len() {
        programs.push(program_at(alloc, file, b, content_offset(file, b))?)?;
    }
    Ok(programs)
}
