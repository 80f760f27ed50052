//! What is reported of runs.
ghost use Rattle.std.specs.Prelude.{◌≡◌, ◌⊎◌, ◌≤◌, ◌<◌, ◌^◌, ◌+◌, IfOk, IsOk};
ghost use Rattle.field_words.specs.Questions.{Answers};
ghost use Rattle.job_check.specs.Whole.{all_questions};
ghost use Rattle.job_format.specs.File.{IsFileOf};
ghost use Rattle.job_format.specs.Parts.{parts_view};
ghost use Rattle.job_format.specs.Reading.{file_at};
ghost use Rattle.job_safety.specs.Accepted.{IsAccepted};
ghost use Rattle.seeded_runs.specs.declared.report.Look.TheVariants.{Steps, Accesses, Picture, Seeds};
ghost use Rattle.seeded_runs.specs.Report.{seed_text, IsStepText, IsAccessText, IsPictureText, IsSeedLine, IsLookText, IsReported, IsTrialWithin};

use crate::seeded::{log_of, run_of};
use dumper::{ending_text, trace_text};
use field_words::{NoMemory, Stop};
use job_format::{FileParts, Refusal, read_parts};
use job_safety::{Accepted, accept};
use machine::Machine;
use pictures::run_picture;
use relocation::Layout;
use replay::{Trace, UnitKind};
use run_text::log_text;
use std::alloc::{AllocError, Global};

/// What is reported of a run, or of many.
#[derive(Clone, Copy, Debug, PartialEq, Eq)]
pub enum Look {
    /// A line for each step.
    Steps,
    /// A line for each access.
    Accesses,
    /// A picture of the memory, with all accesses.
    Picture,
    /// How the run ended, of each of so many seeds.
    Seeds(u32),
}

/// Runs of at most so many steps by the scripts of seeds, from one on. Where a kind of unit is favoured, a unit of it steps whenever one
/// may.
#[derive(Clone, Copy, Debug, PartialEq, Eq)]
pub struct Trial {
    pub look: Look,
    pub favoured: Option<UnitKind>,
    pub steps: u32,
    pub seed: u64,
}

// The text of a run's steps.
fn step_text(
    alloc: Global,
    version: u32,
    machine: Machine,
    trial: Trial,
) -> Result<Vec<u8>, NoMemory>
    requires few { trial.steps ≤ 1000000 }
    requires a_version { 1 ≤ version }
    requires known { version ≤ 2 }
    ensures { IfOk result (λ text. IsStepText version machine trial.favoured trial.steps trial.seed
        text.items) }
{
    let trace = run_of(alloc, machine, trial.favoured, trial.steps, trial.seed)?;
    let text = trace_text(alloc, version, &trace)?;
    Ok(text)
}

// The text of a run's accesses.
fn access_text(
    alloc: Global,
    file: &FileParts,
    layouts: &[Layout],
    machine: Machine,
    trial: Trial,
) -> Result<Vec<u8>, NoMemory>
    requires { trial.steps ≤ 1000000 }
    ensures { IfOk result (λ text. IsAccessText (parts_view file.now) layouts.now machine
        trial.favoured trial.steps trial.seed text.items) }
{
    let log = log_of(alloc, machine, trial.favoured, trial.steps, trial.seed)?;
    let text = log_text(alloc, file, layouts, &log)?;
    Ok(text)
}

// The picture of a run's accesses.
fn picture_text(
    alloc: Global,
    file: &FileParts,
    layouts: &[Layout],
    machine: Machine,
    trial: Trial,
) -> Result<Vec<u8>, NoMemory>
    requires { trial.steps ≤ 1000000 }
    ensures { IfOk result (λ text. IsPictureText (parts_view file.now) layouts.now machine
        trial.favoured trial.steps trial.seed text.items) }
{
    let log = log_of(alloc, machine, trial.favoured, trial.steps, trial.seed)?;
    let text = run_picture(alloc, file, layouts, &log)?;
    Ok(text)
}

#[tactic(auto, unfolding(crate::specs::Report::seed_text))]
fn seed_text(alloc: Global, seed: u64, trace: &Trace) -> Result<Vec<u8>, AllocError>
    ensures { IfOk result (λ text. text.items ≡ seed_text seed trace.now) }
{
    let ending = ending_text(alloc, trace.ending, trace.lines.len())?;
    Ok(format!(in alloc; "seed {seed} {ending}")?.into_bytes())
}

// The line that says how the run of a seed ended.
fn seed_line(alloc: Global, machine: Machine, trial: Trial, seed: u64) -> Result<Vec<u8>, NoMemory>
    requires { trial.steps ≤ 1000000 }
    ensures { IfOk result (λ line. IsSeedLine machine trial.favoured trial.steps seed line.items) }
{
    let trace = run_of(alloc, machine, trial.favoured, trial.steps, seed)?;
    Ok(seed_text(alloc, seed, &trace)?)
}

// A line for each of so many seeds. The file is accepted anew for each, since a run uses its machine up.
#[tactic(auto, using(crate::proofs::Moving::line_moved, crate::proofs::Moving::lines_more))]
fn seeds_text(
    alloc: Global,
    bytes: &[u8],
    trial: Trial,
    count: u32,
) -> Result<Vec<u8>, Stop<Refusal>>
    requires few { trial.steps ≤ 1000000 }
    requires some { 1 ≤ count }
    requires within { trial.seed + count < 2 ^ 64 }
    ensures answers { Answers (all_questions bytes.now)
        (λ out. IsLookText (file_at bytes.now) (Seeds count) trial.favoured trial.steps
        trial.seed out.items) result }
    ensures spelled { IsOk result → IsFileOf bytes.now (file_at bytes.now) }
{
    let mut text = Vec::new(alloc);
    for n in 0..count {
        let machine = accept(alloc, bytes)?.into_machine();
        let line = seed_line(alloc, machine, trial, trial.seed + u64::from(n))?;
        text.extend_from_slice(&line)?;
    }
    Ok(text)
}

// The text of the steps of a run of the file's machine.
#[tactic(auto, using(crate::proofs::Moving::step_moved))]
fn steps_report(alloc: Global, bytes: &[u8], trial: Trial) -> Result<Vec<u8>, Stop<Refusal>>
    requires { trial.steps ≤ 1000000 }
    ensures answers { Answers (all_questions bytes.now)
        (λ out. IsLookText (file_at bytes.now) Steps trial.favoured trial.steps
        trial.seed out.items) result }
    ensures spelled { IsOk result → IsFileOf bytes.now (file_at bytes.now) }
{
    let accepted = accept(alloc, bytes)?;
    let version = accepted.version;
    let machine = accepted.into_machine();
    Ok(step_text(alloc, version, machine, trial)?)
}

// What is reported of all accesses of a run of an accepted file's machine: a line for each, or a picture.
#[tactic(auto, using(crate::proofs::Moving::access_moved, crate::proofs::Moving::picture_moved))]
fn accesses_of(
    alloc: Global,
    bytes: &[u8],
    accepted: Accepted,
    trial: Trial,
) -> Result<Vec<u8>, NoMemory>
    requires few { trial.steps ≤ 1000000 }
    requires accepted { IsAccepted (file_at bytes.now) accepted }
    requires look { (trial.look ≡ Accesses) ⊎ (trial.look ≡ Picture) }
    ensures { IfOk result (λ text. IsLookText (file_at bytes.now) trial.look trial.favoured
        trial.steps trial.seed text.items) }
{
    // No rule of the format is broken by an accepted file.
    let Ok(file) = read_parts(alloc, bytes) else {
        return Err(NoMemory);
    };
    let Accepted {
        version: _,
        layouts,
        lengths: _,
        machine,
    } = accepted;
    match trial.look {
        Look::Picture => picture_text(alloc, &file, &layouts, machine, trial),
        _ => access_text(alloc, &file, &layouts, machine, trial),
    }
}

// The report of all accesses of the file's machine.
fn accesses_report(alloc: Global, bytes: &[u8], trial: Trial) -> Result<Vec<u8>, Stop<Refusal>>
    requires few { trial.steps ≤ 1000000 }
    requires look { (trial.look ≡ Accesses) ⊎ (trial.look ≡ Picture) }
    ensures answers { Answers (all_questions bytes.now)
        (λ out. IsLookText (file_at bytes.now) trial.look trial.favoured trial.steps
        trial.seed out.items) result }
    ensures spelled { IsOk result → IsFileOf bytes.now (file_at bytes.now) }
{
    let accepted = accept(alloc, bytes)?;
    Ok(accesses_of(alloc, bytes, accepted, trial)?)
}

/// What is reported of runs of these bytes, a job file, by the script of a seed or of many. `Ok` comes exactly where no rule is broken by them.
///
/// # Errors
/// The first broken rule, by its letter, its number and its place in the bytes; or want of memory.
pub fn report_text(alloc: Global, trial: Trial, bytes: &[u8]) -> Result<Vec<u8>, Stop<Refusal>>
    requires { IsTrialWithin trial }
    ensures answers { Answers (all_questions bytes.now)
        (λ text. IsReported (file_at bytes.now) trial text.items) result }
    ensures spelled { IsOk result → IsFileOf bytes.now (file_at bytes.now) }
{
    match trial.look {
        Look::Steps => steps_report(alloc, bytes, trial),
        Look::Accesses | Look::Picture => accesses_report(alloc, bytes, trial),
        Look::Seeds(count) => seeds_text(alloc, bytes, trial, count),
    }
}
