//! A job file, from its bytes to its machine.
ghost use Rattle.std.specs.Prelude.{◌≡◌, ◌≤◌, length, IfOk, IsOk};
ghost use Rattle.std.specs.List.{AllByRecursion};
ghost use Rattle.field_words.specs.Questions.{Answers};
ghost use Rattle.field_words.specs.Sizes.{most_memory};
ghost use Rattle.job_format.specs.Reading.{file_at};
ghost use Rattle.job_format.specs.File.{IsFileOf};
ghost use Rattle.job_check.specs.Emit.{memory_of, IsInside, IsPlaced};
ghost use Rattle.job_check.specs.Whole.{all_questions};
ghost use Rattle.promises.specs.{Bounded.FileEnds, Holdings.start_by, Holdings.file_rights, Holdings.file_starts, Apart.IsApart};
ghost use Rattle.driver_law.specs.Driver.{FileMayJoin};
ghost use Rattle.strict_check.specs.Whole.{strict_questions};
ghost use Rattle.job_safety.specs.Accepted.{starts_by, IsSetUp, IsAccepted};
ghost use Rattle.job_safety.specs.Safe.{AreSafe, AreSame};

use field_words::{NoMemory, Stop, get_u32};
use job_check::{Checked, check_bytes};
use job_format::Refusal;
use machine::{Machine, Start};
use relocation::{Layout, Lengths};
use std::alloc::Global;
use strict_check::check_strict_bytes;

/// An accepted file: its version, job by job where its lists lie in the machine's memory and how long they are, and the machine in its
/// start state.
#[derive(Drop)]
pub struct Accepted {
    pub version: u32,
    pub layouts: Vec<Layout>,
    pub lengths: Vec<Lengths>,
    pub machine: Machine,
}

impl Accepted {
    /// The machine. It takes no memory.
    pub fn into_machine(self) -> Machine
        ensures { result ≡ self.machine }
    {
        self.machine
    }
}

/// The version of a file whose header is there.
#[tactic(auto, unfolding(job_format::specs::Reading::file_at))]
pub fn version_of(bytes: &[u8]) -> u32
    requires { 8 ≤ length bytes.now }
    ensures { result ≡ (file_at bytes.now).version }
{
    get_u32(bytes, 4).unwrap_or(0)
}

// Where a job's lists stand.
#[tactic(auto, unfolding(promises::specs::Holdings::start_by))]
fn start_by(layout: &Layout, lengths: &Lengths) -> Start
    requires inside { IsInside most_memory layout.now }
    ensures { result ≡ start_by layout.now lengths.now }
{
    Start {
        bin_place: layout.place + layout.bin,
        bin_len: lengths.bin,
        render_place: layout.place + layout.render,
        render_len: lengths.render,
    }
}

// Where the lists of each job stand.
fn starts_by(alloc: Global, layouts: &[Layout], lengths: &[Lengths]) -> Result<Vec<Start>, NoMemory>
    requires as_many { length lengths.now ≡ length layouts.now }
    requires inside { AllByRecursion (IsInside most_memory) layouts.now }
    ensures { IfOk result (λ starts. starts.items ≡ starts_by layouts.now lengths.now) }
{
    let mut starts = Vec::new(alloc);
    for (i, layout) in layouts.iter().enumerate() {
        starts.push(start_by(layout, &lengths[i]))?;
    }
    Ok(starts)
}

// What was checked, with its machine at the beginnings of the lists of its jobs.
fn set_up(alloc: Global, version: u32, checked: Checked) -> Result<Accepted, NoMemory>
    requires placed { IsPlaced checked.memory checked.layouts.items }
    requires as_many { length checked.lengths.items ≡ length checked.layouts.items }
    requires some { 1 ≤ length checked.layouts.items }
    requires few { length checked.layouts.items ≤ 8 }
    ensures { IfOk result (IsSetUp version checked) }
{
    let starts = starts_by(alloc, &checked.layouts, &checked.lengths)?;
    let machine = Machine::new(alloc, checked.memory, &starts)?;
    Ok(Accepted {
        version,
        layouts: checked.layouts,
        lengths: checked.lengths,
        machine,
    })
}

/// Reads and checks a job file of 1 to 8 jobs, and sets its machine up: at the beginnings of the lists of its jobs, over the memory that
/// they are to run in. From there every run of that machine is safe, each access in what the job may reach for which it is done, and
/// bytes outside what jobs may reach have no effect. To each client the file is the same as every other that is accepted and has the same
/// jobs of that client in the same places: they access the same, and leave the same, in runs in which they take the same steps. Where no
/// shader branches back, a run has at most as many steps as the file says, but for those in which a renderer stays at an item. And each of
/// its jobs may also join jobs that are live, wherever the memory is prepared for the file and it and they leave each other's lists and code
/// alone.
///
/// # Errors
/// The first broken rule for the bytes, by its letter, its number and its place in them; or want of memory.
pub fn accept(alloc: Global, bytes: &[u8]) -> Result<Accepted, Stop<Refusal>>
    ensures answers { Answers (all_questions bytes.now) (IsAccepted (file_at bytes.now)) result }
    ensures spelled { IsOk result → IsFileOf bytes.now (file_at bytes.now) }
    ensures safe { IsOk result
        → AreSafe (file_rights (file_at bytes.now)) (memory_of (file_at bytes.now)) (file_starts (file_at bytes.now)) }
    ensures same { IsOk result
        → AreSame (file_rights (file_at bytes.now)) (memory_of (file_at bytes.now)) (file_starts (file_at bytes.now)) }
    ensures apart { IsOk result → IsApart (file_at bytes.now) }
    ensures ends { IsOk result → FileEnds (file_at bytes.now) }
    ensures joins { IsOk result → FileMayJoin (file_at bytes.now) }
{
    match check_bytes(alloc, bytes) {
        Ok(checked) => match set_up(alloc, version_of(bytes), checked) {
            Ok(accepted) => Ok(accepted),
            Err(NoMemory) => Err(Stop::NoMemory),
        },
        Err(stop) => Err(stop),
    }
}

/// `accept` of a file that breaks no strict rule either: the strict rules are asked last.
///
/// # Errors
/// The first rule that is broken, by its letter, its number and its place in the bytes; or want of memory.
#[tactic(auto, unfolding(strict_check::specs::Whole::strict_questions))]
pub fn accept_strict(alloc: Global, bytes: &[u8]) -> Result<Accepted, Stop<Refusal>>
    ensures answers { Answers (strict_questions bytes.now) (IsAccepted (file_at bytes.now)) result }
    ensures spelled { IsOk result → IsFileOf bytes.now (file_at bytes.now) }
    ensures safe { IsOk result
        → AreSafe (file_rights (file_at bytes.now)) (memory_of (file_at bytes.now)) (file_starts (file_at bytes.now)) }
    ensures same { IsOk result
        → AreSame (file_rights (file_at bytes.now)) (memory_of (file_at bytes.now)) (file_starts (file_at bytes.now)) }
    ensures apart { IsOk result → IsApart (file_at bytes.now) }
    ensures ends { IsOk result → FileEnds (file_at bytes.now) }
    ensures joins { IsOk result → FileMayJoin (file_at bytes.now) }
{
    let accepted = accept(alloc, bytes)?;
    check_strict_bytes(alloc, bytes)?;
    Ok(accepted)
}
