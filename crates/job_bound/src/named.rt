//! The shaders that the handles of jobs name.
ghost use Rattle.std.specs.Prelude.{◌≡◌, ◌<◌, ◌≤◌, length, slice_index};
ghost use Rattle.field_words.specs.Questions.{first_of};
ghost use Rattle.job_format.specs.Parts.{parts_view};
ghost use Rattle.promises.specs.{Prepared.IsFaultless, Bounded.shader_named, Bounded.job_longest, Bounded.longest_of};
ghost use Rattle.job_check.specs.{Jobs.job_of, Offsets.content_offset};
ghost use Rattle.job_bound.specs.Back.{handle_places, job_places, first_place};
ghost use Rattle.job_bound.specs.Bound.{IsProgramOf, AreProgramsOf, most_program};

use crate::programs::Program;
use job_check::job_at;
use job_format::FileParts;

/// What is sought in the shaders that handles name: a branch that leads back, or an instruction that may wait for a request that isn't there.
#[derive(Clone, Copy, Debug, PartialEq, Eq)]
pub enum Sought {
    LeadsBack,
    MayWait,
}

/// The shader that handle `i` of the job of this number names.
fn program_named(file: &FileParts, number: usize, i: usize, programs: &[Program]) -> Program
    requires faultless { IsFaultless (parts_view file.now) }
    requires programs { AreProgramsOf (parts_view file.now) programs.now }
    requires inside { number < length file.now.jobs.items }
    requires handle { i < length (job_of (parts_view file.now) number).handles }
    ensures { IsProgramOf (shader_named (parts_view file.now) number i)
        (content_offset (parts_view file.now) (slice_index (job_of (parts_view file.now) number).handles i)) result }
{
    programs[job_at(file, number).handles.as_slice()[i] as usize]
}

/// The most steps that a program takes of a shader that a handle of the job of this number names.
fn job_longest(file: &FileParts, number: usize, programs: &[Program]) -> u32
    requires faultless { IsFaultless (parts_view file.now) }
    requires programs { AreProgramsOf (parts_view file.now) programs.now }
    requires inside { number < length file.now.jobs.items }
    ensures value { result ≡ job_longest (parts_view file.now) number }
    ensures few { result ≤ most_program }
{
    let mut longest = 0;
    for i in 0..job_at(file, number).handles.as_slice().len() {
        longest = longest.max(program_named(file, number, i, programs).steps);
    }
    longest
}

/// The most steps that a program takes of a shader that a handle names.
pub fn longest(file: &FileParts, programs: &[Program]) -> u32
    requires faultless { IsFaultless (parts_view file.now) }
    requires programs { AreProgramsOf (parts_view file.now) programs.now }
    ensures value { result ≡ longest_of (parts_view file.now) }
    ensures few { result ≤ most_program }
{
    let mut longest = 0;
    for number in 0..file.jobs.len() {
        longest = longest.max(job_longest(file, number, programs));
    }
    longest
}

/// Where in the file the first place stands that is sought in the shader that handle `i` of the job of this number names.
#[tactic(auto, unfolding(crate::specs::Back::handle_places))]
fn place_named(
    file: &FileParts,
    number: usize,
    i: usize,
    programs: &[Program],
    sought: Sought,
) -> Option<u64>
    requires faultless { IsFaultless (parts_view file.now) }
    requires programs { AreProgramsOf (parts_view file.now) programs.now }
    requires inside { number < length file.now.jobs.items }
    requires handle { i < length (job_of (parts_view file.now) number).handles }
    ensures { result ≡ first_of (handle_places sought (parts_view file.now) number i) }
{
    let program = program_named(file, number, i, programs);
    match sought {
        Sought::LeadsBack => program.back,
        Sought::MayWait => program.wait,
    }
}

/// Where in the file it first stands, of the shaders that the handles of the job of this number name.
fn job_place(file: &FileParts, number: usize, programs: &[Program], sought: Sought) -> Option<u64>
    requires faultless { IsFaultless (parts_view file.now) }
    requires programs { AreProgramsOf (parts_view file.now) programs.now }
    requires inside { number < length file.now.jobs.items }
    ensures { result ≡ first_of (job_places sought (parts_view file.now) number) }
{
    for i in 0..job_at(file, number).handles.as_slice().len() {
        if let Some(offset) = place_named(file, number, i, programs, sought) {
            return Some(offset);
        }
    }
    None
}

/// Where in the file it first stands, by job and by handle.
pub fn first_place(file: &FileParts, programs: &[Program], sought: Sought) -> Option<u64>
    requires faultless { IsFaultless (parts_view file.now) }
    requires programs { AreProgramsOf (parts_view file.now) programs.now }
    ensures { result ≡ first_place sought (parts_view file.now) }
{
    for number in 0..file.jobs.len() {
        if let Some(offset) = job_place(file, number, programs, sought) {
            return Some(offset);
        }
    }
    None
}
