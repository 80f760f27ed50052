//! The rules of jobs that are for hardware, the strict ones last.
ghost use Rattle.std.specs.Prelude.{◌≡◌, ◌<◌, length, IfOk, IfSome};
ghost use Rattle.field_words.specs.Questions.{Answers, GoesOn};
ghost use Rattle.job_format.specs.File.{IsWellFormed};
ghost use Rattle.job_format.specs.Parts.{parts_view};
ghost use Rattle.job_check.specs.Jobs.{layout_of, layouts_of};
ghost use Rattle.job_check.specs.Region.{IsLaid, IsRegion, AreChecked, Under};
ghost use Rattle.job_check.specs.Shaders.{table_of};
ghost use Rattle.shader_records.specs.Inputs.{shaders_view, AreShaped};
ghost use Rattle.strict_check.specs.Findings.{all_findings};
ghost use Rattle.vc4check_c.specs.Hardware.{slot_stage, slots_stage, guide_stages, hardware_stages};

use buffer_table::MOST_PLACE;
use field_words::Stop;
use job_check::{Region, check_parts, job_at, refusal};
use job_format::{FileParts, Part, Refusal, Stage};
use qpu_isa::ShaderInfo;
use relocation::Layout;
use std::alloc::Global;
use strict_check::{Findings, check_strict_findings};
use strict_lists::crosses;

/// E12 of the job of this number, whose lists lie so.
#[tactic(auto, unfolding(crate::specs::Hardware::slot_stage, job_check::specs::Jobs::layout_of, job_check::specs::Jobs::has_bin))]
fn slot_stage(file: &FileParts, number: usize, layout: &Layout) -> Result<(), Refusal>
    requires well_formed { IsWellFormed (parts_view file.now) }
    requires inside { number < length file.now.jobs.items }
    requires layout_is { layout.now ≡ layout_of (parts_view file.now) number }
    ensures { GoesOn (slot_stage (parts_view file.now) number) (λ made. Unit {0}) result }
{
    if !job_at(file, number).bin.is_empty() && crosses(u64::from(layout.slot)) {
        return Err(refusal(Stage::E, 12, Part::Header, 0, 20));
    }
    Ok(())
}

/// E12 of all jobs.
#[tactic(auto, unfolding(crate::specs::Hardware::slots_stage), using(field_words::proofs::Questions::each_on))]
fn slots_stage(file: &FileParts, layouts: &[Layout]) -> Result<(), Refusal>
    requires well_formed { IsWellFormed (parts_view file.now) }
    requires layouts_are { layouts.now ≡ layouts_of (parts_view file.now) }
    ensures { GoesOn (slots_stage (parts_view file.now)) (λ made. Unit {0}) result }
{
    for number in 0..file.jobs.len() {
        if let Err(refusal) = slot_stage(file, number, &layouts[number]) {
            return Err(refusal);
        }
    }
    Ok(())
}

/// The strict rules of a file whose lists were laid, and of whose shaders this was found.
#[tactic(auto, using(field_words::proofs::Questions::passes, field_words::proofs::Questions::stops))]
fn guide_stages(file: &FileParts, region: &Region, findings: &[Findings]) -> Result<(), Refusal>
    requires well_formed { IsWellFormed (parts_view file.now) }
    requires laid { IsLaid (parts_view file.now) region.now }
    requires many { length findings.now ≡ length file.now.buffers.items }
    ensures { findings.now ≡ all_findings (parts_view file.now)
        → GoesOn (guide_stages (parts_view file.now)) (λ made. Unit {0}) result }
{
    check_strict_findings(file, findings)?;
    slots_stage(file, &region.layouts)
}

/// Checks the parts of a file whose jobs are for hardware, as `check_parts` does, and asks the strict rules last; `findings` has what was
/// found of the shader of each buffer. Where that is wrong, as where `report` is, the answer may be.
///
/// # Errors
/// The first rule that is broken, with its place in the file; or want of memory.
#[tactic(auto, using(field_words::proofs::Questions::passes, field_words::proofs::Questions::stops))]
pub(crate) fn check_for_hardware(
    alloc: Global,
    parts: &FileParts,
    report: Option<Vec<Option<ShaderInfo>>>,
    findings: &[Findings],
) -> Result<Region, Stop<Refusal>>
    requires well_formed { IsWellFormed (parts_view parts.now) }
    requires shaped { IfSome report (λ shaders.
        AreShaped (table_of (parts_view parts.now)) (shaders_view shaders.items)) }
    requires many { length findings.now ≡ length parts.now.buffers.items }
    ensures laid { IfOk result (IsLaid (parts_view parts.now)) }
    ensures answers { findings.now ≡ all_findings (parts_view parts.now)
        → Under report (λ shaders. AreChecked (parts_view parts.now) (shaders_view shaders.items))
        (Answers (hardware_stages (parts_view parts.now))
        (IsRegion (parts_view parts.now)) result) }
{
    let region = check_parts(alloc, MOST_PLACE, parts, report)?;
    match guide_stages(parts, &region, findings) {
        Ok(()) => Ok(region),
        Err(refusal) => Err(Stop::Fault(refusal)),
    }
}
