//! E8 and E11: the shader records of a job.
ghost use Rattle.std.specs.Prelude.{◌≡◌, ◌<◌, ◌^◌, length};
ghost use Rattle.field_words.specs.Questions.{GoesOn};
ghost use Rattle.job_format.specs.File.{IsWellFormed};
ghost use Rattle.job_format.specs.Parts.{parts_view};
ghost use Rattle.strict_check.specs.Findings.{all_findings};
ghost use Rattle.strict_check.specs.Stages.{record_refused, use_questions, record_questions, records_stage};

use crate::findings::Findings;
use crate::uses::uses_named;
use bin_list::split_front;
use field_words::word_at;
use job_check::{job_at, refusal};
use job_format::{FileParts, Part, Refusal, Stage};
use packets::attribute_count;
use packets::opcode::GL_SHADER_STATE;
use shader_records::{handles_size, source_size};
use strict_lists::selection_fault;

/// A strict rule that the records of job `j` break, at this place in them.
fn record_refusal(j: usize, rule: u8, at: u64) -> Refusal
    requires { j < 2 ^ 32 }
    ensures { result ≡ record_refused j rule at }
{
    refusal(Stage::E, rule, Part::Records, j, at)
}

/// E8 of the record whose source begins at this place.
#[tactic(auto, unfolding(crate::specs::Stages::use_questions))]
fn use_fault(
    file: &FileParts,
    number: usize,
    findings: &[Findings],
    at: usize,
) -> Result<(), Refusal>
    requires well_formed { IsWellFormed (parts_view file.now) }
    requires inside { number < length file.now.jobs.items }
    requires near { at < 2 ^ 31 }
    ensures { findings.now ≡ all_findings (parts_view file.now)
        → GoesOn (use_questions (parts_view file.now) number at) (λ made. Unit {0}) result }
{
    let records = job_at(file, number).records;
    if uses_named(file, number, findings, word_at(records, at)).vpm {
        return Err(record_refusal(number, 8, at as u64));
    }
    if uses_named(file, number, findings, word_at(records, at + 4)).tile {
        return Err(record_refusal(number, 8, at as u64 + 4));
    }
    if uses_named(file, number, findings, word_at(records, at + 8)).tile {
        return Err(record_refusal(number, 8, at as u64 + 8));
    }
    Ok(())
}

/// E8 and E11 of the record of a state with this word, whose source begins at this place.
#[tactic(auto, unfolding(crate::specs::Stages::record_questions), using(field_words::proofs::Questions::answered_none, field_words::proofs::Questions::answered_some))]
fn record_fault(
    file: &FileParts,
    number: usize,
    findings: &[Findings],
    at: usize,
    word: u32,
) -> Result<(), Refusal>
    requires well_formed { IsWellFormed (parts_view file.now) }
    requires inside { number < length file.now.jobs.items }
    requires near { at < 2 ^ 31 }
    ensures { findings.now ≡ all_findings (parts_view file.now)
        → GoesOn (record_questions (parts_view file.now) number at word) (λ made. Unit {0}) result }
{
    use_fault(file, number, findings, at)?;
    let from = at + handles_size(word);
    match selection_fault(job_at(file, number).records, from, attribute_count(word)) {
        Some(place) => Err(record_refusal(number, 11, from as u64 + u64::from(place))),
        None => Ok(()),
    }
}

/// E8 and E11 of the records of the job of this number, where `findings` has what was found of the shader of each buffer.
pub(crate) fn records_stage(
    file: &FileParts,
    number: usize,
    findings: &[Findings],
) -> Result<(), Refusal>
    requires well_formed { IsWellFormed (parts_view file.now) }
    requires inside { number < length file.now.jobs.items }
    ensures { findings.now ≡ all_findings (parts_view file.now)
        → GoesOn (records_stage (parts_view file.now) number) (λ made. Unit {0}) result }
{
    let mut at = 0;
    let mut rest = job_at(file, number).bin;
    while !rest.is_empty() {
        let (packet, later) = split_front(rest);
        if packet[0] == GL_SHADER_STATE {
            let word = word_at(packet, 1);
            record_fault(file, number, findings, at, word)?;
            at += source_size(word);
        }
        rest = later;
    }
    Ok(())
}
