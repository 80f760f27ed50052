//! The picture of a run.
ghost use Rattle.std.specs.Prelude.{◌≡◌, ◌++◌, codes, OnOk, IfOk, string_bytes};
ghost use Rattle.dumper.specs.Trace.{ending_name};
ghost use Rattle.job_format.specs.Parts.{parts_view};
ghost use Rattle.pictures.specs.Forest.{forest_text};
ghost use Rattle.pictures.specs.Parts.{label};
ghost use Rattle.pictures.specs.Run.{run_numbers, run_head, run_table, run_heat, run_height, downward, run_moved, run_picture};

use crate::buffers::further_rows;
use crate::counts::{box_counts, cell_counts};
use crate::grid::{box_count, box_size};
use crate::heat::{TOP, push_heat_strips};
use crate::memory::{push_memory, push_places};
use crate::parts::{begin_drawing, decimal, end_drawing, push_label};
use crate::svg::{Drawn, begin, close, end_tag, worded};
use crate::table::{Counts, push_table};
use field_words::{NoMemory, Way};
use job_format::FileParts;
use relocation::Layout;
use replay::{Ending, Log};
use std::alloc::{AllocError, Global};

/// Room for most pictures.
const PICTURE: usize = 131_072;

fn push_ending(out: &mut Vec<u8>, ending: Ending) -> Drawn
    ensures { OnOk result (out.new.items ≡ out.old.items
        ++ forest_text (label 456 538 (codes "note") (ending_name ending))) }
{
    match ending {
        Ending::Finished => push_label(out, 456, 538, "note", b"finished"),
        Ending::Waiting => push_label(out, 456, 538, "note", b"waiting"),
        Ending::Spent => push_label(out, 456, 538, "note", b"steps spent"),
    }
}

#[tactic(auto, unfolding(crate::specs::Run::run_numbers))]
fn push_numbers(alloc: Global, out: &mut Vec<u8>, log: &Log) -> Drawn
    ensures { OnOk result (out.new.items ≡ out.old.items ++ forest_text (run_numbers log.now)) }
{
    let accesses = decimal(alloc, log.accesses.len() as u64)?;
    push_label(out, 96, 538, "note", b"steps:")?;
    push_label(out, 230, 538, "end", &decimal(alloc, u64::from(log.steps))?)?;
    push_label(out, 260, 538, "note", b"accesses:")?;
    push_label(out, 424, 538, "end", &accesses)
}

#[tactic(auto, unfolding(crate::specs::Run::run_head))]
fn push_head(alloc: Global, out: &mut Vec<u8>, log: &Log) -> Drawn
    ensures { OnOk result (out.new.items ≡ out.old.items ++ forest_text (run_head log.now)) }
{
    push_label(out, 96, 514, "head", b"Accesses of a run")?;
    push_numbers(alloc, out, log)?;
    push_ending(out, log.ending)
}

// The table over the whole run.
#[tactic(auto, unfolding(crate::specs::Run::run_table))]
fn push_run_table(
    alloc: Global,
    out: &mut Vec<u8>,
    file: &FileParts,
    layouts: &[Layout],
    log: &Log,
) -> Drawn
    ensures { OnOk result (out.new.items ≡ out.old.items
        ++ forest_text (run_table (parts_view file.now) layouts.now log.now)) }
{
    let accesses = &log.accesses;
    let reads = cell_counts(alloc, file, layouts, Way::Read, accesses)?;
    let writes = cell_counts(alloc, file, layouts, Way::Write, accesses)?;
    push_table(alloc, out, &Counts { reads, writes })
}

// The heat over the whole run.
#[tactic(auto, unfolding(crate::specs::Run::run_heat))]
fn push_run_heat(alloc: Global, out: &mut Vec<u8>, memory: u32, log: &Log) -> Drawn
    ensures { OnOk result (out.new.items ≡ out.old.items ++ forest_text (run_heat memory log.now)) }
{
    let size = box_size(memory);
    let count = box_count(memory);
    let reads = box_counts(alloc, Way::Read, size, count, &log.accesses)?;
    let writes = box_counts(alloc, Way::Write, size, count, &log.accesses)?;
    push_places(alloc, out, TOP, memory)?;
    push_heat_strips(alloc, out, &reads, &writes)
}

#[tactic(auto, unfolding(crate::specs::Run::run_height))]
fn run_height(file: &FileParts) -> u64
    ensures { result ≡ run_height (parts_view file.now) }
{
    let strips = 12 * ((box_count(file.mem_size) + 15) / 16);
    TOP + 20 + strips.max(140) + further_rows(&file.buffers)
}

// The move down by so many rows.
#[tactic(auto, unfolding(crate::specs::Run::downward))]
fn downward(alloc: Global, rows: u64) -> Result<String, AllocError>
    ensures { IfOk result (λ words. string_bytes words ≡ downward rows) }
{
    format!(in alloc; "translate(0 {rows})")
}

// All that is said of the run, moved below the further lines of the table of buffers.
#[tactic(auto, unfolding(crate::specs::Run::run_moved))]
fn push_moved(
    alloc: Global,
    out: &mut Vec<u8>,
    file: &FileParts,
    layouts: &[Layout],
    log: &Log,
) -> Drawn
    ensures { OnOk result (out.new.items ≡ out.old.items
        ++ forest_text (run_moved (parts_view file.now) layouts.now log.now)) }
{
    let down = downward(alloc, further_rows(&file.buffers))?;
    begin(out, "g")?;
    worded(out, "transform", down.as_str())?;
    end_tag(out)?;
    push_head(alloc, out, log)?;
    push_run_table(alloc, out, file, layouts, log)?;
    push_run_heat(alloc, out, file.mem_size, log)?;
    close(out, "g")
}

/// The picture of a file's memory, whose jobs' lists lie as these layouts say, and of a run over it,
/// as SVG: the text of one element. All numbers are the memory's, or say how many of the run's
/// accesses are such.
#[tactic(auto, unfolding(crate::specs::Run::run_picture))]
pub fn run_picture(
    alloc: Global,
    file: &FileParts,
    layouts: &[Layout],
    log: &Log,
) -> Result<Vec<u8>, NoMemory>
    ensures { IfOk result (λ text. text.items
        ≡ forest_text (run_picture (parts_view file.now) layouts.now log.now)) }
{
    let mut out = Vec::with_capacity(alloc, PICTURE)?;
    let title = "Accesses of a run in the memory of the jobs";
    begin_drawing(alloc, &mut out, run_height(file), title)?;
    push_memory(alloc, &mut out, file)?;
    push_moved(alloc, &mut out, file, layouts, log)?;
    end_drawing(&mut out)?;
    Ok(out)
}
