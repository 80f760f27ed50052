//! The table of a file's buffers.
ghost use Rattle.std.specs.Prelude.{◌≡◌, ◌<◌, ◌^◌, ◌*◌, ◌++◌, length, OnOk};
ghost use Rattle.job_format.specs.Parts.{parts_view};
ghost use Rattle.pictures.specs.Forest.{forest_text};
ghost use Rattle.pictures.specs.Parts.{each};
ghost use Rattle.pictures.specs.Buffers.{buffer_row, row_part, table_head, table, further_rows};

use crate::grid::shade_of;
use crate::parts::{decimal, hex, push_box, push_label};
use crate::roles::use_words;
use crate::svg::Drawn;
use crate::title::kind_word;
use buffer_table::Buffer;
use job_format::FileParts;
use std::alloc::Global;

/// How many lines have room beside the strip.
const ROOM: usize = 12;

/// How many rows of the drawing the lines take for which there is no room beside the strip.
#[tactic(auto, unfolding(crate::specs::Buffers::further_rows))]
pub(crate) fn further_rows(buffers: &[Buffer]) -> u64
    ensures value { result ≡ further_rows (length buffers.now) }
    ensures limit { result < 2 ^ 63 }
{
    18 * buffers.len().saturating_sub(ROOM) as u64
}

#[tactic(auto, unfolding(crate::specs::Buffers::buffer_row))]
fn push_buffer(alloc: Global, out: &mut Vec<u8>, number: u64, buffer: &Buffer, uses: &str) -> Drawn
    requires { 18 * number < 2 ^ 63 }
    ensures { OnOk result (out.new.items ≡ out.old.items
        ++ forest_text (buffer_row number buffer.now uses.now)) }
{
    let y = 252 + 18 * number;
    let client = decimal(alloc, u64::from(buffer.client))?;
    let kind = kind_word(buffer.kind);
    let words = format!(in alloc; "{kind}{uses}")?;
    push_box(out, 424, y - 11, shade_of(buffer).class())?;
    push_label(out, 490, y, "end", &decimal(alloc, number)?)?;
    push_label(out, 540, y, "end", &client)?;
    push_label(out, 556, y, "note", words.as_bytes())?;
    push_label(out, 760, y, "end", &hex(alloc, u64::from(buffer.place))?)?;
    push_label(out, 870, y, "end", &decimal(alloc, u64::from(buffer.size))?)
}

// The line of the buffer of this number.
#[tactic(auto, unfolding(crate::specs::Buffers::row_part, buffer_table::specs::Table::buffer_at))]
fn push_row(alloc: Global, out: &mut Vec<u8>, file: &FileParts, n: usize) -> Drawn
    requires { n < length file.now.buffers.items }
    ensures { OnOk result (out.new.items ≡ out.old.items
        ++ forest_text (row_part (parts_view file.now) n)) }
{
    let buffers: &[Buffer] = &file.buffers;
    let uses = use_words(&file.jobs, n as u64);
    push_buffer(alloc, out, n as u64, &buffers[n], uses)
}

#[tactic(auto, using(crate::proofs::Each::each_more))]
fn push_rows(alloc: Global, out: &mut Vec<u8>, file: &FileParts) -> Drawn
    ensures { OnOk result (out.new.items ≡ out.old.items
        ++ forest_text (each (row_part (parts_view file.now)) (length file.now.buffers.items))) }
{
    for n in 0..file.buffers.len() {
        push_row(alloc, out, file, n)?;
    }
    Ok(())
}

#[tactic(auto, unfolding(crate::specs::Buffers::table_head))]
fn push_table_head(out: &mut Vec<u8>) -> Drawn
    ensures { OnOk result (out.new.items ≡ out.old.items ++ forest_text table_head) }
{
    push_label(out, 490, 230, "end", b"buffer")?;
    push_label(out, 540, 230, "end", b"client")?;
    push_label(out, 556, 230, "note", b"kind and use")?;
    push_label(out, 760, 230, "end", b"place")?;
    push_label(out, 870, 230, "end", b"bytes")
}

/// Appends the table, from row 230 of the drawing on.
#[tactic(auto, unfolding(crate::specs::Buffers::table))]
pub(crate) fn push_table(alloc: Global, out: &mut Vec<u8>, file: &FileParts) -> Drawn
    ensures { OnOk result (out.new.items ≡ out.old.items
        ++ forest_text (table (parts_view file.now))) }
{
    push_table_head(out)?;
    push_rows(alloc, out, file)
}
