//! The picture of a memory.
ghost use Rattle.std.specs.Prelude.{◌≡◌, ◌≤◌, ◌<◌, ◌^◌, ◌+◌, ◌++◌, length, OnOk, IfOk};
ghost use Rattle.job_format.specs.Parts.{parts_view};
ghost use Rattle.pictures.specs.Forest.{forest_text};
ghost use Rattle.pictures.specs.Parts.{each};
ghost use Rattle.pictures.specs.Memory.{box_part, is_hidden, number_in, number_part, strip, place_part, places, head, entry, tone_part, tones, legend_regions, legend_kind, legend_rest, legend, memory_parts, memory_picture};

use crate::buffers::{further_rows, push_table};
use crate::grid::{box_count, box_size, shade_in};
use crate::parts::{begin_drawing, decimal, end_drawing, hex, push_block, push_box, push_label};
use crate::svg::{Drawn, begin, close, end_tag, worded};
use crate::title::{Bytes, push_title};
use buffer_table::Buffer;
use field_words::NoMemory;
use job_format::FileParts;
use std::alloc::Global;

/// Room for most pictures.
const PICTURE: usize = 65_536;

#[tactic(auto, unfolding(crate::specs::Memory::box_part))]
fn push_part(alloc: Global, out: &mut Vec<u8>, file: &FileParts, n: u64) -> Drawn
    requires { n < 2 ^ 32 }
    ensures { OnOk result (out.new.items ≡ out.old.items
        ++ forest_text (box_part (parts_view file.now) n)) }
{
    let size = box_size(file.mem_size);
    let from = n * size;
    let to = from + size;
    let shade = shade_in(file, from, to);
    begin(out, "rect")?;
    push_block(out, 96 + 18 * (n % 16), 72 + 12 * (n / 16), shade.class())?;
    end_tag(out)?;
    push_title(alloc, out, file, Bytes { from, to })?;
    close(out, "rect")
}

#[tactic(auto, using(crate::proofs::Each::each_more))]
fn push_parts(alloc: Global, out: &mut Vec<u8>, file: &FileParts, count: u64) -> Drawn
    requires { count < 2 ^ 32 }
    ensures { OnOk result (out.new.items ≡ out.old.items
        ++ forest_text (each (box_part (parts_view file.now)) count)) }
{
    for n in 0..count {
        push_part(alloc, out, file, n)?;
    }
    Ok(())
}

/// Whether the buffer before this one begins in the same box.
#[tactic(auto, unfolding(crate::specs::Memory::is_hidden, buffer_table::specs::Table::buffer_at))]
fn is_hidden(size: u64, buffers: &[Buffer], n: usize) -> bool
    requires some { 1 ≤ size }
    requires there { n < length buffers.now }
    ensures { result ≡ is_hidden size buffers.now n }
{
    n > 0 && u64::from(buffers[n - 1].place) / size == u64::from(buffers[n].place) / size
}

// A number in the middle of a box.
#[tactic(auto, unfolding(crate::specs::Memory::number_in))]
fn push_number_in(alloc: Global, out: &mut Vec<u8>, here: u64, number: u64) -> Drawn
    ensures { OnOk result (out.new.items ≡ out.old.items ++ forest_text (number_in here number)) }
{
    let words = decimal(alloc, number)?;
    let x = 105 + 18 * (here % 16);
    push_label(out, x, 81 + 12 * (here / 16), "number", &words)
}

// The number of a buffer, in the box in which it begins, unless that is hidden.
#[tactic(auto, unfolding(crate::specs::Memory::number_part, buffer_table::specs::Table::buffer_at))]
fn push_number(alloc: Global, out: &mut Vec<u8>, size: u64, buffers: &[Buffer], n: usize) -> Drawn
    requires some { 1 ≤ size }
    requires there { n < length buffers.now }
    ensures { OnOk result (out.new.items ≡ out.old.items
        ++ forest_text (number_part size buffers.now n)) }
{
    if is_hidden(size, buffers, n) {
        return Ok(());
    }
    push_number_in(alloc, out, u64::from(buffers[n].place) / size, n as u64)
}

#[tactic(auto, using(crate::proofs::Each::each_more))]
fn push_numbers(alloc: Global, out: &mut Vec<u8>, size: u64, buffers: &[Buffer]) -> Drawn
    requires { 1 ≤ size }
    ensures { OnOk result (out.new.items ≡ out.old.items
        ++ forest_text (each (number_part size buffers.now) (length buffers.now))) }
{
    for n in 0..buffers.len() {
        push_number(alloc, out, size, buffers, n)?;
    }
    Ok(())
}

/// Appends the strip of boxes, and the numbers of the buffers in them.
#[tactic(auto, unfolding(crate::specs::Memory::strip))]
fn push_strip(alloc: Global, out: &mut Vec<u8>, file: &FileParts) -> Drawn
    ensures { OnOk result (out.new.items ≡ out.old.items
        ++ forest_text (strip (parts_view file.now))) }
{
    begin(out, "g")?;
    worded(out, "id", "strip")?;
    end_tag(out)?;
    push_parts(alloc, out, file, box_count(file.mem_size))?;
    push_numbers(alloc, out, box_size(file.mem_size), &file.buffers)?;
    close(out, "g")
}

#[tactic(auto, unfolding(crate::specs::Memory::place_part))]
fn push_place(alloc: Global, out: &mut Vec<u8>, y: u64, memory: u32, n: u64) -> Drawn
    requires above { y < 2 ^ 32 }
    requires few { n < 268435456 }
    ensures { OnOk result (out.new.items ≡ out.old.items ++ forest_text (place_part y memory n)) }
{
    let words = hex(alloc, 16 * n * box_size(memory))?;
    push_label(out, 90, y + 10 + 12 * n, "row", &words)
}

/// Appends the place of the first byte of each row, for a strip that begins at this row of the drawing.
#[tactic(auto, using(crate::proofs::Each::each_more))]
pub fn push_places(alloc: Global, out: &mut Vec<u8>, y: u64, memory: u32) -> Drawn
    requires { y < 2 ^ 32 }
    ensures { OnOk result (out.new.items ≡ out.old.items ++ forest_text (places y memory)) }
{
    let count = (box_count(memory) + 15) / 16;
    for n in 0..count {
        push_place(alloc, out, y, memory, n)?;
    }
    Ok(())
}

#[tactic(auto, unfolding(crate::specs::Memory::head))]
fn push_head(alloc: Global, out: &mut Vec<u8>, memory: u64, size: u64) -> Drawn
    ensures { OnOk result (out.new.items ≡ out.old.items ++ forest_text (head memory size)) }
{
    push_label(out, 96, 32, "head", b"Memory of the jobs")?;
    push_label(out, 96, 56, "note", b"bytes, row by row:")?;
    push_label(out, 320, 56, "end", &decimal(alloc, memory)?)?;
    push_label(out, 424, 56, "note", b"bytes of a box:")?;
    push_label(out, 600, 56, "end", &decimal(alloc, size)?)
}

#[tactic(auto, unfolding(crate::specs::Memory::entry))]
fn push_entry(out: &mut Vec<u8>, y: u64, class: &str, words: &str) -> Drawn
    requires { y < 2 ^ 32 }
    ensures { OnOk result (out.new.items ≡ out.old.items
        ++ forest_text (entry y class.now words.now)) }
{
    push_box(out, 424, y, class)?;
    push_label(out, 448, y + 11, "note", words.as_bytes())
}

#[tactic(auto, unfolding(crate::specs::Memory::tone_part))]
fn push_tone(alloc: Global, out: &mut Vec<u8>, y: u64, kind: &str, tone: u64) -> Drawn
    requires above { y < 2 ^ 32 }
    requires few { tone < 4 }
    ensures { OnOk result (out.new.items ≡ out.old.items
        ++ forest_text (tone_part y kind.now tone)) }
{
    let later = tone + 4;
    let class = format!(in alloc; "{kind}{tone}")?;
    let clients = format!(in alloc; "{tone}, {later}, ..")?;
    push_box(out, 536 + 105 * tone, y, class.as_str())?;
    push_label(out, 560 + 105 * tone, y + 11, "note", clients.as_bytes())
}

#[tactic(auto, unfolding(crate::specs::Memory::tones), using(crate::proofs::Each::each_more))]
fn push_tones(alloc: Global, out: &mut Vec<u8>, y: u64, kind: &str) -> Drawn
    requires { y < 2 ^ 32 }
    ensures { OnOk result (out.new.items ≡ out.old.items ++ forest_text (tones y kind.now)) }
{
    for tone in 0..4 {
        push_tone(alloc, out, y, kind, tone)?;
    }
    Ok(())
}

#[tactic(auto, unfolding(crate::specs::Memory::legend_kind))]
fn push_legend_kind(alloc: Global, out: &mut Vec<u8>, y: u64, kind: &str) -> Drawn
    requires { y < 2 ^ 32 }
    ensures { OnOk result (out.new.items ≡ out.old.items ++ forest_text (legend_kind y kind.now)) }
{
    let words = format!(in alloc; "{kind} of client")?;
    push_label(out, 424, y + 11, "note", words.as_bytes())?;
    push_tones(alloc, out, y, kind)
}

#[tactic(auto, unfolding(crate::specs::Memory::legend_regions))]
fn push_legend_regions(out: &mut Vec<u8>) -> Drawn
    ensures { OnOk result (out.new.items ≡ out.old.items ++ forest_text legend_regions) }
{
    push_entry(out, 72, "slots", "tile slots")?;
    push_entry(out, 92, "lists", "lists of the jobs")
}

#[tactic(auto, unfolding(crate::specs::Memory::legend_rest))]
fn push_legend_rest(out: &mut Vec<u8>) -> Drawn
    ensures { OnOk result (out.new.items ≡ out.old.items ++ forest_text legend_rest) }
{
    push_entry(out, 152, "several", "more than one of these")?;
    push_entry(out, 172, "free", "nothing")
}

#[tactic(auto, unfolding(crate::specs::Memory::legend))]
fn push_legend(alloc: Global, out: &mut Vec<u8>) -> Drawn
    ensures { OnOk result (out.new.items ≡ out.old.items ++ forest_text legend) }
{
    push_legend_regions(out)?;
    push_legend_kind(alloc, out, 112, "data")?;
    push_legend_kind(alloc, out, 132, "code")?;
    push_legend_rest(out)
}

/// Appends the picture of a file's memory to a drawing: it takes 490 rows, and the further lines of its table.
#[tactic(auto, unfolding(crate::specs::Memory::memory_parts))]
pub fn push_memory(alloc: Global, out: &mut Vec<u8>, file: &FileParts) -> Drawn
    ensures { OnOk result (out.new.items ≡ out.old.items
        ++ forest_text (memory_parts (parts_view file.now))) }
{
    let memory = file.mem_size;
    push_head(alloc, out, u64::from(memory), box_size(memory))?;
    push_strip(alloc, out, file)?;
    push_places(alloc, out, 72, memory)?;
    push_legend(alloc, out)?;
    push_table(alloc, out, file)
}

/// The picture of a file's memory, with its regions and buffers, as SVG: the text of one element,
/// in which all numbers are the memory's. A box of its strip stands for so many pages that there are
/// at most 512 boxes.
#[tactic(auto, unfolding(crate::specs::Memory::memory_picture))]
pub fn memory_picture(alloc: Global, file: &FileParts) -> Result<Vec<u8>, NoMemory>
    ensures { IfOk result (λ text. text.items
        ≡ forest_text (memory_picture (parts_view file.now))) }
{
    let mut out = Vec::with_capacity(alloc, PICTURE)?;
    let height = 490 + further_rows(&file.buffers);
    begin_drawing(alloc, &mut out, height, "Memory of the jobs")?;
    push_memory(alloc, &mut out, file)?;
    end_drawing(&mut out)?;
    Ok(out)
}
