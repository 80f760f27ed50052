//! What lies in a box, in words.
ghost use Rattle.std.specs.Prelude.{◌≡◌, ◌<◌, ◌^◌, ◌+◌, ◌++◌, length, OnOk, IfOk, string_bytes};
ghost use Rattle.job_format.specs.Parts.{parts_view};
ghost use Rattle.pictures.specs.Forest.{forest_text};
ghost use Rattle.pictures.specs.Parts.{each};
ghost use Rattle.pictures.specs.Title.{kind_word, span, part_line, buffer_name, buffer_line, regions_lines, box_title};

use crate::grid::overlaps;
use crate::svg::{Drawn, begin, close, end_tag, push_words};
use buffer_table::{Buffer, Kind, Regions};
use field_words::SLOT_SIZE;
use job_format::FileParts;
use std::alloc::{AllocError, Global};

/// The bytes from a place to before another.
#[derive(Clone, Copy)]
pub(crate) struct Bytes {
    pub(crate) from: u64,
    pub(crate) to: u64,
}

/// The kind of a buffer as a word.
pub(crate) fn kind_word(kind: Kind) -> &'static str
    ensures { result.now ≡ kind_word kind }
{
    match kind {
        Kind::Plain => "data",
        Kind::Code => "code",
    }
}

/// The places of the first and the last byte from a place to before another.
#[tactic(auto, unfolding(crate::specs::Title::span))]
fn span(alloc: Global, from: u64, to: u64) -> Result<String, AllocError>
    ensures { IfOk result (λ words. string_bytes words ≡ span from to) }
{
    let last = to.saturating_sub(1);
    format!(in alloc; "0x{from:x} to 0x{last:x}")
}

// The line of a part, if it has a byte of the box, and else nothing.
#[tactic(auto, unfolding(crate::specs::Title::part_line))]
fn part_line(
    alloc: Global,
    here: Bytes,
    name: &str,
    place: u32,
    size: u64,
) -> Result<String, AllocError>
    requires { place + size < 2 ^ 64 }
    ensures { IfOk result (λ line. string_bytes line
        ≡ part_line here.from here.to name.now place size) }
{
    if !overlaps(place, size, here.from, here.to) {
        return Ok(String::new(alloc));
    }
    let from = u64::from(place);
    let bytes = span(alloc, from, from + size)?;
    format!(in alloc; "\n{name}: {bytes}")
}

fn buffer_name(alloc: Global, number: u64, buffer: &Buffer) -> Result<String, AllocError>
    ensures { IfOk result (λ name. string_bytes name ≡ buffer_name number buffer.now) }
{
    let kind = kind_word(buffer.kind);
    let client = buffer.client;
    format!(in alloc; "buffer {number}, {kind} of client {client}")
}

#[tactic(auto, unfolding(crate::specs::Title::buffer_line, buffer_table::specs::Table::buffer_at))]
fn push_buffer(alloc: Global, out: &mut Vec<u8>, here: Bytes, buffers: &[Buffer], n: usize) -> Drawn
    requires { n < length buffers.now }
    ensures { OnOk result (out.new.items ≡ out.old.items
        ++ forest_text (buffer_line here.from here.to buffers.now n)) }
{
    let buffer = &buffers[n];
    let name = buffer_name(alloc, n as u64, buffer)?;
    let size = u64::from(buffer.size);
    let line = part_line(alloc, here, name.as_str(), buffer.place, size)?;
    push_words(out, line.as_bytes())
}

#[tactic(auto, using(crate::proofs::Each::each_more))]
fn push_buffers(alloc: Global, out: &mut Vec<u8>, here: Bytes, buffers: &[Buffer]) -> Drawn
    ensures { OnOk result (out.new.items ≡ out.old.items
        ++ forest_text (each (buffer_line here.from here.to buffers.now) (length buffers.now))) }
{
    for n in 0..buffers.len() {
        push_buffer(alloc, out, here, buffers, n)?;
    }
    Ok(())
}

#[tactic(auto, unfolding(crate::specs::Title::regions_lines))]
fn regions_lines(alloc: Global, here: Bytes, regions: &Regions) -> Result<String, AllocError>
    ensures { IfOk result (λ lines. string_bytes lines
        ≡ regions_lines here.from here.to regions.now) }
{
    let size = u64::from(regions.lists_size);
    let lists = part_line(alloc, here, "lists of the jobs", regions.lists_place, size)?;
    let size = u64::from(SLOT_SIZE) * u64::from(regions.tile_slots);
    let slots = part_line(alloc, here, "tile slots", regions.tile_place, size)?;
    format!(in alloc; "{lists}{slots}")
}

/// Appends a box's title: its own bytes, and a line of each part that has one of them.
#[tactic(auto, unfolding(crate::specs::Title::box_title))]
pub(crate) fn push_title(alloc: Global, out: &mut Vec<u8>, file: &FileParts, here: Bytes) -> Drawn
    ensures { OnOk result (out.new.items ≡ out.old.items
        ++ forest_text (box_title (parts_view file.now) here.from here.to)) }
{
    let bytes = span(alloc, here.from, here.to)?;
    let regions = regions_lines(alloc, here, &file.regions)?;
    begin(out, "title")?;
    end_tag(out)?;
    push_words(out, bytes.as_bytes())?;
    push_words(out, regions.as_bytes())?;
    push_buffers(alloc, out, here, &file.buffers)?;
    close(out, "title")
}
