//! The table of a run.
ghost use Rattle.std.specs.Prelude.{◌≡◌, ◌<◌, ◌++◌, OnOk};
ghost use Rattle.pictures.specs.Forest.{forest_text};
ghost use Rattle.pictures.specs.Parts.{each};
ghost use Rattle.pictures.specs.Table.{HasCells, column_head, column_heads, row_name, cell_part, unit_part, unit_table};

use crate::parts::{decimal, push_box, push_label};
use crate::svg::Drawn;
use std::alloc::Global;

/// How many reads and how many writes are of each cell.
#[derive(Drop)]
pub(crate) struct Counts {
    pub(crate) reads: Vec<u64>,
    pub(crate) writes: Vec<u64>,
}

#[tactic(auto, unfolding(crate::specs::Table::column_head))]
fn push_column(out: &mut Vec<u8>, column: u64, class: &str, name: &str) -> Drawn
    requires { column < 4 }
    ensures { OnOk result (out.new.items ≡ out.old.items
        ++ forest_text (column_head column class.now name.now)) }
{
    push_box(out, 256 + 180 * column, 563, class)?;
    push_label(out, 280 + 180 * column, 574, "note", name.as_bytes())?;
    push_label(out, 320 + 180 * column, 592, "end", b"reads")?;
    push_label(out, 400 + 180 * column, 592, "end", b"writes")
}

#[tactic(auto, unfolding(crate::specs::Table::column_heads))]
fn push_columns(out: &mut Vec<u8>) -> Drawn
    ensures { OnOk result (out.new.items ≡ out.old.items ++ forest_text column_heads) }
{
    push_column(out, 0, "slots", "tile slots")?;
    push_column(out, 1, "lists", "lists")?;
    push_column(out, 2, "data0", "data")?;
    push_column(out, 3, "code0", "code")
}

#[tactic(auto, unfolding(crate::specs::Table::row_name))]
fn row_name(row: u64) -> &'static [u8]
    ensures { result.now ≡ row_name row }
{
    match row {
        0 => b"binner",
        1 => b"renderer",
        2 => b"processors",
        _ => b"texture units",
    }
}

#[tactic(auto, unfolding(crate::specs::Table::cell_part))]
fn push_cell(alloc: Global, out: &mut Vec<u8>, counts: &Counts, row: u64, column: u64) -> Drawn
    requires cells { HasCells counts.now }
    requires row { row < 4 }
    requires column { column < 4 }
    ensures { OnOk result (out.new.items ≡ out.old.items
        ++ forest_text (cell_part counts.now.reads.items counts.now.writes.items row column)) }
{
    let cell = (5 * row + column) as usize;
    let y = 612 + 18 * row;
    let reads = decimal(alloc, counts.reads[cell])?;
    let writes = decimal(alloc, counts.writes[cell])?;
    push_label(out, 320 + 180 * column, y, "end", &reads)?;
    push_label(out, 400 + 180 * column, y, "end", &writes)
}

#[tactic(auto, using(crate::proofs::Each::each_more))]
fn push_cells(alloc: Global, out: &mut Vec<u8>, counts: &Counts, row: u64) -> Drawn
    requires cells { HasCells counts.now }
    requires row { row < 4 }
    ensures { OnOk result (out.new.items ≡ out.old.items
        ++ forest_text (each (cell_part counts.now.reads.items counts.now.writes.items row) 4)) }
{
    for column in 0..4 {
        push_cell(alloc, out, counts, row, column)?;
    }
    Ok(())
}

#[tactic(auto, unfolding(crate::specs::Table::unit_part))]
fn push_unit(alloc: Global, out: &mut Vec<u8>, counts: &Counts, row: u64) -> Drawn
    requires cells { HasCells counts.now }
    requires row { row < 4 }
    ensures { OnOk result (out.new.items ≡ out.old.items
        ++ forest_text (unit_part counts.now.reads.items counts.now.writes.items row)) }
{
    push_label(out, 96, 612 + 18 * row, "note", row_name(row))?;
    push_cells(alloc, out, counts, row)
}

#[tactic(auto, using(crate::proofs::Each::each_more))]
fn push_units(alloc: Global, out: &mut Vec<u8>, counts: &Counts) -> Drawn
    requires cells { HasCells counts.now }
    ensures { OnOk result (out.new.items ≡ out.old.items
        ++ forest_text (each (unit_part counts.now.reads.items counts.now.writes.items) 4)) }
{
    for row in 0..4 {
        push_unit(alloc, out, counts, row)?;
    }
    Ok(())
}

/// Appends the table, of so many reads and writes for each cell.
#[tactic(auto, unfolding(crate::specs::Table::unit_table))]
pub(crate) fn push_table(alloc: Global, out: &mut Vec<u8>, counts: &Counts) -> Drawn
    requires { HasCells counts.now }
    ensures { OnOk result (out.new.items ≡ out.old.items
        ++ forest_text (unit_table counts.now.reads.items counts.now.writes.items)) }
{
    push_columns(out)?;
    push_units(alloc, out, counts)
}
