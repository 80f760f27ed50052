//! How many accesses boxes take, and how many units make.
ghost use Rattle.std.specs.Prelude.{◌≡◌, ◌≤◌, ◌<◌, ◌^◌, ◌+◌, ◌*◌, ◌&&◌, nat_le, nat_lt, length, IfOk};
ghost use Rattle.buffer_table.specs.Table.{buffer_at};
ghost use Rattle.job_format.specs.Parts.{parts_view};
ghost use Rattle.pictures.specs.Grid.{overlaps};
ghost use Rattle.pictures.specs.Counts.{IsOneMoreWhere, HasRoom, is_way, touches, box_counts, row_of, kind_column, column_of, cell_of, is_in_cell, cell_counts};

use buffer_table::{Buffer, Kind};
use field_words::{Access, Actor, Way};
use job_format::FileParts;
use relocation::Layout;
use replay::Logged;
use run_text::{Spot, spot_of};
use std::alloc::{AllocError, Global};

/// The table's cells: four rows of five.
const CELLS: usize = 20;

// One more for each of these numbers.
#[tactic(auto, using(crate::proofs::Counting::below_end))]
fn add_each(counts: &mut [u64], first: u64, end: u64)
    requires { HasRoom counts.old }
    ensures long { length counts.new ≡ length counts.old }
    ensures each { IsOneMoreWhere (λ k. nat_le first k && nat_lt k end) counts.old counts.new }
{
    let past = end.min(counts.len() as u64);
    let from = first.min(past);
    for n in from as usize..past as usize {
        counts[n] += 1;
    }
}

// One more for each box that has one of so many bytes from this place on.
fn warm(counts: &mut [u64], size: u64, place: u64, len: u32)
    requires some { 4096 ≤ size }
    requires few { size < 2 ^ 32 }
    requires room { HasRoom counts.old }
    ensures long { length counts.new ≡ length counts.old }
    ensures each { IsOneMoreWhere (λ k. overlaps place len (k * size) (k * size + size))
        counts.old counts.new }
{
    let first = place / size;
    let end = first + (place % size + u64::from(len) + (size - 1)) / size;
    add_each(counts, first, end);
}

/// Whether both are the same.
fn is_way(way: Way, other: Way) -> bool
    ensures { result ≡ is_way way other }
{
    match (way, other) {
        (Way::Read, Way::Read) | (Way::Write, Way::Write) | (Way::Wild, Way::Wild) => true,
        _ => false,
    }
}

// One more for each box that the access touches, if it is of this way.
#[tactic(auto, unfolding(crate::specs::Counts::touches))]
fn count_boxes(counts: &mut [u64], way: Way, size: u64, access: &Access)
    requires some { 4096 ≤ size }
    requires few { size < 2 ^ 32 }
    requires room { HasRoom counts.old }
    ensures long { length counts.new ≡ length counts.old }
    ensures each { IsOneMoreWhere (λ k. touches way size k access.now) counts.old counts.new }
{
    if is_way(way, access.way) {
        warm(counts, size, access.place, access.len);
    }
}

/// How many accesses of this way touch each of so many boxes of this size.
pub(crate) fn box_counts(
    alloc: Global,
    way: Way,
    size: u64,
    count: u64,
    accesses: &[Logged],
) -> Result<Vec<u64>, AllocError>
    requires some { 4096 ≤ size }
    requires few { size < 2 ^ 32 }
    ensures long { IfOk result (λ counts. length counts.items ≡ count) }
    ensures value { IfOk result (λ counts. counts.items ≡ box_counts way size count accesses.now) }
{
    let mut counts = vec![in alloc; 0u64; count as usize]?;
    for logged in accesses {
        count_boxes(&mut counts, way, size, &logged.access);
    }
    Ok(counts)
}

fn row_of(unit: Actor) -> u64
    ensures value { result ≡ row_of unit }
    ensures few { result < 4 }
{
    match unit {
        Actor::Binner => 0,
        Actor::Renderer => 1,
        Actor::Qpu(_) => 2,
        Actor::Tmu(_, _) => 3,
    }
}

fn kind_column(kind: Kind) -> u64
    ensures value { result ≡ kind_column kind }
    ensures few { result < 5 }
{
    match kind {
        Kind::Plain => 2,
        Kind::Code => 3,
    }
}

// The column of the buffer of this number.
#[tactic(auto, unfolding(buffer_table::specs::Table::buffer_at))]
fn buffer_column(buffers: &[Buffer], number: u64) -> u64
    ensures value { result ≡ kind_column (buffer_at buffers.now number).kind }
    ensures few { result < 5 }
{
    if number as usize >= buffers.len() {
        return 3;
    }
    kind_column(buffers[number as usize].kind)
}

fn column_of(buffers: &[Buffer], spot: Spot) -> u64
    ensures value { result ≡ column_of buffers.now spot }
    ensures few { result < 5 }
{
    match spot {
        Spot::Slot(_, _) => 0,
        Spot::InBuffer(number, _) => buffer_column(buffers, number),
        Spot::Nowhere => 4,
        _ => 1,
    }
}

#[tactic(auto, unfolding(crate::specs::Counts::cell_of))]
fn cell_of(file: &FileParts, layouts: &[Layout], access: &Access) -> u64
    ensures value { result ≡ cell_of (parts_view file.now) layouts.now access.now }
    ensures few { result < 20 }
{
    let spot = spot_of(file, layouts, access.place);
    5 * row_of(access.unit) + column_of(&file.buffers, spot)
}

// One more for the access's cell, if it is of this way.
#[tactic(auto, unfolding(crate::specs::Counts::is_of_cell, crate::specs::Counts::is_in_cell))]
fn count_cell(counts: &mut [u64], file: &FileParts, layouts: &[Layout], way: Way, access: &Access)
    requires room { HasRoom counts.old }
    ensures long { length counts.new ≡ length counts.old }
    ensures each { IsOneMoreWhere (λ k. is_in_cell file.now layouts.now way k access.now)
        counts.old counts.new }
{
    if is_way(way, access.way) {
        let cell = cell_of(file, layouts, access);
        add_each(counts, cell, cell + 1);
    }
}

/// How many accesses of this way are of each cell.
pub(crate) fn cell_counts(
    alloc: Global,
    file: &FileParts,
    layouts: &[Layout],
    way: Way,
    accesses: &[Logged],
) -> Result<Vec<u64>, AllocError>
    ensures long { IfOk result (λ counts. length counts.items ≡ 20) }
    ensures value { IfOk result (λ counts. counts.items
        ≡ cell_counts (parts_view file.now) layouts.now way accesses.now) }
{
    let mut counts = vec![in alloc; 0u64; CELLS]?;
    for logged in accesses {
        count_cell(&mut counts, file, layouts, way, &logged.access);
    }
    Ok(counts)
}
