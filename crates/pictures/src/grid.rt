//! The boxes of the strip, and what each shows.
ghost use Rattle.std.specs.Prelude.{◌≡◌, ◌≤◌, ◌<◌, ◌^◌, ◌*◌, ◌/◌, ◌+◌, ◌-◌};
ghost use Rattle.job_format.specs.Parts.{parts_view};
ghost use Rattle.pictures.specs.Grid.{box_size, box_count, overlaps, shade_of, tag_of, both, put_in, with_buffer, with_regions, shade_in, data_class, code_class, class_of};

use buffer_table::{Buffer, Kind, Regions};
use field_words::{PAGE_SIZE, SLOT_SIZE};
use job_format::FileParts;

/// How many bytes 512 boxes of one page hold.
const SMALL: u32 = 2_097_152;

/// What a box shows. A buffer has one of four tones, by its client.
#[derive(Clone, Copy, Debug, PartialEq, Eq)]
pub enum Shade {
    /// No region and no buffer.
    Free,
    /// Tile slots.
    Slots,
    /// The lists' region.
    Lists,
    /// Things of more than one shade.
    Several,
    /// A buffer of data.
    Data(u32),
    /// A buffer of code.
    Code(u32),
}

/// How many bytes a box stands for, in a memory of so many: a page in up to 2 MiB, and a page more for each further 2 MiB.
#[tactic(auto, unfolding(crate::specs::Grid::box_size))]
pub fn box_size(memory: u32) -> u64
    ensures value { result ≡ box_size memory }
    ensures some { 4096 ≤ result }
    ensures limit { result < 2 ^ 32 }
{
    u64::from(PAGE_SIZE) * u64::from(memory.saturating_sub(1) / SMALL + 1)
}

/// How many boxes a memory of so many bytes takes.
#[tactic(auto, unfolding(crate::specs::Grid::box_count))]
pub fn box_count(memory: u32) -> u64
    ensures value { result ≡ box_count memory }
    ensures limit { result < 2 ^ 32 }
{
    let size = box_size(memory);
    (u64::from(memory) + (size - 1)) / size
}

/// Whether one of so many bytes from a place on lies from `from` to before `to`.
pub(crate) fn overlaps(begin: u32, size: u64, from: u64, to: u64) -> bool
    requires { begin + size < 2 ^ 64 }
    ensures { result ≡ overlaps begin size from to }
{
    u64::from(begin) < to && from < u64::from(begin) + size
}

#[tactic(auto, unfolding(crate::specs::Grid::shade_of))]
pub(crate) fn shade_of(buffer: &Buffer) -> Shade
    ensures { result ≡ shade_of buffer.now }
{
    match buffer.kind {
        Kind::Plain => Shade::Data(buffer.client % 4),
        Kind::Code => Shade::Code(buffer.client % 4),
    }
}

impl Shade {
    /// A number for each shade.
    #[tactic(auto, unfolding(crate::specs::Grid::tag_of))]
    fn tag(self) -> u64
        ensures { result ≡ tag_of self }
    {
        match self {
            Shade::Free => 0,
            Shade::Slots => 1,
            Shade::Lists => 2,
            Shade::Several => 3,
            Shade::Data(tone) => 4 + u64::from(tone),
            Shade::Code(tone) => 8 + u64::from(tone),
        }
    }

    /// The shade's name in the drawing's style.
    #[tactic(auto, unfolding(crate::specs::Grid::class_of))]
    pub(crate) fn class(self) -> &'static str
        ensures { result.now ≡ class_of self }
    {
        match self {
            Shade::Free => "free",
            Shade::Slots => "slots",
            Shade::Lists => "lists",
            Shade::Several => "several",
            Shade::Data(tone) => data_class(tone),
            Shade::Code(tone) => code_class(tone),
        }
    }
}

fn data_class(tone: u32) -> &'static str
    ensures { result.now ≡ data_class tone }
{
    match tone {
        0 => "data0",
        1 => "data1",
        2 => "data2",
        _ => "data3",
    }
}

fn code_class(tone: u32) -> &'static str
    ensures { result.now ≡ code_class tone }
{
    match tone {
        0 => "code0",
        1 => "code1",
        2 => "code2",
        _ => "code3",
    }
}

/// What two things in one box are shown as.
#[tactic(auto, unfolding(crate::specs::Grid::both))]
fn both(first: Shade, second: Shade) -> Shade
    ensures { result ≡ both first second }
{
    if first.tag() == 0 {
        return second;
    }
    if first.tag() == second.tag() {
        first
    } else {
        Shade::Several
    }
}

/// The box with one thing more, if that lies in it.
fn put_in(is_inside: bool, shade: Shade, here: Shade) -> Shade
    ensures { result ≡ put_in is_inside shade here }
{
    if is_inside { both(here, shade) } else { here }
}

#[tactic(auto, unfolding(crate::specs::Grid::with_buffer))]
fn with_buffer(from: u64, to: u64, here: Shade, buffer: &Buffer) -> Shade
    ensures { result ≡ with_buffer from to here buffer.now }
{
    let is_inside = overlaps(buffer.place, u64::from(buffer.size), from, to);
    put_in(is_inside, shade_of(buffer), here)
}

#[tactic(auto, unfolding(crate::specs::Grid::with_regions))]
fn with_regions(from: u64, to: u64, regions: &Regions) -> Shade
    ensures { result ≡ with_regions from to regions.now }
{
    let slots = u64::from(SLOT_SIZE) * u64::from(regions.tile_slots);
    let has_slots = overlaps(regions.tile_place, slots, from, to);
    let lists = u64::from(regions.lists_size);
    let has_lists = overlaps(regions.lists_place, lists, from, to);
    put_in(
        has_lists,
        Shade::Lists,
        put_in(has_slots, Shade::Slots, Shade::Free),
    )
}

/// What the box from `from` to before `to` shows.
pub(crate) fn shade_in(file: &FileParts, from: u64, to: u64) -> Shade
    ensures { result ≡ shade_in (parts_view file.now) from to }
{
    let mut here = with_regions(from, to, &file.regions);
    for buffer in &file.buffers {
        here = with_buffer(from, to, here, buffer);
    }
    here
}
