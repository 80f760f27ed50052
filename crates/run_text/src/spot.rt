//! What lies at a place of the memory of an accepted file.
ghost use Rattle.std.specs.Prelude.{◌≡◌, ◌<◌, ◌+◌};
ghost use Rattle.job_format.specs.Parts.{parts_view};
ghost use Rattle.run_text.specs.Spot.{is_in, list_spot, lists_spot, buffer_spot, slot_spot, spot_of};

use buffer_table::Buffer;
use field_words::SLOT_SIZE;
use job_format::FileParts;
use relocation::Layout;

/// What lies at a place: first the number of a slot, a job or a buffer, then how many bytes the place is into it.
#[derive(Clone, Copy, Debug, PartialEq, Eq)]
pub enum Spot {
    /// A tile slot.
    Slot(u64, u64),
    /// The binner list of a job.
    BinList(u64, u64),
    /// The shader records of a job.
    Records(u64, u64),
    /// The uniforms of a job.
    Uniforms(u64, u64),
    /// The renderer list of a job.
    RenderList(u64, u64),
    /// The lists' region, where no job's lists are.
    Spare,
    /// A buffer.
    InBuffer(u64, u64),
    /// No region and no buffer.
    Nowhere,
}

/// Whether the place is one of so many bytes.
fn is_in(begin: u32, size: u64, place: u64) -> bool
    requires { size < 18446744069414584320 }
    ensures { result ≡ is_in begin size place }
{
    u64::from(begin) <= place && place < u64::from(begin) + size
}

/// Which of a job's lists lies so far behind where they begin.
#[tactic(auto, unfolding(crate::specs::Spot::list_spot))]
fn list_spot(layout: &Layout, job: u64, offset: u64) -> Spot
    ensures { result ≡ list_spot layout.now job offset }
{
    if offset < u64::from(layout.records) {
        return Spot::BinList(job, offset);
    }
    if offset < u64::from(layout.uniforms) {
        return Spot::Records(job, offset - u64::from(layout.records));
    }
    if offset < u64::from(layout.render) {
        return Spot::Uniforms(job, offset - u64::from(layout.uniforms));
    }
    Spot::RenderList(job, offset - u64::from(layout.render))
}

/// Which job's lists hold the place, of the lists' region.
#[tactic(auto, unfolding(crate::specs::Spot::lists_spot))]
fn lists_spot(layouts: &[Layout], place: u64) -> Spot
    ensures { result ≡ lists_spot 0 layouts.now place }
{
    let mut left = layouts;
    let mut job = 0;
    while let Some((layout, later)) = left.split_first() {
        if is_in(layout.place, u64::from(layout.end), place) {
            return list_spot(layout, job, place - u64::from(layout.place));
        }
        left = later;
        job += 1;
    }
    Spot::Spare
}

#[tactic(auto, unfolding(crate::specs::Spot::buffer_spot))]
fn buffer_spot(buffers: &[Buffer], place: u64) -> Spot
    ensures { result ≡ buffer_spot 0 buffers.now place }
{
    let mut left = buffers;
    let mut number = 0;
    while let Some((buffer, later)) = left.split_first() {
        if is_in(buffer.place, u64::from(buffer.size), place) {
            return Spot::InBuffer(number, place - u64::from(buffer.place));
        }
        left = later;
        number += 1;
    }
    Spot::Nowhere
}

/// Which slot lies so far behind where the slots begin.
#[tactic(auto, unfolding(crate::specs::Spot::slot_spot))]
fn slot_spot(into: u64) -> Spot
    ensures { result ≡ slot_spot into }
{
    Spot::Slot(into / u64::from(SLOT_SIZE), into % u64::from(SLOT_SIZE))
}

/// What lies at a place of the memory of a file, whose jobs' lists lie as these layouts say. It
/// takes no memory.
#[tactic(auto, unfolding(crate::specs::Spot::spot_of))]
pub fn spot_of(file: &FileParts, layouts: &[Layout], place: u64) -> Spot
    ensures { result ≡ spot_of (parts_view file.now) layouts.now place }
{
    let regions = &file.regions;
    let slots = u64::from(SLOT_SIZE) * u64::from(regions.tile_slots);
    if is_in(regions.tile_place, slots, place) {
        return slot_spot(place - u64::from(regions.tile_place));
    }
    if is_in(regions.lists_place, u64::from(regions.lists_size), place) {
        return lists_spot(layouts, place);
    }
    buffer_spot(&file.buffers, place)
}
