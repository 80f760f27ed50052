//! Parts of a memory by ascending place.
ghost use Rattle.std.specs.Prelude.{◌≡◌, ◌≤◌, length, OnOk};
ghost use Rattle.dumper.specs.Parts.{part_inserted, GoesAt};

use field_words::NoMemory;
use std::borrow::CowSlice;

/// Bytes of a memory and the place of the first.
#[derive(Drop)]
pub struct Span<'a> {
    pub place: u32,
    pub bytes: CowSlice<'a, u8>,
}

ghost use Rattle.dumper.specs.Spans.{part_of, parts_of};

/// Where a part at this place goes among ascending ones: before the first that begins behind it.
fn place_among(spans: &Vec<Span>, place: u32) -> usize
    ensures upto { result ≤ length spans.now.items }
    ensures place { GoesAt place (parts_of spans.now.items) result }
{
    let mut at = 0;
    while at < spans.len() && spans[at].place <= place {
        at += 1;
    }
    at
}

/// Puts a part before the first that begins behind it.
pub fn insert_span<'a>(spans: &mut Vec<Span<'a>>, span: Span<'a>) -> Result<(), NoMemory>
    ensures { OnOk result (parts_of spans.new.items
        ≡ part_inserted (part_of span.entry) (parts_of spans.old.items)) }
{
    let at = place_among(spans, span.place);
    spans.insert(at, span)?;
    Ok(())
}
