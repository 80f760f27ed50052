//! Copying pictures, a row of a microtile at a time.
ghost use Rattle.std.specs.Prelude.{◌≡◌, ◌<◌, ◌≤◌, ◌+◌, ℕ, List, length, IfOk};
ghost use Rattle.field_words.specs.Writes.{with_bytes};
ghost use Rattle.tile_convert.specs.Picture.{size_in, IsWithin, IsCopy};
ghost use Rattle.tile_convert.specs.Steps.{IsPartCopied, IsCopied, HasRow};

use crate::order::{Order, part_offset, parts_across, picture_size, pixels_there, row_start};
use field_words::NoMemory;
use std::alloc::Global;

/// A picture of `width` times `height` pixels of `cpp` bytes, which goes from one order to
/// another.
#[derive(Clone, Copy)]
pub(crate) struct Reordering {
    pub(crate) from: Order,
    pub(crate) to: Order,
    pub(crate) width: u32,
    pub(crate) height: u32,
    pub(crate) cpp: u32,
}

/// Puts bytes at a place. No other byte changes.
fn put(part: &[u8], target: &mut [u8], to: usize)
    requires { to + length part.now ≤ length target.old }
    ensures { target.new ≡ with_bytes target.old to part.now }
{
    let end = to + part.len();
    target[to..end].copy_from_slice(part);
}

/// Copies `count` bytes from one place to another. No other byte changes.
fn copy_part(source: &[u8], from: usize, target: &mut [u8], to: usize, count: usize)
    requires source { from + count ≤ length source.now }
    requires target { to + count ≤ length target.old }
    ensures { IsPartCopied source.now from target.old to count target.new }
{
    let end = from + count;
    put(&source[from..end], target, to);
}

/// Copies the pixels of row `y`, those of one microtile after the other.
fn copy_row(r: Reordering, y: u32, source: &[u8], target: &mut [u8])
    requires within { IsWithin r.width r.height r.cpp }
    requires row { y < r.height }
    requires source { HasRow r.from r.width r.cpp y (length source.now) }
    requires target { HasRow r.to r.width r.cpp y (length target.old) }
    ensures { (old : List ℕ) → IsCopied r.from r.to r.width r.cpp source.now old target.old 0 y
        → IsCopied r.from r.to r.width r.cpp source.now old target.new 0 (y + 1) }
{
    let source_row = row_start(r.from, r.width, r.cpp, y);
    let target_row = row_start(r.to, r.width, r.cpp, y);
    for mx in 0..parts_across(r.width, r.cpp) {
        let count = (pixels_there(r.width, r.cpp, mx) * r.cpp) as usize;
        let source_at = (source_row + part_offset(r.from, r.cpp, mx)) as usize;
        let target_at = (target_row + part_offset(r.to, r.cpp, mx)) as usize;
        copy_part(source, source_at, target, target_at, count);
    }
}

/// Copies all pixels, by rows.
fn copy_rows(r: Reordering, source: &[u8], target: &mut [u8])
    requires within { IsWithin r.width r.height r.cpp }
    requires source { length source.now ≡ size_in r.from r.width r.height r.cpp }
    requires target { length target.old ≡ size_in r.to r.width r.height r.cpp }
    ensures { IsCopied r.from r.to r.width r.cpp source.now target.old target.new 0 r.height }
{
    for y in 0..r.height {
        copy_row(r, y, source, target);
    }
}

/// The picture in another order. Bytes that belong to no pixel are zero.
pub(crate) fn copied(alloc: Global, r: Reordering, source: &[u8]) -> Result<Vec<u8>, NoMemory>
    requires within { IsWithin r.width r.height r.cpp }
    requires source { length source.now ≡ size_in r.from r.width r.height r.cpp }
    ensures { IfOk result (λ target. IsCopy r.from r.to r.width r.height r.cpp
        source.now target.items) }
{
    let mut target = vec![in alloc; 0u8; picture_size(r.to, r.width, r.height, r.cpp) as usize]?;
    copy_rows(r, source, &mut target);
    Ok(target)
}
