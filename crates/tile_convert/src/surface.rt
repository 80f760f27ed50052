//! Whole surfaces.
ghost use Rattle.field_words.specs.Questions.{Answers, NeverHidesFault};
ghost use Rattle.tile_convert.specs.Picture.{size_in, surface_bytes, pixel_bytes, IsWithin, IsPictureWithin, IsCopy, IsPicture, IsSurface, length_questions, UntilesWhatWasTiled, TilesWhatWasUntiled};

use crate::copy::{Reordering, copied};
use crate::order::{Order, Picture, picture_size};
use field_words::Stop;
use std::alloc::Global;

/// The source in another order, where it has as many bytes as its own order takes; else the fault
/// is that number of bytes.
fn reordered(alloc: Global, r: Reordering, source: &[u8]) -> Result<Vec<u8>, Stop<u64>>
    requires { IsWithin r.width r.height r.cpp }
    ensures copy { Answers (length_questions source.now (size_in r.from r.width r.height r.cpp))
        (λ target. IsCopy r.from r.to r.width r.height r.cpp source.now target.items) result }
    ensures honest { NeverHidesFault (length_questions source.now
        (size_in r.from r.width r.height r.cpp)) result }
{
    let wanted = picture_size(r.from, r.width, r.height, r.cpp);
    if source.len() as u64 != wanted {
        return Err(Stop::Fault(wanted));
    }
    Ok(copied(alloc, r, source)?)
}

/// The pixels of a surface, `bytes`, of this picture: `width * height * cpp` bytes by rows of
/// pixels, none of them aligned.
///
/// The fault is the size of such a surface in bytes, and comes exactly where `bytes` hasn't that length.
#[tactic(auto, unfolding(crate::specs::Picture::size_in))]
pub fn untile(alloc: Global, picture: Picture, bytes: &[u8]) -> Result<Vec<u8>, Stop<u64>>
    requires { IsPictureWithin picture }
    ensures pixels { Answers (length_questions bytes.now (surface_bytes picture))
        (λ raster. IsPicture picture bytes.now raster.items) result }
    ensures honest { NeverHidesFault (length_questions bytes.now (surface_bytes picture)) result }
{
    let r = Reordering {
        from: Order::Surface(picture.tiling),
        to: Order::Rows,
        width: picture.width,
        height: picture.height,
        cpp: picture.cpp,
    };
    reordered(alloc, r, bytes)
}

/// The surface of this picture, whose pixels by rows are `raster`. The surface's bytes are zero
/// where no pixel lies.
///
/// The fault is `width * height * cpp`, and comes exactly where `raster` hasn't that length.
#[tactic(auto, unfolding(crate::specs::Picture::size_in))]
pub fn tile(alloc: Global, picture: Picture, raster: &[u8]) -> Result<Vec<u8>, Stop<u64>>
    requires { IsPictureWithin picture }
    ensures surface { Answers (length_questions raster.now (pixel_bytes picture))
        (λ surface. IsSurface picture raster.now surface.items) result }
    ensures honest { NeverHidesFault (length_questions raster.now (pixel_bytes picture)) result }
{
    let r = Reordering {
        from: Order::Rows,
        to: Order::Surface(picture.tiling),
        width: picture.width,
        height: picture.height,
        cpp: picture.cpp,
    };
    reordered(alloc, r, raster)
}

/// A law: what [`untile`] gives of what [`tile`] gave of a raster is that raster.
pub fn untile_of_tile()
    ensures { UntilesWhatWasTiled }
{}

/// A law: what [`tile`] gives of what [`untile`] gave of a surface is that surface, wherever its bytes are zero outside its pixels.
pub fn tile_of_untile()
    ensures { TilesWhatWasUntiled }
{}
