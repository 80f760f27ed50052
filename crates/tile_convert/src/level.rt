//! One level of a texture.
ghost use Rattle.std.specs.Prelude.{◌≡◌, ◌<◌, ◌≤◌, ◌+◌, ◌^◌, false, Some, None, length, take, drop, IfOk};
ghost use Rattle.field_words.specs.Questions.{first_of, Answers, NeverHidesFault};
ghost use Rattle.texture_layouts.specs.Fits.{is_unlisted, IsInBuffer};
ghost use Rattle.texture_layouts.specs.Setup.{texture_in, faces_of, size_at, level_place_of};
ghost use Rattle.tile_convert.specs.Level.{part_questions, level_rules, IsLevelPicture};

use crate::copy::{Reordering, copied};
use crate::order::Order;
use field_words::{NoMemory, Stop};
use std::alloc::Global;
use texture_layouts::{Texture, texture_fits};
use thiserror::Error;

/// Why a buffer has no such level.
#[derive(Clone, Copy, Debug, PartialEq, Eq, Error)]
pub enum LevelFault {
    /// The texture doesn't lie in the buffer, or is none that the checker knows: the number of the first broken rule of
    /// textures.
    #[error("U{0}")]
    Texture(u8),
    /// The texture hasn't so many faces.
    #[error("V1")]
    Face,
    /// The texture hasn't so many levels.
    #[error("V2")]
    Level,
}

/// The first of the two rules on the part that is asked for.
#[tactic(auto, unfolding(crate::specs::Level::part_questions))]
fn part_fault(texture: &Texture, face: u32, level: u32) -> Option<LevelFault>
    ensures { result ≡ first_of (part_questions texture.now face level) }
{
    if face >= texture.faces() {
        return Some(LevelFault::Face);
    }
    if level > texture.levels() {
        return Some(LevelFault::Level);
    }
    None
}

/// The first broken rule.
fn level_fault(p: [u32; 4], size: u32, face: u32, level: u32) -> Option<LevelFault>
    ensures { result ≡ first_of (level_rules p size face level) }
{
    match texture_fits(p, size) {
        Err(number) => Some(LevelFault::Texture(number)),
        Ok(()) => part_fault(&Texture::of(&p), face, level),
    }
}

/// The bytes of a level that lies in the buffer.
#[tactic(auto, using(crate::proofs::Levels::faces_few, crate::proofs::Levels::same_count))]
fn level_part<'a>(texture: &Texture, bytes: &'a [u8], face: u32, level: u32) -> &'a [u8]
    requires listed { is_unlisted texture.now ≡ false }
    requires inside { IsInBuffer texture.now (length bytes.now) }
    requires face { face < faces_of texture.now }
    requires level { level ≤ texture.now.levels }
    ensures { result.now ≡ take (size_at texture.now level)
        (drop (level_place_of texture.now face level) bytes.now) }
{
    let Some(place) = texture.level_place(face, level) else {
        unreachable!();
    };
    let end = place + texture.level_size(level);
    &bytes[place as usize..end as usize]
}

/// The picture of a level that lies in the buffer.
fn level_picture(
    alloc: Global,
    texture: &Texture,
    bytes: &[u8],
    face: u32,
    level: u32,
) -> Result<Vec<u8>, NoMemory>
    requires listed { is_unlisted texture.now ≡ false }
    requires inside { IsInBuffer texture.now (length bytes.now) }
    requires face { face < faces_of texture.now }
    requires level { level ≤ texture.now.levels }
    ensures { IfOk result (λ raster. IsLevelPicture texture.now face level bytes.now raster.items) }
{
    let part = level_part(texture, bytes, face, level);
    let r = Reordering {
        from: Order::Surface(texture.level_tiling(level)),
        to: Order::Rows,
        width: texture.level_width(level),
        height: texture.level_height(level),
        cpp: texture.pixel_bytes(),
    };
    copied(alloc, r, part)
}

/// One level of a face of the texture with these set-up words, whose base counts from the start of `bytes`: its pixels by rows, or
/// its blocks of 4x4 pixels for ETC1, of 8 bytes each.
///
/// [`LevelFault::Texture`] comes exactly where [`texture_fits`] refuses, with its number; else [`LevelFault::Face`] exactly where
/// `face` is over 5 in cube mode, or over 0 without; else [`LevelFault::Level`] exactly where `level` is over the texture's levels.
pub fn extract(
    alloc: Global,
    p: [u32; 4],
    bytes: &[u8],
    face: u32,
    level: u32,
) -> Result<Vec<u8>, Stop<LevelFault>>
    requires { length bytes.now < 2 ^ 32 }
    ensures picture { Answers (level_rules p (length bytes.now) face level)
        (λ rows. IsLevelPicture (texture_in p) face level bytes.now rows.items) result }
    ensures honest { NeverHidesFault (level_rules p (length bytes.now) face level) result }
{
    let texture = Texture::of(&p);
    match level_fault(p, bytes.len() as u32, face, level) {
        Some(fault) => Err(Stop::Fault(fault)),
        None => Ok(level_picture(alloc, &texture, bytes, face, level)?),
    }
}
