//! Commands on pictures: `untile`, `tile` and `level`.
ghost use Rattle.std.specs.Prelude.{◌≡◌, ◌<◌, ◌^◌, length, Some, IfOk, IfSome};
ghost use Rattle.script.specs.Number.{number_within};
ghost use Rattle.texture_layouts.specs.Surface.{IsPixelSize};
ghost use Rattle.tile_convert.specs.Picture.{IsPictureWithin};
ghost use Rattle.commands.specs.{Answer.IsAnswerTo, Cause.IsRefusal};
ghost use Rattle.commands.specs.Pictures.{tiling_named, pixel_by, length_wanted_text, level_refusal};
ghost use Rattle.commands.specs.declared.cause.Cause.TheVariants.{Level as NoLevel, Size};
ghost use Rattle.commands.specs.declared.command.Command.TheVariants.{Untile, Tile, Level};

use super::answer::Answer;
use super::cause::{Cause, level_rule};
use field_words::{NoMemory, Stop};
use rule_words::RuleName;
use script::read_number;
use std::alloc::Global;
use texture_layouts::Tiling;
use tile_convert::{Picture, extract, tile, untile};

/// A level of a face of the texture with these set-up words.
#[derive(Clone, Copy, Debug, PartialEq, Eq)]
pub struct TexturePart {
    pub setup: [u32; 4],
    pub face: u32,
    pub level: u32,
}

/// The tiling that a word names.
pub fn tiling_named(word: &str) -> Option<Tiling>
    ensures { result ≡ tiling_named word.now }
{
    match word {
        "t" => Some(Tiling::T),
        "lt" => Some(Tiling::Lt),
        _ => None,
    }
}

/// The bytes of a pixel that a word names.
pub fn pixel_named(word: &str) -> Option<u32>
    ensures value { result ≡ pixel_by (number_within 8 word.now) }
    ensures size { IfSome result IsPixelSize }
{
    match read_number(word.as_bytes(), 8)? {
        1 => Some(1),
        2 => Some(2),
        4 => Some(4),
        8 => Some(8),
        _ => None,
    }
}

// The refusal by this rule of a level.
#[tactic(auto, unfolding(crate::specs::Pictures::level_refusal))]
fn level_refused(alloc: Global, name: RuleName) -> Result<Answer, NoMemory>
    ensures { IfOk result (IsRefusal (level_refusal name) (Some (NoLevel name))) }
{
    let text = format!(in alloc; "refused {name} at 0\n")?.into_bytes();
    Ok(Answer::refused(text, Some(Cause::Level(name))))
}

// The refusal of so many bytes where another number is wanted.
#[tactic(auto, unfolding(crate::specs::Pictures::length_wanted_text))]
fn size_refused(alloc: Global, length: usize, wanted: u64) -> Result<Answer, NoMemory>
    ensures { IfOk result (IsRefusal (length_wanted_text length wanted)
        (Some (Size length wanted))) }
{
    let text = format!(in alloc; "length {length} wants {wanted}\n")?.into_bytes();
    Ok(Answer::refused(text, Some(Cause::Size(length as u64, wanted))))
}

/// What `untile` answers to a surface: its pixels by rows, or how many bytes are wanted.
pub fn untile_answer(alloc: Global, picture: Picture, bytes: &[u8]) -> Result<Answer, NoMemory>
    requires { IsPictureWithin picture }
    ensures { IfOk result (IsAnswerTo (Untile picture) bytes.now) }
{
    match untile(alloc, picture, bytes) {
        Ok(pixels) => Ok(Answer::done(pixels)),
        Err(Stop::Fault(wanted)) => size_refused(alloc, bytes.len(), wanted),
        Err(Stop::NoMemory) => Err(NoMemory),
    }
}

/// What `tile` answers to pixels by rows: their surface, or how many bytes are wanted.
pub fn tile_answer(alloc: Global, picture: Picture, bytes: &[u8]) -> Result<Answer, NoMemory>
    requires { IsPictureWithin picture }
    ensures { IfOk result (IsAnswerTo (Tile picture) bytes.now) }
{
    match tile(alloc, picture, bytes) {
        Ok(surface) => Ok(Answer::done(surface)),
        Err(Stop::Fault(wanted)) => size_refused(alloc, bytes.len(), wanted),
        Err(Stop::NoMemory) => Err(NoMemory),
    }
}

/// What `level` answers to a buffer that has a texture: the level's pixels by rows, or its blocks, or the first broken rule.
pub fn level_answer(alloc: Global, part: TexturePart, bytes: &[u8]) -> Result<Answer, NoMemory>
    requires { length bytes.now < 2 ^ 32 }
    ensures { IfOk result (IsAnswerTo (Level part) bytes.now) }
{
    match extract(alloc, part.setup, bytes, part.face, part.level) {
        Ok(text) => Ok(Answer::done(text)),
        Err(Stop::Fault(fault)) => level_refused(alloc, level_rule(&fault)),
        Err(Stop::NoMemory) => Err(NoMemory),
    }
}
