//! How the pixels of a frame's surfaces lie, by the bits of the packets that load and store them.
ghost use Rattle.std.specs.Prelude.{◌≡◌, IfSome};
ghost use Rattle.texture_layouts.specs.Format.{tiling_named, general_tiling, general_pixel, frame_tiling, frame_pixel, style_named, general_style, frame_style, IsShort};

use crate::surface::Tiling;
use field_words::field;

/// In which tiling a surface's pixels lie, and how many bytes each of them takes.
#[derive(Clone, Copy, Debug, PartialEq, Eq)]
pub struct Style {
    pub tiling: Tiling,
    pub cpp: u32,
}

/// The tiling of this number; there is none of number 3.
fn tiling_named(number: u64) -> Option<Tiling>
    ensures { result ≡ tiling_named number }
{
    match number {
        0 => Some(Tiling::Raster),
        1 => Some(Tiling::T),
        2 => Some(Tiling::Lt),
        _ => None,
    }
}

/// The tiling by the bits of a general load or store; `None` where there is no such.
#[tactic(auto, unfolding(crate::specs::Format::general_tiling))]
pub fn general_tiling(bits: u16) -> Option<Tiling>
    ensures { result ≡ general_tiling bits }
{
    tiling_named(field(u64::from(bits), 5, 4))
}

/// The bytes of a pixel by those bits; `None` where there is no such buffer, or no such format of it.
#[tactic(auto, unfolding(crate::specs::Format::general_pixel))]
pub fn general_pixel(bits: u16) -> Option<u32>
    ensures value { result ≡ general_pixel bits }
    ensures short { IfSome result IsShort }
{
    let word = u64::from(bits);
    match (field(word, 2, 0), field(word, 9, 8)) {
        (1, 0) | (2, 0) => Some(4),
        (1, 3) => None,
        (1, _) => Some(2),
        _ => None,
    }
}

/// The tiling by the frame's bits; `None` where there is no such.
#[tactic(auto, unfolding(crate::specs::Format::frame_tiling))]
pub fn frame_tiling(bits: u16) -> Option<Tiling>
    ensures { result ≡ frame_tiling bits }
{
    tiling_named(field(u64::from(bits), 7, 6))
}

/// The bytes of a pixel by the frame's bits; `None` where there is no such format.
#[tactic(auto, unfolding(crate::specs::Format::frame_pixel))]
pub fn frame_pixel(bits: u16) -> Option<u32>
    ensures value { result ≡ frame_pixel bits }
    ensures short { IfSome result IsShort }
{
    match field(u64::from(bits), 3, 2) {
        1 => Some(4),
        3 => None,
        _ => Some(2),
    }
}

/// A style of this tiling and pixel, where there are both.
pub fn styled(tiling: Option<Tiling>, pixel: Option<u32>) -> Option<Style>
    requires { IfSome pixel IsShort }
    ensures value { result ≡ style_named tiling pixel }
    ensures short { IfSome result (λ style. IsShort style.cpp) }
{
    Some(Style {
        tiling: tiling?,
        cpp: pixel?,
    })
}

/// How pixels lie by the bits of a general load or store.
pub fn general_style(bits: u16) -> Option<Style>
    ensures value { result ≡ general_style bits }
    ensures short { IfSome result (λ style. IsShort style.cpp) }
{
    styled(general_tiling(bits), general_pixel(bits))
}

/// How pixels lie by the frame's bits.
pub fn frame_style(bits: u16) -> Option<Style>
    ensures value { result ≡ frame_style bits }
    ensures short { IfSome result (λ style. IsShort style.cpp) }
{
    styled(frame_tiling(bits), frame_pixel(bits))
}
