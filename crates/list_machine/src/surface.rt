//! What part of a surface a load or store covers.
use crate::state::Frame;
use texture_layouts::Tiling;

/// What a load or store of one tile covers: parts of `size` bytes each, `across` of them side by side
/// and `down` such rows. A part is a microtile, or in raster the covered pixels of one row.
///
/// `base` is the surface's place, `wide` its width in pixels, and the first part stands at `left` and
/// `top`, which count microtiles, or in raster pixels.
#[derive(Clone, Copy, Debug, PartialEq, Eq)]
pub struct Cover {
    pub tiling: Tiling,
    pub base: u32,
    pub cpp: u32,
    pub wide: u16,
    pub left: u32,
    pub top: u32,
    pub across: u32,
    pub down: u32,
    pub size: u32,
}

/// A tile of the frame, where one is set.
#[derive(Clone, Copy, Debug, PartialEq, Eq)]
pub struct Tile {
    pub frame: Option<Frame>,
    pub x: u8,
    pub y: u8,
}
