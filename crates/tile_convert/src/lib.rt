//! Surfaces and levels of textures to rows of pixels, and back.
//!
//! A picture's pixels lie by rows in a raster of its own width, or in a surface as its tiling orders them. [`untile`] and [`tile`]
//! move a whole picture between the two, and [`extract`] takes one level of a texture. In `specs/`, `Picture` says byte by byte what
//! each gives. The code copies the rows of microtiles, whose pixels stand together in both orders.
#![tactic(auto)]

mod copy;
mod level;
mod order;
mod surface;

pub use level::{LevelFault, extract};
pub use order::Picture;
pub use surface::{tile, tile_of_untile, untile, untile_of_tile};
