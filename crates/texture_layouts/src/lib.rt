//! Where the pixels of surfaces and textures lie: tilings, aligned sizes and places, and whether a
//! texture lies in its buffer.
//!
//! [`Texture`] is what four set-up words say. [`texture_fits`] and [`direct_fits`] ask the rules of
//! samples; what they answer is the number of the first [`TextureRule`] that is broken. Nothing here takes
//! memory.
#![tactic(auto)]

mod fetch;
mod fits;
mod format;
mod level;
mod place;
mod rule;
mod setup;
mod surface;

pub use fits::{
    direct_fault, direct_fits, has_child_image, has_two_strides, lacks_stride, texture_fault,
    texture_fits,
};
pub use format::{
    Style, frame_pixel, frame_style, frame_tiling, general_pixel, general_style, general_tiling,
    styled,
};
pub use level::level_size;
pub use place::{microtile_place, pixel_place};
pub use rule::TextureRule;
pub use setup::Texture;
pub use surface::{Tiling, microtile_height, microtile_width, surface_size, tiling_of};
