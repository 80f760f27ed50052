//! Textures, as their set-up words describe them.
#![tactic(auto, unfolding(crate::proofs::Opened::setup))]

ghost use Rattle.std.specs.Prelude.{◌≡◌, ◌<◌, ◌≤◌, ◌+◌, ◌*◌, ◌^◌, ◌⊎◌, false};
ghost use Rattle.std.specs.Option.{SomeIff};
ghost use Rattle.texture_layouts.specs.Surface.{IsPixelSize};
ghost use Rattle.texture_layouts.specs.Setup.{base_of, is_cube_word, levels_of, type_of, kind_of, stride_of, cube_stride_of, pixel_bytes_of, pixels_of, side_of, faces_of, face_place, level_width_of, level_height_of, tiling_at, size_at, size_below, level_place_of};

use crate::level::{level_side, level_size, level_tiling};
use crate::surface::Tiling;
use field_words::{PAGE_SIZE, field};
use std::marker::Model;

/// Where the pixels of a texture lie, as its four set-up words say.
///
/// A texture has one face, or six in cube mode. A face's own pixels (its level 0) stand at
/// [`face_place`](Texture::face_place), and its further levels one below the other below them.
#[derive(Drop)]
pub struct Texture {
    base: u32,
    is_cube: bool,
    stride: u32,
    levels: u32,
    width: u32,
    height: u32,
    cpp: u32,
    is_raster: bool,
}

impl Model for Texture {
    ghost use Rattle.texture_layouts.specs.Setup.{TextureModel, IsTexture};

    ghost Value = { TextureModel };

    ghost view = { λ t. record {
      base = t.base;
      is_cube = t.is_cube;
      stride = t.stride;
      levels = t.levels;
      width = t.width;
      height = t.height;
      cpp = t.cpp;
      is_raster = t.is_raster;
    } };

    ghost invariant = { λ t. IsTexture
        (record {
          base = t.base;
          is_cube = t.is_cube;
          stride = t.stride;
          levels = t.levels;
          width = t.width;
          height = t.height;
          cpp = t.cpp;
          is_raster = t.is_raster;
        }) };
}

impl Texture {
    ghost use Rattle.texture_layouts.specs.Setup.{IsTexture, texture_in};
    ghost use Rattle.texture_layouts.specs.Fits.{is_unlisted};

    /// The texture that these four set-up words describe. A word that isn't there is 0.
    #[inline(always)]
    pub fn of(words: &[u32; 4]) -> Texture
        ensures decoded { result ≡ texture_in words.now }
        ensures sound { IsTexture result }
    {
        let kind = texture_type(words[0], words[1]);
        Texture {
            base: base(words[0]),
            is_cube: is_cube_word(words[0]),
            stride: cube_stride(words[2], words[3]),
            levels: levels(words[0]),
            width: side(kind, field(u64::from(words[1]), 18, 8)),
            height: side(kind, field(u64::from(words[1]), 30, 20)),
            cpp: pixel_bytes(kind),
            is_raster: kind == 16,
        }
    }

    /// How many faces there are: 6 in cube mode, else 1.
    #[inline(always)]
    pub fn faces(&self) -> u32
        ensures value { result ≡ faces_of self.now }
        ensures some { 1 ≤ result }
        ensures limit { result ≤ 6 }
    {
        if self.is_cube { 6 } else { 1 }
    }

    /// How many levels there are beside level 0.
    #[inline(always)]
    pub fn levels(&self) -> u32
        ensures value { result ≡ self.now.levels }
        ensures limit { result ≤ 15 }
    {
        self.levels
    }

    /// Whether the type is none of the listed ones, so that a pixel has no size.
    #[inline(always)]
    pub fn is_unlisted(&self) -> bool
        ensures { result ≡ is_unlisted self.now }
    {
        self.cpp == 0
    }

    /// The bytes of a pixel, or of a block of 4x4 pixels of ETC1.
    pub fn pixel_bytes(&self) -> u32
        requires { is_unlisted self.now ≡ false }
        ensures value { result ≡ self.now.cpp }
        ensures pixel { IsPixelSize result }
    {
        self.cpp
    }

    /// The width of a level, in pixels or blocks.
    pub fn level_width(&self, level: u32) -> u32
        requires { level ≤ self.now.levels }
        ensures value { result ≡ level_width_of self.now level }
        ensures positive { 1 ≤ result }
        ensures limit { result ≤ 2048 }
    {
        let _levels = self.levels;
        level_side(self.width, level)
    }

    /// The height of a level, in pixels or blocks.
    pub fn level_height(&self, level: u32) -> u32
        requires { level ≤ self.now.levels }
        ensures value { result ≡ level_height_of self.now level }
        ensures positive { 1 ≤ result }
        ensures limit { result ≤ 2048 }
    {
        let _levels = self.levels;
        level_side(self.height, level)
    }

    /// The tiling of a level.
    pub fn level_tiling(&self, level: u32) -> Tiling
        requires level { level ≤ self.now.levels }
        requires listed { is_unlisted self.now ≡ false }
        ensures { result ≡ tiling_at self.now level }
    {
        let _levels = self.levels;
        let width = level_side(self.width, level);
        let height = level_side(self.height, level);
        level_tiling(self.is_raster, width, height, self.cpp)
    }

    /// The bytes of a level of one face.
    #[inline(always)]
    pub fn level_size(&self, level: u32) -> u64
        requires level { level ≤ self.now.levels }
        requires listed { is_unlisted self.now ≡ false }
        ensures value { result ≡ size_at self.now level }
        ensures limit { result < 2 ^ 36 }
    {
        let _levels = self.levels;
        level_size(self.is_raster, self.width, self.height, self.cpp, level)
    }

    /// Where the pixels of level 0 of a face begin.
    #[inline(always)]
    pub fn face_place(&self, face: u32) -> u64
        requires { face < 6 }
        ensures value { result ≡ face_place self.now face }
        ensures limit { result < 2 ^ 34 }
    {
        u64::from(self.base) + u64::from(face) * u64::from(self.stride)
    }

    /// The bytes of levels 1 to `levels` of one face, which lie below its level 0.
    #[tactic(auto, using(crate::proofs::Levels::below_none, crate::proofs::Levels::below_more))]
    pub fn size_below(&self, levels: u32) -> u64
        requires level { levels ≤ self.now.levels }
        requires listed { is_unlisted self.now ≡ false }
        ensures value { result ≡ size_below self.now levels }
        ensures limit { result < 2 ^ 40 }
    {
        let most = self.levels();
        prove!(levels <= most);
        let mut below = 0;
        for level in 0..levels {
            below += self.level_size(level + 1);
        }
        below
    }

    /// Where a level of a face begins. `None` comes exactly where that is below 0, since the levels
    /// from 1 to this one take more bytes than there are below the face.
    pub fn level_place(&self, face: u32, level: u32) -> Option<u64>
        requires face { face < 6 }
        requires level { level ≤ self.now.levels }
        requires listed { is_unlisted self.now ≡ false }
        ensures { SomeIff result (size_below self.now level ≤ face_place self.now face)
            (level_place_of self.now face level) }
    {
        let place = self.face_place(face);
        let below = self.size_below(level);
        if below <= place {
            Some(place - below)
        } else {
            None
        }
    }
}

/// Where the pixels of level 0 of the first face begin.
fn base(word: u32) -> u32
    ensures value { result ≡ base_of word }
    ensures limit { result ≤ 4294963200 }
{
    PAGE_SIZE * field(u64::from(word), 31, 12) as u32
}

/// Whether the first set-up word asks for a cube map.
pub(crate) fn is_cube_word(word: u32) -> bool
    ensures { result ≡ is_cube_word word }
{
    field(u64::from(word), 9, 9) == 1
}

fn levels(word: u32) -> u32
    ensures value { result ≡ levels_of word }
    ensures limit { result ≤ 15 }
{
    field(u64::from(word), 3, 0) as u32
}

fn texture_type(first: u32, second: u32) -> u64
    ensures value { result ≡ type_of first second }
    ensures limit { result ≤ 31 }
{
    field(u64::from(first), 7, 4) + 16 * field(u64::from(second), 31, 31)
}

pub(crate) fn kind(word: u32) -> u64
    ensures { result ≡ kind_of word }
{
    field(u64::from(word), 31, 30)
}

fn stride(word: u32) -> u32
    ensures value { result ≡ stride_of word }
    ensures limit { result ≤ 1073737728 }
{
    PAGE_SIZE * field(u64::from(word), 29, 12) as u32
}

/// From the pixels of a face to those of the next; 0 where neither word names a cube stride.
pub(crate) fn cube_stride(third: u32, fourth: u32) -> u32
    ensures value { result ≡ cube_stride_of third fourth }
    ensures limit { result ≤ 1073737728 }
{
    if kind(third) == 1 {
        stride(third)
    } else if kind(fourth) == 1 {
        stride(fourth)
    } else {
        0
    }
}

/// The bytes of a pixel, or of a block of 4x4 pixels of ETC1; 0 where the type isn't listed.
fn pixel_bytes(kind: u64) -> u32
    ensures value { result ≡ pixel_bytes_of kind }
    ensures listed { (result ≡ 0) ⊎ IsPixelSize result }
{
    match kind {
        0 | 1 | 16 => 4,
        2 | 3 | 4 | 7 | 9 | 11 => 2,
        5 | 6 | 10 => 1,
        8 => 8,
        _ => 0,
    }
}

/// A side in pixels by its field of 11 bits.
fn pixels(field: u64) -> u32
    requires { field ≤ 2047 }
    ensures value { result ≡ pixels_of field }
    ensures positive { 1 ≤ result }
    ensures limit { result ≤ 2048 }
{
    if field == 0 { 2048 } else { field as u32 }
}

/// A side in pixels, or in blocks of 4x4 pixels of ETC1.
fn side(kind: u64, field: u64) -> u32
    requires { field ≤ 2047 }
    ensures value { result ≡ side_of kind field }
    ensures positive { 1 ≤ result }
    ensures limit { result ≤ 2048 }
{
    let pixels = pixels(field);
    if kind == 8 {
        pixels.div_ceil(4)
    } else {
        pixels
    }
}
