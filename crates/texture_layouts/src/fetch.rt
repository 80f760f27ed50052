//! What is fetched of a texture for one pixel: its whole microtile, or in raster the pixel alone.
ghost use Rattle.std.specs.Prelude.{◌≡◌, ◌<◌, ◌≤◌, ◌^◌, false};
ghost use Rattle.texture_layouts.specs.Surface.{IsPixelSize};
ghost use Rattle.texture_layouts.specs.Fetch.{fetch_offset_of, fetch_size_of};

use crate::place::{microtile_place, raster_place};
use crate::setup::Texture;
use crate::surface::{Tiling, microtile_height, microtile_width};

/// Where the fetch for a pixel begins in its image.
#[tactic(auto, unfolding(crate::specs::Fetch::fetch_offset_of))]
fn fetch_offset(tiling: Tiling, width: u32, cpp: u32, x: u32, y: u32) -> u64
    requires width_limit { width ≤ 65535 }
    requires pixel { IsPixelSize cpp }
    ensures value { result ≡ fetch_offset_of tiling width cpp x y }
    ensures limit { result < 2 ^ 56 }
{
    let mx = x / microtile_width(cpp);
    let my = y / microtile_height(cpp);
    match tiling {
        Tiling::Raster => raster_place(width, cpp, x, y),
        Tiling::T => microtile_place(Tiling::T, width, cpp, mx, my),
        Tiling::Lt => microtile_place(Tiling::Lt, width, cpp, mx, my),
    }
}

impl Texture {
    ghost use Rattle.texture_layouts.specs.Setup.{tiling_at};
    ghost use Rattle.texture_layouts.specs.Fits.{is_unlisted};
    ghost use Rattle.texture_layouts.specs.Fetch.{fetch_reach, fetch_place_of};

    /// Where the fetch for a pixel of a level would begin if the level stood where the face's level 0
    /// does.
    #[tactic(auto, unfolding(crate::specs::Fetch::fetch_reach))]
    fn fetch_reach(&self, face: u32, level: u32, x: u32, y: u32) -> u64
        requires face { face < 6 }
        requires level { level ≤ self.now.levels }
        requires listed { is_unlisted self.now ≡ false }
        ensures value { result ≡ fetch_reach self.now face level x y }
        ensures limit { result < 2 ^ 57 }
    {
        let tiling = self.level_tiling(level);
        let width = self.level_width(level);
        self.face_place(face) + fetch_offset(tiling, width, self.pixel_bytes(), x, y)
    }

    /// Where the fetch for a pixel of a level of a face begins. `None` comes exactly where that is below
    /// 0, since the levels from 1 to this one take more bytes than there are below the pixel's place in
    /// the face.
    #[tactic(auto, unfolding(crate::specs::Fetch::fetch_place_of))]
    pub fn fetch_place(&self, face: u32, level: u32, x: u32, y: u32) -> Option<u64>
        requires face { face < 6 }
        requires level { level ≤ self.now.levels }
        requires listed { is_unlisted self.now ≡ false }
        ensures { result ≡ fetch_place_of self.now face level x y }
    {
        let reach = self.fetch_reach(face, level, x, y);
        let below = self.size_below(level);
        if reach < below {
            return None;
        }
        Some(reach - below)
    }

    /// The bytes of a fetch of a level: 64 of a microtile, or in raster those of a pixel.
    #[tactic(auto, unfolding(crate::specs::Fetch::fetch_size_of))]
    pub fn fetch_size(&self, level: u32) -> u32
        requires level { level ≤ self.now.levels }
        requires listed { is_unlisted self.now ≡ false }
        ensures { result ≡ fetch_size_of (tiling_at self.now level) self.now.cpp }
    {
        match self.level_tiling(level) {
            Tiling::Raster => self.pixel_bytes(),
            Tiling::T | Tiling::Lt => 64,
        }
    }
}
