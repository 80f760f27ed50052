//! The rules of textures, U2 to U9.
ghost use Rattle.std.specs.Prelude.{◌≡◌, OnOk, false, slice_index, option_map};
ghost use Rattle.field_words.specs.Questions.{GoesOn, first_of};
ghost use Rattle.texture_layouts.specs.Fits.{has_two_strides, lacks_stride, is_unlisted, has_face_past, has_level_below, has_child_image, number_of, texture_rules, direct_questions, AnswersLeast, IsInBuffer};
ghost use Rattle.texture_layouts.specs.Fetch.{AreFetchesIn};
ghost use Rattle.texture_layouts.specs.Setup.{texture_in};

use crate::rule::TextureRule;
use crate::setup::{Texture, cube_stride, is_cube_word, kind};

/// U4: cube mode, and the third and the fourth word both have a cube stride.
#[inline(always)]
#[tactic(auto, unfolding(crate::specs::Fits::has_two_strides))]
pub fn has_two_strides(words: &[u32; 4]) -> bool
    ensures { result ≡ has_two_strides (slice_index words.now 0) (slice_index words.now 2)
        (slice_index words.now 3) }
{
    is_cube_word(words[0]) && kind(words[2]) == 1 && kind(words[3]) == 1
}

/// U5: cube mode, and neither the third nor the fourth word has a cube stride, or it is 0.
#[inline(always)]
#[tactic(auto, unfolding(crate::specs::Fits::lacks_stride))]
pub fn lacks_stride(words: &[u32; 4]) -> bool
    ensures { result ≡ lacks_stride (slice_index words.now 0) (slice_index words.now 2)
        (slice_index words.now 3) }
{
    is_cube_word(words[0]) && cube_stride(words[2], words[3]) == 0
}

/// U7: the pixels of level 0 of some face end past the buffer, which is so exactly where those of
/// the last face do.
#[inline(always)]
#[tactic(auto, using(crate::proofs::Faces::last_decides))]
fn has_face_past(texture: &Texture, size: u32) -> bool
    requires { is_unlisted texture.now ≡ false }
    ensures { result ≡ has_face_past texture.now size }
{
    texture.face_place(texture.faces() - 1) + texture.level_size(0) > u64::from(size)
}

/// U8: levels 1 and up take more bytes than there are below the base.
#[inline(always)]
#[tactic(auto, unfolding(crate::specs::Fits::has_level_below))]
fn has_level_below(texture: &Texture) -> bool
    requires { is_unlisted texture.now ≡ false }
    ensures { result ≡ has_level_below texture.now }
{
    texture.size_below(texture.levels()) > texture.face_place(0)
}

/// U9: the third or the fourth word has a child image.
#[inline(always)]
#[tactic(auto, unfolding(crate::specs::Fits::has_child_image))]
pub fn has_child_image(words: &[u32; 4]) -> bool
    ensures { result ≡ has_child_image (slice_index words.now 2) (slice_index words.now 3) }
{
    kind(words[2]) >= 2 || kind(words[3]) >= 2
}

/// The first of U4 to U9 that is broken.
#[tactic(auto, unfolding(crate::specs::Fits::texture_questions))]
pub fn texture_fault(words: &[u32; 4], size: u32) -> Option<TextureRule>
    ensures { option_map number_of result ≡ first_of (texture_rules words.now size) }
{
    if has_two_strides(words) {
        return Some(TextureRule::TwoStrides);
    }
    if lacks_stride(words) {
        return Some(TextureRule::NoStride);
    }
    let texture = Texture::of(words);
    if texture.is_unlisted() {
        return Some(TextureRule::UnlistedType);
    }
    if has_face_past(&texture, size) {
        return Some(TextureRule::FaceOutside);
    }
    if has_level_below(&texture) {
        return Some(TextureRule::LevelBelow);
    }
    if has_child_image(words) {
        return Some(TextureRule::ChildImage);
    }
    None
}

/// Whether a texture with these set-up words lies in a buffer of `size` bytes and is one that the
/// checker knows. Its base counts from the buffer's start. The fault is the number of the first of
/// U4 to U9 that is broken, which is the least number of all that are broken.
///
/// After `Ok` each level of each face lies in the buffer, and so does whatever is fetched for a pixel.
pub fn texture_fits(p: [u32; 4], size: u32) -> Result<(), u8>
    ensures first { GoesOn (texture_rules p size) (λ _. Unit {0}) result }
    ensures least { AnswersLeast (texture_rules p size) result }
    ensures inside { OnOk result (IsInBuffer (texture_in p) size) }
    ensures fetches { OnOk result (AreFetchesIn (texture_in p) size) }
{
    match texture_fault(&p, size) {
        None => Ok(()),
        Some(rule) => Err(rule.number()),
    }
}

/// The first of U2 and U3 that is broken.
#[inline(always)]
#[tactic(auto, unfolding(crate::specs::Fits::direct_questions))]
pub fn direct_fault(base: u32, bound: u32, size: u32) -> Option<TextureRule>
    ensures { option_map number_of result ≡ first_of (direct_questions base bound size) }
{
    if u64::from(base) + 4 > u64::from(size) {
        return Some(TextureRule::BaseOutside);
    }
    if u64::from(base) + u64::from(bound) + 4 > u64::from(size) {
        return Some(TextureRule::BoundOutside);
    }
    None
}

/// Whether a buffer of `size` bytes may be read at `base` plus an offset of at most `bound`, one
/// word of 4 bytes at a time. The fault is the number of the first of U2 and U3 that is broken, which
/// is the least number of those that are broken.
pub fn direct_fits(base: u32, bound: u32, size: u32) -> Result<(), u8>
    ensures first { GoesOn (direct_questions base bound size) (λ _. Unit {0}) result }
    ensures least { AnswersLeast (direct_questions base bound size) result }
{
    match direct_fault(base, bound, size) {
        None => Ok(()),
        Some(rule) => Err(rule.number()),
    }
}
