//! What a line says of a uniform.
ghost use Rattle.std.specs.Prelude.{◌≡◌, ◌++◌, false, OnOk};
ghost use Rattle.texture_layouts.specs.Fits.{is_unlisted};
ghost use Rattle.job_text.specs.Uniforms.{listed_text, pixel_text, named_number, base_text, sides_text, setup_text, sample_text, meaning_text};

use crate::meanings::tiling_name;
use crate::names::put_named;
use crate::note::Meaning;
use crate::numbers::put_number;
use std::alloc::AllocError;
use texture_layouts::Texture;

// Appends how the pixels of a texture of a listed type lie.
#[tactic(auto, unfolding(crate::specs::Uniforms::listed_text))]
fn put_listed(out: &mut Vec<u8>, texture: &Texture) -> Result<(), AllocError>
    requires { is_unlisted texture.now ≡ false }
    ensures { OnOk result (out.new.items ≡ out.old.items ++ listed_text texture.now) }
{
    let tiling = texture.level_tiling(0);
    out.extend_from_slice(b", ")?;
    out.extend_from_slice(tiling_name(tiling).as_bytes())?;
    out.extend_from_slice(b" tiling, ")?;
    put_number(out, texture.pixel_bytes() as usize)?;
    out.extend_from_slice(b" bytes a pixel or block")?;
    Ok(())
}

#[tactic(auto, unfolding(crate::specs::Uniforms::pixel_text))]
fn put_pixel(out: &mut Vec<u8>, texture: &Texture) -> Result<(), AllocError>
    ensures { OnOk result (out.new.items ≡ out.old.items ++ pixel_text texture.now) }
{
    if texture.is_unlisted() {
        return out.extend_from_slice(b", no listed type");
    }
    put_listed(out, texture)
}

#[tactic(auto, unfolding(crate::specs::Uniforms::named_number))]
fn put_named_number(out: &mut Vec<u8>, name: &[u8], number: usize) -> Result<(), AllocError>
    ensures { OnOk result (out.new.items ≡ out.old.items ++ named_number name.now number) }
{
    out.extend_from_slice(name)?;
    put_number(out, number)?;
    Ok(())
}

#[tactic(auto, unfolding(crate::specs::Uniforms::base_text))]
fn put_base(out: &mut Vec<u8>, texture: &Texture) -> Result<(), AllocError>
    ensures { OnOk result (out.new.items ≡ out.old.items ++ base_text texture.now) }
{
    put_named_number(out, b"texture base ", texture.face_place(0) as usize)?;
    put_named_number(out, b", faces ", texture.faces() as usize)?;
    put_named_number(out, b", levels below ", texture.levels() as usize)?;
    Ok(())
}

#[tactic(auto, unfolding(crate::specs::Uniforms::sides_text))]
fn put_sides(out: &mut Vec<u8>, texture: &Texture) -> Result<(), AllocError>
    ensures { OnOk result (out.new.items ≡ out.old.items ++ sides_text texture.now) }
{
    put_named_number(out, b"width ", texture.level_width(0) as usize)?;
    put_named_number(out, b", height ", texture.level_height(0) as usize)?;
    put_pixel(out, texture)?;
    Ok(())
}

// Appends what the set-up word of a number says.
#[tactic(auto, unfolding(crate::specs::Uniforms::setup_text))]
fn put_setup(out: &mut Vec<u8>, number: u8, words: &[u32; 4]) -> Result<(), AllocError>
    ensures { OnOk result (out.new.items ≡ out.old.items ++ setup_text number words.now) }
{
    let texture = Texture::of(words);
    if number == 0 {
        return put_base(out, &texture);
    }
    if number == 1 {
        return put_sides(out, &texture);
    }
    out.extend_from_slice(b"further set-up word")
}

#[tactic(auto, unfolding(crate::specs::Uniforms::sample_text))]
fn put_sample(out: &mut Vec<u8>, sample: u32) -> Result<(), AllocError>
    ensures { OnOk result (out.new.items ≡ out.old.items ++ sample_text sample) }
{
    out.extend_from_slice(b"sample ")?;
    put_number(out, sample as usize)?;
    out.extend_from_slice(b" ")
}

/// Appends what a shader makes of a word of its uniforms.
#[tactic(auto, unfolding(crate::specs::Uniforms::meaning_text))]
pub(crate) fn put_use(out: &mut Vec<u8>, meaning: Meaning) -> Result<(), AllocError>
    ensures { OnOk result (out.new.items ≡ out.old.items ++ meaning_text meaning) }
{
    match meaning {
        Meaning::Plain => out.extend_from_slice(b"number"),
        Meaning::Stream => out.extend_from_slice(b"address of the uniforms"),
        Meaning::Source(sample, buffer) => {
            put_sample(out, sample)?;
            out.extend_from_slice(b"handle")?;
            put_named(out, buffer)
        }
        Meaning::Address(sample) => {
            put_sample(out, sample)?;
            out.extend_from_slice(b"address")
        }
        Meaning::Bound(sample) => {
            put_sample(out, sample)?;
            out.extend_from_slice(b"bound")
        }
        Meaning::Setup(sample, number, words) => {
            put_sample(out, sample)?;
            put_setup(out, number, &words)
        }
    }
}
