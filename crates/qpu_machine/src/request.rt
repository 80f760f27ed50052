//! What a texture and memory unit (TMU) does with a request.
ghost use Rattle.std.specs.Prelude.{◌≡◌, ◌<◌, ◌≤◌, [], true, false, Some, None, slice_index};
ghost use Rattle.arrayvec.specs.ArrayVec.{array_vec_len};
ghost use Rattle.machine_plan.specs.Turn.{CarriesOver, if_tame};
ghost use Rattle.qpu_machine.specs.State.{Read};
ghost use Rattle.texture_layouts.specs.Fits.{is_unlisted};
ghost use Rattle.texture_layouts.specs.Setup.{texture_of};
ghost use Rattle.qpu_machine.specs.Request.{direct_plan, chosen_level, chosen_place, texture_reads, is_undefined, ask_plan};

use crate::reads::read_word;
use crate::state::{Ask, Row};
use field_words::Way;
use machine_plan::{Accesses, Choices, Reader, list_access};
use texture_layouts::{Texture, has_child_image, has_two_strides, lacks_stride};

// The words at these addresses, without their low two bits.
fn read_words(row: &Row, reader: &Reader, accesses: &mut Accesses) -> Row
    requires { array_vec_len accesses.old ≤ 100 }
    ensures { CarriesOver reader.now.who (direct_plan row.now []) reader.now.memory.now accesses.old
        accesses.new (Some result) }
{
    let mut found = [0; 16];
    for e in 0..16 {
        found[e] = read_word(row[e] - row[e] % 4, reader, accesses);
    }
    found
}

// The level that read `m` chooses.
#[tactic(auto, unfolding(crate::specs::Request::chosen_level))]
fn chosen_level<C: Choices>(texture: &Texture, words: &C, m: u64) -> u32
    requires { m < 128 }
    ensures value { result ≡ chosen_level texture.now (C.listed words.now) m }
    ensures limit { result ≤ texture.now.levels }
{
    words.word(4 * m) % (texture.levels() + 1)
}

// Where read `m` lies, which is in this level; `None` where that is below 0.
#[tactic(auto, unfolding(crate::specs::Request::chosen_place, crate::specs::Request::chosen_face, crate::specs::Request::chosen_x, crate::specs::Request::chosen_y))]
fn chosen_place<C: Choices>(texture: &Texture, level: u32, words: &C, m: u64) -> Option<u64>
    requires few { m < 128 }
    requires level { level ≡ chosen_level texture.now (C.listed words.now) m }
    requires known { level ≤ texture.now.levels }
    requires listed { is_unlisted texture.now ≡ false }
    ensures { result ≡ chosen_place texture.now (C.listed words.now) m }
{
    let face = words.word(4 * m + 1) % texture.faces();
    let x = words.word(4 * m + 2) % texture.level_width(level);
    let y = words.word(4 * m + 3) % texture.level_height(level);
    texture.fetch_place(face, level, x, y)
}

// Lists the 128 reads of a texture. False comes exactly where one would be below 0; then a Wild access is listed too.
fn list_texels<C: Choices>(
    texture: &Texture,
    words: &C,
    reader: &Reader,
    accesses: &mut Accesses,
) -> bool
    requires room { array_vec_len accesses.old ≤ 100 }
    requires listed { is_unlisted texture.now ≡ false }
    ensures { CarriesOver reader.now.who (texture_reads texture.now (C.listed words.now) 0 128)
        reader.now.memory.now accesses.old accesses.new (if_tame result None) }
{
    for m in 0..128 {
        let level = chosen_level(texture, words, m);
        match chosen_place(texture, level, words, m) {
            Some(place) => {
                let size = texture.fetch_size(level);
                list_access(reader.who, Way::Read, place, size, accesses);
            }
            None => {
                list_access(reader.who, Way::Wild, 0, 0, accesses);
                return false;
            }
        }
    }
    true
}

// Whether the setup words leave undefined where the texture lies.
#[tactic(auto, unfolding(crate::specs::Request::is_undefined))]
fn is_undefined(four: &[u32; 4], texture: &Texture) -> bool
    requires { let word = slice_index four.now in texture.now
        ≡ texture_of (word 0) (word 1) (word 2) (word 3) }
    ensures value { let word = slice_index four.now in result
        ≡ is_undefined (word 0) (word 1) (word 2) (word 3) }
    ensures listed { result ≡ false → is_unlisted texture.now ≡ false }
{
    (has_two_strides(four) || lacks_stride(four))
        || (texture.is_unlisted() || has_child_image(four))
}

// Serves a request for a texture. False comes exactly where it is undefined.
fn serve_texture<C: Choices>(
    four: &[u32; 4],
    words: &C,
    reader: &Reader,
    accesses: &mut Accesses,
) -> bool
    requires { array_vec_len accesses.old ≤ 100 }
    ensures { CarriesOver reader.now.who (ask_plan (Ask.Texture four.now) (C.listed words.now))
        reader.now.memory.now accesses.old accesses.new (if_tame result None) }
{
    let texture = Texture::of(four);
    if is_undefined(four, &texture) {
        list_access(reader.who, Way::Wild, 0, 0, accesses);
        return false;
    }
    list_texels(&texture, words, reader, accesses)
}

/// Serves a request, with the accesses of `reader`. What the hardware leaves open is answered by the words; a missing word is
/// zero. It comes to the words of a direct request, and for a texture to `Some(None)`, a result whose words are free. `None`
/// comes exactly where the request is undefined; then a Wild access is listed behind the reads before it.
pub fn serve<C: Choices>(
    ask: &Ask,
    words: &C,
    reader: &Reader,
    accesses: &mut Accesses,
) -> Option<Option<Row>>
    requires { array_vec_len accesses.old ≤ 100 }
    ensures { CarriesOver reader.now.who (ask_plan ask.now (C.listed words.now))
        reader.now.memory.now accesses.old accesses.new result }
{
    match ask {
        Ask::Direct(row) => Some(Some(read_words(row, reader, accesses))),
        Ask::Texture(four) => {
            if serve_texture(four, words, reader, accesses) {
                Some(None)
            } else {
                None
            }
        }
    }
}
