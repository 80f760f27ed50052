//! What a rule's letter and number mean, in words.
ghost use Rattle.std.specs.Prelude.{◌≡◌, ◌<◌, ◌++◌, ◌∷◌, [], length};
ghost use Rattle.vc4check_c.specs.Shader.{with_front};
ghost use Rattle.vc4check_c.specs.Sentence.{sentence_reported, cut_text, c_text};

use rule_words::{Family, RuleName};

/// The sentence of the rule of this letter, in either case, and this number; empty where there is none.
#[tactic(auto, unfolding(crate::specs::Sentence::sentence_reported))]
fn sentence(letter: u32, number: u32) -> &'static [u8]
    ensures { result.now ≡ sentence_reported letter number }
{
    if letter > 255 || number > 255 {
        return b"";
    }
    match Family::of_letter(letter as u8) {
        Some(family) => {
            let name = RuleName {
                family,
                number: number as u8,
            };
            match name.words() {
                Some(words) => words.sentence.as_bytes(),
                None => b"",
            }
        }
        None => b"",
    }
}

/// As much of a text as there is room for before a zero byte.
#[tactic(auto, unfolding(crate::specs::Sentence::cut_text))]
fn cut(text: &[u8], room: usize) -> &[u8]
    requires { 0 < room }
    ensures value { result.now ≡ cut_text room text.now }
    ensures short { length result.now < room }
{
    if text.len() < room {
        text
    } else {
        &text[..room - 1]
    }
}

/// Puts a text to the room's start, and a zero byte behind it.
fn put_text(text: &[u8], room: &mut [u8])
    requires { length text.now < length room.old }
    ensures { room.new ≡ with_front room.old (text.now ++ (0 ∷ [])) }
{
    room[..text.len()].copy_from_slice(text);
    room[text.len()] = 0;
}

/// Puts as much of a text as there is room for to the room's start, and a zero byte behind it; the result is the whole text's length.
#[tactic(auto, unfolding(crate::specs::Sentence::c_text))]
pub(crate) fn put_c_text(text: &[u8], room: &mut [u8]) -> usize
    ensures whole { result ≡ length text.now }
    ensures report { room.new ≡ with_front room.old (c_text (length room.old) text.now) }
{
    if !room.is_empty() {
        put_text(cut(text, room.len()), room);
    }
    text.len()
}

/// Tells in a sentence what is wrong where the rule of this letter (in ASCII, in either case) and this number refuses. The text is put to
/// the room's start with a zero byte behind it, cut off where the room is too small; the room's further bytes stay. The result is the
/// length of the whole sentence without the zero byte: 0 where there is no such rule.
#[unsafe(no_mangle)]
pub extern "C" fn vc4check_sentence(letter: u32, number: u32, room: &mut [u8]) -> usize
    ensures whole { result ≡ length (sentence_reported letter number) }
    ensures report { room.new ≡ with_front room.old
        (c_text (length room.old) (sentence_reported letter number)) }
{
    put_c_text(sentence(letter, number), room)
}
