//! Lines and words of a script.
ghost use Rattle.std.specs.Prelude.{◌≡◌, ◌<◌, ◌∷◌, length};
ghost use Rattle.memchr.specs.Find.{IsFirstByte, is_byte};
ghost use Rattle.script.specs.Lines.{lines_of, before, behind};

use memchr::memchr;

/// A text in two parts. The byte at which it was cut is in neither.
#[derive(Clone, Copy)]
pub struct Cut<'a> {
    pub first: &'a [u8],
    pub rest: &'a [u8],
}

// The place of the first such byte. Where one is near, as in a word, this is faster than `memchr`.
fn find_near(mark: u8, bytes: &[u8]) -> Option<usize>
    ensures { IsFirstByte (is_byte mark) bytes.now result }
{
    for (at, byte) in bytes.iter().enumerate() {
        if *byte == mark {
            return Some(at);
        }
    }
    None
}

// The text in two parts, by the place of the first such byte.
#[tactic(auto, using(crate::proofs::Cuts::before_at, crate::proofs::Cuts::behind_at, crate::proofs::Cuts::before_none, crate::proofs::Cuts::behind_none))]
fn cut_there(mark: u8, bytes: &[u8], found: Option<usize>) -> Cut<'_>
    requires { IsFirstByte (is_byte mark) bytes.now found }
    ensures first { result.first.now ≡ before mark bytes.now }
    ensures rest { result.rest.now ≡ behind mark bytes.now }
    ensures shorter { 0 < length bytes.now → length result.rest.now < length bytes.now }
{
    match found {
        Some(at) => Cut {
            first: &bytes[..at],
            rest: &bytes[at + 1..],
        },
        None => Cut {
            first: bytes,
            rest: &[],
        },
    }
}

/// What stands before the first such byte, and what stands behind it; all and nothing where there is no such byte. It takes no
/// memory.
pub fn cut_at(bytes: &[u8], mark: u8) -> Cut<'_>
    ensures first { result.first.now ≡ before mark bytes.now }
    ensures rest { result.rest.now ≡ behind mark bytes.now }
    ensures shorter { 0 < length bytes.now → length result.rest.now < length bytes.now }
{
    cut_there(mark, bytes, find_near(mark, bytes))
}

/// The first line of a script that isn't empty, without its line feed, and the lines after it. It takes no memory.
pub fn next_line(text: &[u8]) -> Cut<'_>
    requires { 0 < length text.now }
    ensures lines { lines_of text.now ≡ result.first.now ∷ lines_of result.rest.now }
    ensures shorter { length result.rest.now < length text.now }
{
    cut_there(b'\n', text, memchr(b'\n', text))
}
