//! The words of a line, and numbers as words.
ghost use Rattle.std.specs.Prelude.{◌≡◌, ◌≤◌, ◌<◌, ◌+◌, ◌∷◌, [], length, option_copied, IfSome, MatchOption};
ghost use Rattle.job_make.specs.Made.{is_blank, words_of, full_of, says, section_named, with_digit, hex_number, number_named, size_named, most_of};
ghost use Rattle.std.specs.Prelude.{Some};

use crate::reading::digit_value;
use script::{Cut, cut_at, read_number};

/// A space, a tab or a carriage return.
#[tactic(auto, unfolding(crate::specs::Made::is_blank))]
pub(crate) fn is_blank(character: u8) -> bool
    ensures { result ≡ is_blank character }
{
    character == b' ' || character == b'\t' || character == b'\r'
}

/// The first word of a text that isn't empty, up to a blank, and what stands behind that.
pub(crate) fn next_word(text: &[u8]) -> Cut<'_>
    requires { 0 < length text.now }
    ensures words { words_of text.now ≡ result.first.now ∷ words_of result.rest.now }
    ensures inside { length result.first.now + length result.rest.now ≤ length text.now }
    ensures shorter { length result.rest.now < length text.now }
{
    for (at, character) in text.iter().enumerate() {
        if is_blank(*character) {
            return Cut {
                first: &text[..at],
                rest: &text[at + 1..],
            };
        }
    }
    Cut {
        first: text,
        rest: &[],
    }
}

// The first word of a text that isn't empty, and what stands behind it.
#[tactic(auto, using(std::proofs::lemmas::Bool::Decides::nat_tests, crate::proofs::WordSteps::empty_step, crate::proofs::WordSteps::full_step, crate::proofs::WordSteps::full_end))]
fn next_full(text: &[u8]) -> Option<Cut<'_>>
    ensures { MatchOption result (full_of (words_of text.now) ≡ [])
        (λ cut. full_of (words_of text.now) ≡ cut.first.now ∷ full_of (words_of cut.rest.now)) }
{
    let mut rest = text;
    while !rest.is_empty() {
        let cut = next_word(rest);
        if !cut.first.is_empty() {
            return Some(cut);
        }
        rest = cut.rest;
    }
    None
}

/// Whether a line has this word alone, and perhaps a note.
#[tactic(auto, unfolding(crate::specs::Made::says))]
pub(crate) fn says(word: &[u8], line: &[u8]) -> bool
    ensures { result ≡ says word.now line.now }
{
    match next_full(cut_at(line, b'#').first) {
        Some(cut) => cut.first == word && next_full(cut.rest).is_none(),
        None => false,
    }
}

/// The name on a line that has the word `section` and a name, and perhaps a note.
#[tactic(auto, unfolding(crate::specs::Made::section_named))]
pub(crate) fn section_named(line: &[u8]) -> Option<&[u8]>
    ensures { option_copied result ≡ section_named line.now }
{
    let word = next_full(cut_at(line, b'#').first)?;
    let name = next_full(word.rest)?;
    match next_full(name.rest) {
        None if word.first == b"section".as_slice() => Some(name.first),
        _ => None,
    }
}

// The number behind a digit more; nothing where it then has more than 32 bits.
#[tactic(auto, unfolding(crate::specs::Made::with_digit))]
fn with_digit(number: Option<usize>, digit: Option<u8>) -> Option<usize>
    requires { IfSome digit (λ d. d < 16) }
    ensures { result ≡ with_digit number digit }
{
    match (number, digit) {
        (Some(number), Some(digit)) if number < 268_435_456 => {
            Some(16 * number + usize::from(digit))
        }
        _ => None,
    }
}

fn hex_number(digits: &[u8]) -> Option<usize>
    ensures { result ≡ hex_number digits.now }
{
    if digits.is_empty() {
        return None;
    }
    let mut number = Some(0);
    for digit in digits {
        number = with_digit(number, digit_value(*digit));
    }
    number
}

/// The number that a text names: decimal, or hexadecimal digits behind `0x`.
#[tactic(auto, unfolding(crate::specs::Made::number_named))]
pub(crate) fn number_named(text: &[u8]) -> Option<usize>
    ensures { result ≡ number_named text.now }
{
    match text.strip_prefix(b"0x") {
        Some(digits) => hex_number(digits),
        None => Some(read_number(text, u64::from(u32::MAX))? as usize),
    }
}

/// How many bytes the number of a word has, by what stands before its colon.
#[tactic(auto, unfolding(crate::specs::Made::size_named))]
pub(crate) fn size_named(name: &[u8]) -> Option<usize>
    ensures value { result ≡ size_named name.now }
    ensures small { IfSome result (λ size. size ≤ 4) }
{
    if name == b"u8".as_slice() {
        return Some(1);
    }
    if name == b"u16".as_slice() {
        return Some(2);
    }
    if name == b"u32".as_slice() {
        return Some(4);
    }
    None
}

/// The largest number of so many bytes.
#[tactic(auto, unfolding(crate::specs::Made::most_of))]
pub(crate) fn most_of(size: usize) -> usize
    ensures { result ≡ most_of size }
{
    match size {
        1 => 255,
        2 => 65_535,
        _ => 4_294_967_295,
    }
}
