//! Lines and words of a text.
ghost use Rattle.std.specs.Prelude.{◌≡◌, ℕ, ◌<◌, ◌≤◌, ◌∷◌, ◌+◌, ◌-◌, [], length, MatchOption, IfSome, IsTrue, slice_index, ◌≢◌};
ghost use Rattle.qpu_asm.specs.Lines.{words_of, label_line, line_of, is_alone, is_comment as comment_test, ends_label as label_test, read_line as line_read};
ghost use Rattle.qpu_asm.specs.Place.{placed_words};
ghost use Rattle.qpu_asm.specs.Seen.{line_seen};

use crate::names::is_name;
use script::{Cut, cut_at};

/// What a line is. An instruction's items are still in one piece.
#[derive(Clone, Copy)]
pub enum Line<'a> {
    Blank,
    Label(&'a [u8]),
    BadLabel,
    Coded(Cut<'a>),
}

/// The first word of a line, and what comes after it, where there is a word.
pub fn next_word(line: &[u8]) -> Option<Cut<'_>>
    ensures words { MatchOption result (words_of line.now ≡ [])
        (λ cut. words_of line.now ≡ cut.first.now ∷ words_of cut.rest.now) }
    ensures shorter { IfSome result (λ cut. length cut.rest.now < length line.now) }
{
    let line = without_spaces(line);
    if line.is_empty() {
        None
    } else {
        Some(cut_at(line, b' '))
    }
}

/// A line without the spaces that it begins with.
pub fn without_spaces(line: &[u8]) -> &[u8]
    ensures words { (column : ℕ)
        → placed_words (column + (length line.now - length result.now)) result.now
        ≡ placed_words column line.now }
    ensures shorter { length result.now ≤ length line.now }
    ensures first { slice_index result.now 0 ≢ 32 }
{
    for (at, byte) in line.iter().enumerate() {
        if *byte != b' ' {
            return &line[at..];
        }
    }
    &[]
}

/// Reads a line as far as its first word tells what it is.
#[tactic(auto, unfolding(crate::specs::Lines::read_line, crate::specs::Lines::line_of))]
pub fn read_line(line: &[u8]) -> Line<'_>
    ensures { line_seen result ≡ line_read line.now }
{
    match next_word(line) {
        Some(cut) => read_words(cut),
        None => Line::Blank,
    }
}

#[tactic(auto, unfolding(crate::specs::Lines::line_of))]
fn read_words(words: Cut<'_>) -> Line<'_>
    ensures { line_seen result ≡ line_of (words.entry.first.now ∷ words_of words.entry.rest.now) }
{
    if is_comment(words.first) {
        Line::Blank
    } else if ends_label(words.first) {
        read_label(&words.first[..words.first.len() - 1], words.rest)
    } else {
        Line::Coded(words)
    }
}

#[tactic(auto, unfolding(crate::specs::Lines::is_comment))]
fn is_comment(word: &[u8]) -> bool
    ensures { result ≡ comment_test word.now }
{
    match word.first() {
        Some(first) => *first == b'#',
        None => false,
    }
}

#[tactic(auto, unfolding(crate::specs::Lines::ends_label))]
fn ends_label(word: &[u8]) -> bool
    ensures test { result ≡ label_test word.now }
    ensures full { IsTrue result → 0 < length word.now }
{
    match word.last() {
        Some(last) => *last == b':',
        None => false,
    }
}

#[tactic(auto, unfolding(crate::specs::Lines::label_line))]
fn read_label<'a>(name: &'a [u8], others: &[u8]) -> Line<'a>
    ensures { line_seen result ≡ label_line name.now (words_of others.now) }
{
    if is_name(name) && has_no_word(others) {
        Line::Label(name)
    } else {
        Line::BadLabel
    }
}

fn has_no_word(line: &[u8]) -> bool
    ensures { result ≡ is_alone (words_of line.now) }
{
    match next_word(line) {
        Some(_) => false,
        None => true,
    }
}
