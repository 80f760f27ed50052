//! A text as bytes.
ghost use Rattle.std.specs.Prelude.{◌≡◌, ◌+◌, ◌≤◌, ◌<◌, ◌^◌, [], false, length, option_copied, IfOk, IfErr, IfSome, Ok};
ghost use Rattle.field_words.specs.declared.stop.Stop.TheVariants.{Fault};
ghost use Rattle.hex.specs.Hex.{hex_digit_value};
ghost use Rattle.job_make.specs.Made.{byte_at, front_digit, both, digits_read, number_read, word_read, line_read, name_read, part_read, name_on, stays_inside, size_from, text_sections, text_bytes, IsFaultOf};
ghost use Rattle.job_make.specs.Seen.{sections_in};
ghost use Rattle.script.specs.Lines.{lines_of};

use crate::blocks::put_block;
use crate::fault::{MakeFault, Mistake};
use crate::sections::{Section, Sections};
use crate::words::{most_of, next_word, says, section_named, size_named};
use field_words::Stop;
use script::{Cut, cut_at, next_line};
use std::alloc::{AllocError, Global};
use std::collections::BTreeMap;

pub(crate) fn digit_value(character: u8) -> Option<u8>
    ensures value { result ≡ hex_digit_value character }
    ensures limit { IfSome result (λ value. value < 16) }
{
    match character {
        b'A'..=b'F' => Some(character - 55),
        b'a'..=b'f' => Some(character - 87),
        b'0'..=b'9' => Some(character - 48),
        _ => None,
    }
}

fn front_digit(text: &[u8]) -> Option<u8>
    ensures { result ≡ front_digit text.now }
{
    digit_value(*text.first()?)
}

// The byte of the two digits at a column, of which the first is given.
fn byte_at(line: usize, column: usize, first: u8, others: &[u8]) -> Result<u8, MakeFault>
    ensures { result ≡ byte_at line column (hex_digit_value first) (front_digit others.now) }
{
    let Some(high) = digit_value(first) else {
        return Err(MakeFault::new(line, column, Mistake::WrongCharacter));
    };
    let Some(low) = front_digit(others) else {
        return Err(MakeFault::new(line, column, Mistake::LoneDigit));
    };
    Ok(16 * high + low)
}

// Appends the bytes of digits, which begin at a column.
fn put_digits(
    out: &mut Vec<u8>,
    line: usize,
    column: usize,
    word: &[u8],
) -> Result<(), Stop<MakeFault>>
    requires { column + length word.now < 2 ^ 64 }
    ensures bytes { IfOk result (λ _. both (Ok out.old.items) (digits_read line column word.now)
        ≡ Ok out.new.items) }
    ensures fault { IfErr result (IsFaultOf (digits_read line column word.now)) }
{
    let mut rest = word;
    let mut at = column;
    while let Some((first, others)) = rest.split_first() {
        match byte_at(line, at, *first, others) {
            Ok(byte) => out.push(byte)?,
            Err(fault) => return Err(Stop::Fault(fault)),
        }
        rest = &others[1..];
        at += 2;
    }
    Ok(())
}

// Appends the bytes of a number, if it is one and fits in so many bytes.
#[tactic(auto, unfolding(crate::specs::Made::number_read))]
fn put_number(
    out: &mut Vec<u8>,
    line: usize,
    column: usize,
    size: usize,
    number: Result<usize, Mistake>,
) -> Result<(), Stop<MakeFault>>
    requires { size ≤ 4 }
    ensures bytes { IfOk result (λ _. both (Ok out.old.items)
        (number_read line column size number) ≡ Ok out.new.items) }
    ensures fault { IfErr result (IsFaultOf (number_read line column size number)) }
{
    let mistake = match number {
        Ok(number) if number <= most_of(size) => {
            out.extend_from_slice(&number.to_le_bytes()[..size])?;
            return Ok(());
        }
        Ok(_) => Mistake::WrongNumber,
        Err(mistake) => mistake,
    };
    Err(Stop::Fault(MakeFault::new(line, column, mistake)))
}

impl Sections<'_> {
    // Appends the bytes of a word, which begins at a column.
    #[tactic(auto, unfolding(crate::specs::Made::word_read))]
    fn put_word(
        &self,
        out: &mut Vec<u8>,
        line: usize,
        column: usize,
        word: &[u8],
    ) -> Result<(), Stop<MakeFault>>
        requires { column + length word.now < 2 ^ 64 }
        ensures bytes { IfOk result (λ _. both (Ok out.old.items)
            (word_read (sections_in self.now) line column word.now) ≡ Ok out.new.items) }
        ensures fault { IfErr result
            (IsFaultOf (word_read (sections_in self.now) line column word.now)) }
    {
        let cut = cut_at(word, b':');
        match size_named(cut.first) {
            None => put_digits(out, line, column, word),
            Some(size) => put_number(out, line, column, size, self.number_said(cut.rest)),
        }
    }

    fn put_line(&self, out: &mut Vec<u8>, line: usize, text: &[u8]) -> Result<(), Stop<MakeFault>>
        ensures bytes { IfOk result (λ _. both (Ok out.old.items)
            (line_read (sections_in self.now) line text.now) ≡ Ok out.new.items) }
        ensures fault { IfErr result
            (IsFaultOf (line_read (sections_in self.now) line text.now)) }
    {
        let mut rest = cut_at(text, b'#').first;
        let mut column = 1;
        while !rest.is_empty() {
            let cut = next_word(rest);
            self.put_word(out, line, column, cut.first)?;
            column += cut.first.len() + 1;
            rest = cut.rest;
        }
        Ok(())
    }

    // Whether the section of a name, which this line names, is that of no other line.
    fn name_read(&self, line: usize, name: &[u8]) -> Result<(), Stop<MakeFault>>
        ensures bytes { IfOk result (λ _. name_read line (sections_in self.now name.now) ≡ Ok []) }
        ensures fault { IfErr result
            (IsFaultOf (name_read line (sections_in self.now name.now))) }
    {
        match self.find(name) {
            Some(section) if section.line != line => Err(Stop::Fault(MakeFault::new(
                line,
                1,
                Mistake::SecondSection,
            ))),
            _ => Ok(()),
        }
    }

    // Appends what the first line of a text gives: nothing if it is assembler text, of which `asm` gave the bytes, or names a section.
    #[tactic(auto, unfolding(crate::specs::Made::part_read))]
    fn put_part(
        &self,
        alloc: Global,
        out: &mut Vec<u8>,
        line: usize,
        inside: bool,
        text: Cut<'_>,
    ) -> Result<(), Stop<MakeFault>>
        requires { line ≤ 2 ^ 63 }
        ensures bytes { IfOk result (λ _. both (Ok out.old.items)
            (part_read (sections_in self.now) line inside text.entry.first.now
            (lines_of text.entry.rest.now)) ≡ Ok out.new.items) }
        ensures fault { IfErr result
            (IsFaultOf (part_read (sections_in self.now) line inside text.entry.first.now
            (lines_of text.entry.rest.now))) }
    {
        if inside {
            return Ok(());
        }
        if says(b"asm", text.first) {
            return put_block(alloc, out, line, text.rest);
        }
        match section_named(text.first) {
            Some(name) => self.name_read(line, name),
            None => self.put_line(out, line, text.first),
        }
    }
}

// Whether the line behind this one is assembler text.
#[tactic(auto, unfolding(crate::specs::Made::stays_inside))]
fn stays_inside(inside: bool, text: &[u8]) -> bool
    ensures { result ≡ stays_inside inside text.now }
{
    if inside {
        return !says(b"end", text);
    }
    says(b"asm", text)
}

// The name of a section on a line that isn't assembler text.
#[tactic(auto, unfolding(crate::specs::Made::name_on))]
fn name_on(inside: bool, line: &[u8]) -> Option<&[u8]>
    ensures { option_copied result ≡ name_on inside line.now }
{
    if inside {
        return None;
    }
    section_named(line)
}

// How many bytes the lines from a number on give, up to the next that names a section, or up to a fault.
fn size_from(alloc: Global, line: usize, lines: &[u8]) -> Result<usize, AllocError>
    requires { line + length lines.now ≤ 2 ^ 63 }
    ensures { IfOk result (λ size. size ≡ size_from line false (lines_of lines.now)) }
{
    let mut out = Vec::new(alloc);
    let mut rest = lines;
    let mut line = line;
    let mut inside = false;
    while !rest.is_empty() {
        let cut = next_line(rest);
        let size = out.len();
        if name_on(inside, cut.first).is_some() {
            return Ok(size);
        }
        match Sections::Any.put_part(alloc, &mut out, line, inside, cut) {
            Ok(()) => {}
            Err(Stop::Fault(_)) => return Ok(size),
            Err(Stop::NoMemory) => return Err(AllocError),
        }
        inside = stays_inside(inside, cut.first);
        line += 1;
        rest = cut.rest;
    }
    Ok(out.len())
}

// The sections of a text: of those of one name the last.
fn sections_of(alloc: Global, text: &[u8]) -> Result<Sections<'_>, AllocError>
    ensures { IfOk result (λ sections. sections_in sections ≡ text_sections text.now) }
{
    let mut by_name = BTreeMap::new(alloc);
    let mut rest = text;
    let mut line = 1;
    let mut inside = false;
    while !rest.is_empty() {
        let cut = next_line(rest);
        if let Some(name) = name_on(inside, cut.first) {
            let size = size_from(alloc, line + 1, cut.rest)?;
            by_name.insert(name, Section { line, size })?;
        }
        inside = stays_inside(inside, cut.first);
        line += 1;
        rest = cut.rest;
    }
    Ok(Sections::Of(by_name))
}

/// The bytes of a text. On each line what stands before a `#` is read: words with blanks between them, each of which is two
/// hexadecimal digits for each byte, in either case, or a number as `u8:7`, `u16:1920` or `u32:0x4000`, least byte first. What
/// follows a `#` is a note. Between a line that says `asm` and one that says `end` stands assembler text, which gives the bytes of its
/// words. A line `section NAME` gives no bytes, and the number `len:NAME` is how many the lines behind it give, up to the next such line
/// or the end. The fault is the first in the text. Want of memory is the only other error.
pub fn make(alloc: Global, text: &[u8]) -> Result<Vec<u8>, Stop<MakeFault>>
    ensures bytes { IfOk result (λ bytes. text_bytes text.now ≡ Ok bytes.items) }
    ensures fault { IfErr result (IsFaultOf (text_bytes text.now)) }
{
    let sections = sections_of(alloc, text)?;
    let mut out = Vec::new(alloc);
    let mut rest = text;
    let mut line = 1;
    let mut inside = false;
    while !rest.is_empty() {
        let cut = next_line(rest);
        sections.put_part(alloc, &mut out, line, inside, cut)?;
        inside = stays_inside(inside, cut.first);
        line += 1;
        rest = cut.rest;
    }
    Ok(out)
}
