//! The items of an instruction, and their values.
ghost use Rattle.std.specs.Prelude.{◌≡◌, ◌≤◌, ◌<◌, ◌*◌, ◌+◌, ◌^◌, ◌∷◌, true, map, MatchOption, IfOk, Some, None, if◌then◌else◌};
ghost use Rattle.qpu_isa.specs.Fields.{fields_joined};
ghost use Rattle.qpu_asm.specs.Table.{widths_of, fallbacks_of};
ghost use Rattle.qpu_asm.specs.Items.{find_named, read_number as number_read, read_plain as plain_read, distance as distance_by, read_target as target_read, is_row as row_test, has_row as row_among, kind_named as kind_by};
ghost use Rattle.qpu_asm.specs.Walk.{least_of as least_by, with_fault as faulted, with_value as valued, skip_to as skipped, read_named as named_read, read_item as item_read, closed_word as word_by, kind_code, code_of, IsOpen};
ghost use Rattle.qpu_asm.specs.declared.fault.Mistake.TheVariants.{BadOperand, UnknownWord};
ghost use Rattle.qpu_asm.specs.Lines.{words_of};
ghost use Rattle.qpu_asm.specs.Seen.{named_seen, row_seen, rows_seen, kind_seen, spots_in, value_seen};

use crate::fault::Mistake;
use crate::label::{Labels, find_spot};
use crate::lines::next_word;
use crate::names::is_name;
use crate::table::{ALU_KIND, BRANCH_KIND, Kind, LOAD_IMM_KIND, NOP_KIND, Named, Row};
use script::{Cut, cut_at, is_number, number_up_to};
use std::marker::Model;

/// An instruction whose items have been read in part: the word's fields so far, the rows that may still come, and the
/// least fault so far.
#[derive(Drop)]
pub struct Partial {
    word: u64,
    rows: &'static [Row],
    pub fault: Option<Mistake>,
}

impl Model for Partial {
    ghost use Rattle.qpu_asm.specs.Walk.{Partial, IsOpen};

    ghost Value = { Partial };

    ghost use Rattle.qpu_asm.specs.Seen.{rows_seen};

    ghost view = { λ p. record { word = p.word; rows = rows_seen p.rows.now; fault = p.fault } };

    ghost invariant = { λ p. IsOpen p.word (rows_seen p.rows.now) };
}

impl Partial {
    /// An instruction of a kind of which no item has been read.
    pub fn of(kind: Kind) -> Partial
        requires { IsOpen kind.above (rows_seen kind.rows.now) }
        ensures { result ≡ record {
          word = kind.above;
          rows = rows_seen kind.rows.now;
          fault = None;
        } }
    {
        Partial {
            word: kind.above,
            rows: kind.rows,
            fault: None,
        }
    }

    /// The rows that may still come.
    pub fn rows_left(&self) -> &'static [Row]
        ensures { rows_seen result.now ≡ self.now.rows }
    {
        self.rows
    }

    /// The items so far as if they had no mistake.
    pub fn without_fault(self) -> Partial
        ensures { result ≡ record { word = self.word; rows = self.rows; fault = None } }
    {
        Partial {
            word: self.word,
            rows: self.rows,
            fault: None,
        }
    }
}

/// The word of an instruction, or the least of its faults.
#[tactic(auto, unfolding(crate::specs::Walk::code_of))]
pub fn read_code<'a>(labels: &Labels<'a>, index: u32, code: Cut<'a>) -> Result<u64, Mistake>
    ensures { result ≡ code_of (spots_in labels.now) index code.entry.first.now
        (words_of code.entry.rest.now) }
{
    match kind_named(code.first) {
        Some(kind) => read_items(labels, index, kind, code.rest),
        None => Err(Mistake::UnknownWord),
    }
}

#[tactic(auto, unfolding(crate::specs::Items::kind_named))]
pub fn kind_named(word: &[u8]) -> Option<Kind>
    ensures { MatchOption result (kind_by word.now ≡ None)
        (λ kind. kind_by word.now ≡ Some (kind_seen kind)) }
{
    if word == b"nop".as_slice() {
        Some(NOP_KIND)
    } else if word == b"alu".as_slice() {
        Some(ALU_KIND)
    } else if word == b"li".as_slice() {
        Some(LOAD_IMM_KIND)
    } else if word == b"br".as_slice() {
        Some(BRANCH_KIND)
    } else {
        None
    }
}

fn read_items<'a>(
    labels: &Labels<'a>,
    index: u32,
    kind: Kind,
    items: &'a [u8],
) -> Result<u64, Mistake>
    requires { IsOpen kind.above (rows_seen kind.rows.now) }
    ensures { result ≡ kind_code (spots_in labels.now) index (words_of items.now) (kind_seen kind) }
{
    let mut rest = items;
    let mut partial = Partial::of(kind);
    while let Some(cut) = next_word(rest) {
        partial = put_item(labels, index, kind.rows, partial, cut.first);
        rest = cut.rest;
    }
    closed_word(partial)
}

// The rows that are left have their defaults.
#[tactic(auto, unfolding(crate::specs::Walk::closed_word))]
fn closed_word(partial: Partial) -> Result<u64, Mistake>
    ensures { result ≡ word_by partial }
{
    match partial.fault {
        Some(mistake) => Err(mistake),
        None => Ok(with_defaults(partial.word, partial.rows)),
    }
}

#[tactic(auto, using(crate::proofs::Reading::default_narrow))]
fn with_defaults(word: u64, rows: &[Row]) -> u64
    requires { IsOpen word (rows_seen rows.now) }
    ensures { result ≡ fields_joined word (widths_of (rows_seen rows.now))
        (fallbacks_of (rows_seen rows.now)) }
{
    let mut rest = rows;
    let mut word = word;
    while let Some((row, later)) = rest.split_first() {
        word = append(word, row.width, row.fallback);
        rest = later;
    }
    word
}

// A field below a word.
fn append(word: u64, width: u32, value: u64) -> u64
    requires room { (word + 1) * 2 ^ width ≤ 2 ^ 64 }
    requires narrow { width ≤ 32 }
    requires small { value < 2 ^ width }
    ensures { result ≡ word * 2 ^ width + value }
{
    word * (1 << width) + value
}

/// Reads an item, with all rows of its instruction.
#[tactic(auto, unfolding(crate::specs::Walk::read_item, crate::specs::Items::has_value))]
pub fn put_item<'a>(
    labels: &Labels<'a>,
    index: u32,
    all: &[Row],
    partial: Partial,
    item: &'a [u8],
) -> Partial
    ensures { result ≡ item_read (spots_in labels.now) index (rows_seen all.now) partial item.now }
{
    let cut = cut_at(item, b'=');
    if cut.first.len() < item.len() {
        put_named(labels, index, all, partial, cut)
    } else {
        with_fault(partial, Mistake::UnknownWord)
    }
}

// Another fault, where nothing of the word goes on.
fn with_fault(partial: Partial, mistake: Mistake) -> Partial
    ensures { result ≡ faulted mistake partial }
{
    Partial {
        word: partial.word,
        rows: partial.rows,
        fault: Some(least_of(mistake, partial.fault)),
    }
}

fn least_of(mistake: Mistake, fault: Option<Mistake>) -> Mistake
    ensures { result ≡ least_by mistake fault }
{
    match fault {
        Some(other) => if mistake.number() <= other.number() {
            mistake
        } else {
            other
        },
        None => mistake,
    }
}

#[tactic(auto, unfolding(crate::specs::Walk::read_named))]
fn put_named<'a>(
    labels: &Labels<'a>,
    index: u32,
    all: &[Row],
    partial: Partial,
    cut: Cut<'a>,
) -> Partial
    ensures { result ≡ named_read (spots_in labels.now) index (rows_seen all.now) partial
        cut.entry.first.now cut.entry.rest.now }
{
    if has_row(cut.first, partial.rows) {
        return skip_to(labels, index, partial, cut);
    }
    with_fault(partial, mistake_of(cut.first, all))
}

// A name that the kind of instruction has is repeated or out of order; another is unknown.
fn mistake_of(name: &[u8], all: &[Row]) -> Mistake
    ensures { result ≡ (if row_among name.now (rows_seen all.now) then BadOperand else
        UnknownWord) }
{
    if has_row(name, all) {
        Mistake::BadOperand
    } else {
        Mistake::UnknownWord
    }
}

#[tactic(auto, using(crate::proofs::Reading::default_narrow))]
fn skip_to<'a>(labels: &Labels<'a>, index: u32, partial: Partial, cut: Cut<'a>) -> Partial
    ensures { result ≡ skipped cut.entry.first.now
        (value_seen (spots_in labels.now) index cut.entry) partial.fault partial.word partial.rows }
{
    let Partial {
        mut word,
        rows,
        fault,
    } = partial;
    let mut rest = rows;
    while let Some((row, later)) = rest.split_first() {
        if is_row(cut.first, row) {
            return with_value(fault, word, row, later, read_value(labels, index, cut, row));
        }
        word = append(word, row.width, row.fallback);
        rest = later;
    }
    Partial {
        word,
        rows: rest,
        fault,
    }
}

// The row's value, or its fault and the default.
fn with_value(
    fault: Option<Mistake>,
    word: u64,
    row: &Row,
    later: &'static [Row],
    read: Result<u64, Mistake>,
) -> Partial
    requires still { IsOpen word (row_seen row.now ∷ rows_seen later.now) }
    requires small { IfOk read (λ value. value < 2 ^ row.now.width) }
    ensures { result ≡ valued (row_seen row.now)
        (record { word = word; rows = rows_seen later.now; fault = fault }) read }
{
    match read {
        Ok(value) => with_field(fault, word, row, later, value),
        Err(mistake) => with_field(
            Some(least_of(mistake, fault)),
            word,
            row,
            later,
            row.fallback,
        ),
    }
}

fn with_field(
    fault: Option<Mistake>,
    word: u64,
    row: &Row,
    later: &'static [Row],
    value: u64,
) -> Partial
    requires still { IsOpen word (row_seen row.now ∷ rows_seen later.now) }
    requires small { value < 2 ^ row.now.width }
    ensures { result ≡ record {
      word = word * 2 ^ row.now.width
          + value;
      rows = rows_seen later.now;
      fault = fault;
    } }
{
    Partial {
        word: append(word, row.width, value),
        rows: later,
        fault,
    }
}

#[tactic(auto, unfolding(crate::specs::Items::has_row))]
pub fn has_row(name: &[u8], rows: &[Row]) -> bool
    ensures { result ≡ row_among name.now (rows_seen rows.now) }
{
    let mut rest = rows;
    while let Some((row, later)) = rest.split_first() {
        if is_row(name, row) {
            return true;
        }
        rest = later;
    }
    false
}

#[tactic(auto, unfolding(crate::specs::Items::is_row))]
pub fn is_row(name: &[u8], row: &Row) -> bool
    ensures { result ≡ row_test name.now (row_seen row.now) }
{
    row.name == name || (row.takes_label && b"to".as_slice() == name)
}

#[tactic(auto, unfolding(crate::specs::Items::read_value))]
fn read_value<'a>(labels: &Labels<'a>, index: u32, cut: Cut<'a>, row: &Row) -> Result<u64, Mistake>
    requires { row.now.below ≤ 2 ^ 32 }
    ensures { result ≡ value_seen (spots_in labels.now) index cut.entry (row_seen row.now) }
{
    if row.name == cut.first {
        read_plain(row, cut.rest)
    } else {
        read_target(labels, index, cut.rest)
    }
}

#[tactic(auto, unfolding(crate::specs::Items::read_target))]
fn read_target<'a>(labels: &Labels<'a>, index: u32, text: &'a [u8]) -> Result<u64, Mistake>
    ensures { result ≡ target_read (spots_in labels.now) index text.now }
{
    if !is_name(text) {
        return Err(Mistake::BadOperand);
    }
    match find_spot(labels, text) {
        Some(spot) => Ok(distance(index, spot.index)),
        None => Err(Mistake::UnknownLabel),
    }
}

// From the fourth instruction after the branch to the target, in bytes.
#[tactic(auto, unfolding(crate::specs::Items::distance))]
fn distance(index: u32, target: u32) -> u64
    ensures { result ≡ distance_by index target }
{
    let here = 8 * (index as u64 + 4) % (1 << 32);
    (8 * target as u64 % (1 << 32) + ((1 << 32) - here)) % (1 << 32)
}

#[tactic(auto, unfolding(crate::specs::Items::read_plain))]
fn read_plain(row: &Row, text: &[u8]) -> Result<u64, Mistake>
    requires { row.now.below ≤ 2 ^ 32 }
    ensures { result ≡ plain_read (row_seen row.now) text.now }
{
    match named_value(row.named, text) {
        Some(value) => Ok(value),
        None => read_number(text, row.below),
    }
}

#[tactic(auto, unfolding(crate::specs::Items::find_named))]
fn named_value(named: &[Named], text: &[u8]) -> Option<u64>
    ensures { result ≡ find_named (map named_seen named.now) text.now }
{
    let mut rest = named;
    while let Some((one, others)) = rest.split_first() {
        if one.name == text {
            return Some(one.value);
        }
        rest = others;
    }
    None
}

#[tactic(auto, unfolding(crate::specs::Items::read_number))]
fn read_number(text: &[u8], below: u64) -> Result<u64, Mistake>
    requires { below ≤ 2 ^ 32 }
    ensures { result ≡ number_read below text.now }
{
    if !is_number(text) {
        return Err(Mistake::BadOperand);
    }
    let value = number_up_to(text, u128::from(below));
    if value < u128::from(below) {
        Ok(value as u64)
    } else {
        Err(Mistake::OutOfRange)
    }
}
