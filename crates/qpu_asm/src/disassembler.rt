//! Words as text.
ghost use Rattle.std.specs.Prelude.{◌≡◌, ◌≤◌, ◌<◌, ◌/◌, ◌%◌, ◌^◌, ◌∷◌, ◌++◌, true, map, MatchOption, OnOk, IfOk};
ghost use Rattle.qpu_isa.specs.Fields.{width_of};
ghost use Rattle.qpu_asm.specs.Table.{widths_of};
ghost use Rattle.qpu_asm.specs.Walk.{are_ready, field_text};
ghost use Rattle.qpu_asm.specs.Printed.{name_of as name_in, value_text, item_text, rows_text, kind_of as kind_by, kind_text, word_text, line_text, AsmText, PrintedReturns, FieldsInOrder};
ghost use Rattle.qpu_asm.specs.Seen.{named_seen, row_seen, rows_seen, kind_seen};

use crate::table::{ALU_KIND, BRANCH_KIND, Kind, LOAD_IMM_KIND, NOP, NOP_KIND, Named, Row};
use field_words::NoMemory;
use itoa::Buffer;
use std::alloc::{AllocError, Global};

/// Writes words as a text that assembles to them: one instruction a line, by its opcode and the items that differ from their
/// defaults, in order, with a name where a value has one. Want of memory is its only error.
#[tactic(auto, unfolding(crate::specs::Printed::AsmText), using(crate::proofs::Rows::lines_more))]
pub fn disassemble(alloc: Global, words: &[u64]) -> Result<Vec<u8>, NoMemory>
    ensures { IfOk result (λ text. text.items ≡ AsmText words.now) }
{
    let mut text = Vec::new(alloc);
    for word in words {
        put_line(&mut text, *word)?;
    }
    Ok(text)
}

#[tactic(auto, unfolding(crate::specs::Printed::line_text))]
fn put_line(out: &mut Vec<u8>, word: u64) -> Result<(), AllocError>
    ensures { OnOk result (out.new.items ≡ out.old.items ++ line_text word) }
{
    put_word(out, word)?;
    out.extend_from_slice(b"\n")
}

/// Writes the text of a word, without its line's end. Want of memory is its only error.
#[tactic(auto, unfolding(crate::specs::Printed::word_text))]
pub fn put_word(out: &mut Vec<u8>, word: u64) -> Result<(), AllocError>
    ensures { OnOk result (out.new.items ≡ out.old.items ++ word_text word) }
{
    put_kind(out, word, kind_of(word))
}

#[tactic(auto, unfolding(crate::specs::Printed::kind_of, qpu_isa::specs::Word::sig_of))]
fn kind_of(word: u64) -> Kind
    ensures { kind_seen result ≡ kind_by word }
{
    if word == NOP {
        return NOP_KIND;
    }
    match (word >> 60) % 16 {
        14 => LOAD_IMM_KIND,
        15 => BRANCH_KIND,
        _ => ALU_KIND,
    }
}

#[tactic(auto, unfolding(crate::specs::Printed::kind_text))]
fn put_kind(out: &mut Vec<u8>, word: u64, kind: Kind) -> Result<(), AllocError>
    requires ready { are_ready (rows_seen kind.rows.now) ≡ true }
    requires wide { width_of (widths_of (rows_seen kind.rows.now)) ≤ 64 }
    ensures { OnOk result (out.new.items ≡ out.old.items ++ kind_text word (kind_seen kind)) }
{
    out.extend_from_slice(kind.opcode)?;
    put_items(out, kind.rows, total_width(kind.rows), word)
}

fn total_width(rows: &[Row]) -> u32
    requires { width_of (widths_of (rows_seen rows.now)) ≤ 64 }
    ensures { result ≡ width_of (widths_of (rows_seen rows.now)) }
{
    let mut rest = rows;
    let mut total = 0;
    while let Some((row, later)) = rest.split_first() {
        total += row.width;
        rest = later;
    }
    total
}

fn field_at(word: u64, low: u32, width: u32) -> u64
    requires inside { low < 64 }
    requires narrow { width < 64 }
    ensures { result ≡ word / 2 ^ low % 2 ^ width }
{
    (word >> low) % (1 << width)
}

fn put_items(out: &mut Vec<u8>, rows: &[Row], width: u32, word: u64) -> Result<(), AllocError>
    requires ready { are_ready (rows_seen rows.now) ≡ true }
    requires width { width ≡ width_of (widths_of (rows_seen rows.now)) }
    requires wide { width ≤ 64 }
    ensures { OnOk result (out.new.items ≡ out.old.items ++ rows_text (rows_seen rows.now) word) }
{
    let mut rest = rows;
    let mut low = width;
    while let Some((row, later)) = rest.split_first() {
        low -= row.width;
        put_field(out, row, field_at(word, low, row.width))?;
        rest = later;
    }
    Ok(())
}

// Writes the item of a value, where it isn't the default.
fn put_field(out: &mut Vec<u8>, row: &Row, value: u64) -> Result<(), AllocError>
    ensures { OnOk result (out.new.items ≡ out.old.items ++ field_text (row_seen row.now) value) }
{
    if value == row.fallback {
        return Ok(());
    }
    put_item(out, row, value)
}

#[tactic(auto, unfolding(crate::specs::Printed::item_text))]
fn put_item(out: &mut Vec<u8>, row: &Row, value: u64) -> Result<(), AllocError>
    ensures { OnOk result (out.new.items ≡ out.old.items ++ 32
        ∷ item_text (row_seen row.now) value) }
{
    out.extend_from_slice(b" ")?;
    out.extend_from_slice(row.name)?;
    out.extend_from_slice(b"=")?;
    put_value(out, row, value)
}

#[tactic(auto, unfolding(crate::specs::Printed::value_text))]
fn put_value(out: &mut Vec<u8>, row: &Row, value: u64) -> Result<(), AllocError>
    ensures { OnOk result (out.new.items ≡ out.old.items ++ value_text (row_seen row.now) value) }
{
    match name_of(row.named, value) {
        Some(name) => out.extend_from_slice(name),
        None => {
            let mut buffer = Buffer::new();
            out.extend_from_slice(buffer.format(value).as_bytes())
        }
    }
}

#[tactic(auto, unfolding(crate::specs::Printed::name_of))]
fn name_of(named: &[Named], value: u64) -> Option<&'static [u8]>
    ensures { MatchOption result (name_in (map named_seen named.now) value ≡ None)
        (λ name. name_in (map named_seen named.now) value ≡ Some name.now) }
{
    let mut rest = named;
    while let Some((one, others)) = rest.split_first() {
        if one.value == value {
            return Some(one.name);
        }
        rest = others;
    }
    None
}

/// A law: the text of any words assembles without a fault, and to these words.
pub fn printed_returns()
    ensures { PrintedReturns }
{}

/// A law: each row of a kind prints the field of its place, in the order of the instruction's struct, and `nop` is the ALU
/// instruction without items.
pub fn fields_in_order()
    ensures { FieldsInOrder }
{}
