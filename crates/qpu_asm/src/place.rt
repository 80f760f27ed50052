//! Where on its line a fault stands, and what was expected there.
ghost use Rattle.std.specs.Prelude.{◌≡◌, ◌≢◌, ◌<◌, ◌≤◌, ◌+◌, ◌-◌, ◌^◌, ◌∷◌, [], Some, length, map, slice_index, MatchOption, IfOk, IfSome};
ghost use Rattle.std.specs.Option.{option_to_list};
ghost use Rattle.qpu_asm.specs.Walk.{IsOpen};
ghost use Rattle.qpu_asm.specs.Items.{kind_named as kind_by};
ghost use Rattle.qpu_asm.specs.Lines.{read_line as line_read};
ghost use Rattle.qpu_asm.specs.Place.{word_at, placed_words, line_at, opcode_of, wanted_number, wanted_value, wanted_item, is_of, item_place, code_place, words_place, stray_from, fault_place, items_text, opcode_text, wanted_text};
ghost use Rattle.qpu_asm.specs.Seen.{named_seen, rows_seen, spots_in};

use crate::fault::AsmFault;
use crate::item::{Partial, has_row, is_row, kind_named, put_item};
use crate::label::{Labels, find_labels};
use crate::lines::{Line, read_line, without_spaces};
use crate::table::{Kind, Named, Row};
use script::{Cut, cut_at, next_line};
use std::alloc::{AllocError, Global};
use std::fmt;

/// The kinds of instructions.
#[derive(Clone, Copy, Debug, PartialEq, Eq)]
pub enum Opcode {
    Nop,
    Alu,
    Li,
    Br,
}

/// What was expected where a fault stands.
#[derive(Clone, Copy, Debug, PartialEq, Eq)]
pub enum Wanted {
    /// The first word of an instruction, or a label.
    FirstWord,
    /// A well-formed label, alone on its line.
    LabelLine,
    /// A label that no earlier line has.
    NewLabel,
    /// A name, `=` and a value.
    Equals,
    /// An item that the instruction has.
    Item(Opcode),
    /// The items in their order, each once.
    Order(Opcode),
    /// A number up to this one.
    Number(u64),
    /// The name of an operation, or a number up to this one.
    Operation(u64),
    /// The name of a label.
    Target,
    /// A blank, and no tab.
    Tab,
    /// The line's end, and no carriage return before it.
    Return,
}

/// Where a fault stands: the column of the first byte of the word that it is about, from 1 on, and what was expected there.
#[derive(Clone, Copy, Debug, PartialEq, Eq)]
pub struct FaultPlace {
    pub column: u32,
    pub wanted: Wanted,
}

impl FaultPlace {
    fn new(column: u32, wanted: Wanted) -> FaultPlace
        ensures { result ≡ record { column = column; wanted = wanted } }
    {
        FaultPlace { column, wanted }
    }
}

/// A word with the column of its first byte, what comes after it on the line, and the column at which that begins.
#[derive(Clone, Copy)]
struct Placed<'a> {
    column: u32,
    cut: Cut<'a>,
    next: u32,
}

/// The first word of a line that begins at a column.
fn next_placed(line: &[u8], column: u32) -> Option<Placed<'_>>
    requires { column + length line.now < 2 ^ 32 }
    ensures words { MatchOption result (placed_words column line.now ≡ []) (λ placed. placed_words column line.now ≡
        word_at placed.column placed.cut.first.now ∷ placed_words placed.next placed.cut.rest.now) }
    ensures shorter { IfSome result (λ placed. length placed.cut.rest.now < length line.now) }
    ensures inside { IfSome result (λ placed. placed.next + length placed.cut.rest.now ≤ column
        + length line.now) }
{
    let start = without_spaces(line);
    if start.is_empty() {
        return None;
    }
    let skipped = line.len() - start.len();
    Some(first_placed(start, column + skipped as u32))
}

/// The first word of a line that begins with one.
fn first_placed(line: &[u8], column: u32) -> Placed<'_>
    requires room { column + length line.now < 2 ^ 32 }
    requires some { 0 < length line.now }
    requires word { slice_index line.now 0 ≢ 32 }
    ensures words { placed_words column line.now ≡
        word_at result.column result.cut.first.now ∷ placed_words result.next result.cut.rest.now }
    ensures shorter { length result.cut.rest.now < length line.now }
    ensures inside { result.next + length result.cut.rest.now ≤ column + length line.now }
{
    let cut = cut_at(line, b' ');
    let taken = (cut.first.len() + 1).min(line.len());
    Placed {
        column,
        cut,
        next: column + taken as u32,
    }
}

/// The line of this number, from 1 on; it is empty where there is none.
fn line_at(text: &[u8], number: u32) -> &[u8]
    ensures line { result.now ≡ line_at text.now number }
    ensures shorter { length result.now ≤ length text.now }
{
    let mut rest = text;
    let mut left = number.saturating_sub(1);
    while !rest.is_empty() {
        let cut = next_line(rest);
        if left == 0 {
            return cut.first;
        }
        left -= 1;
        rest = cut.rest;
    }
    &[]
}

fn opcode_of(word: &[u8]) -> Opcode
    ensures { result ≡ opcode_of word.now }
{
    if word == b"nop".as_slice() {
        Opcode::Nop
    } else if word == b"li".as_slice() {
        Opcode::Li
    } else if word == b"br".as_slice() {
        Opcode::Br
    } else {
        Opcode::Alu
    }
}

fn wanted_number(named: &[Named], below: u64) -> Wanted
    ensures { result ≡ wanted_number (map named_seen named.now) below }
{
    match named {
        [] => Wanted::Number(below.saturating_sub(1)),
        [_, ..] => Wanted::Operation(below.saturating_sub(1)),
    }
}

/// What the value of the item of that name is to be.
#[tactic(auto, unfolding(crate::specs::Place::wanted_value))]
fn wanted_value(name: &[u8], rows: &[Row]) -> Wanted
    ensures { result ≡ wanted_value name.now (rows_seen rows.now) }
{
    let mut rest = rows;
    while let Some((row, later)) = rest.split_first() {
        if is_row(name, row) {
            if row.name == name {
                return wanted_number(row.named, row.below);
            }
            return Wanted::Target;
        }
        rest = later;
    }
    Wanted::Equals
}

/// What was expected in place of an item.
#[tactic(auto, unfolding(crate::specs::Place::wanted_item, crate::specs::Items::has_value))]
fn wanted_item(opcode: Opcode, all: &[Row], rows: &[Row], item: &[u8]) -> Wanted
    ensures { result ≡ wanted_item opcode (rows_seen all.now) (rows_seen rows.now) item.now }
{
    let cut = cut_at(item, b'=');
    if cut.first.len() >= item.len() {
        return Wanted::Equals;
    }
    if has_row(cut.first, rows) {
        return wanted_value(cut.first, rows);
    }
    if has_row(cut.first, all) {
        return Wanted::Order(opcode);
    }
    Wanted::Item(opcode)
}

fn is_of(kind: u8, partial: &Partial) -> bool
    ensures { result ≡ is_of kind (option_to_list partial.now.fault) }
{
    match partial.fault {
        Some(mistake) => mistake.number() == kind,
        None => false,
    }
}

/// The first item behind an instruction's first word that has a mistake of this kind.
fn item_place<'a>(
    labels: &Labels<'a>,
    kind: u8,
    opcode: Opcode,
    of: Kind,
    first: &Placed<'a>,
) -> Option<FaultPlace>
    requires room { first.now.next + length first.now.cut.rest.now < 2 ^ 32 }
    requires open { IsOpen of.above (rows_seen of.rows.now) }
    ensures { result ≡ item_place (spots_in labels.now) kind opcode (rows_seen of.rows.now)
        (rows_seen of.rows.now) (placed_words first.now.next first.now.cut.rest.now) }
{
    let mut rest = first.cut.rest;
    let mut column = first.next;
    let mut partial = Partial::of(of);
    while let Some(placed) = next_placed(rest, column) {
        let item = placed.cut.first;
        let rows = partial.rows_left();
        partial = put_item(labels, 0, of.rows, partial.without_fault(), item);
        if is_of(kind, &partial) {
            let wanted = wanted_item(opcode, of.rows, rows, item);
            return Some(FaultPlace::new(placed.column, wanted));
        }
        column = placed.next;
        rest = placed.cut.rest;
    }
    None
}

/// The place of a fault of this kind on the line of an instruction with this first word.
fn code_place<'a>(labels: &Labels<'a>, kind: u8, opcode: &[u8], first: &Placed<'a>) -> FaultPlace
    requires { first.now.next + length first.now.cut.rest.now < 2 ^ 32 }
    ensures { result ≡ code_place (spots_in labels.now) kind first.now.column opcode.now
        (placed_words first.now.next first.now.cut.rest.now) (kind_by opcode.now) }
{
    let unknown = FaultPlace::new(first.column, Wanted::FirstWord);
    match kind_named(opcode) {
        Some(of) => {
            let opcode = opcode_of(opcode);
            item_place(labels, kind, opcode, of, first).unwrap_or(unknown)
        }
        None => unknown,
    }
}

/// The place of a fault of this kind on a line.
fn place_on<'a>(labels: &Labels<'a>, kind: u8, line: &'a [u8]) -> FaultPlace
    requires { length line.now < 2 ^ 32 - 1 }
    ensures { result ≡ words_place (spots_in labels.now) kind (line_read line.now)
        (placed_words 1 line.now) }
{
    let Some(placed) = next_placed(line, 1) else {
        return FaultPlace::new(1, Wanted::FirstWord);
    };
    let column = placed.column;
    match read_line(line) {
        Line::Blank => FaultPlace::new(column, Wanted::FirstWord),
        Line::Label(_) => FaultPlace::new(column, Wanted::NewLabel),
        Line::BadLabel => FaultPlace::new(column, Wanted::LabelLine),
        Line::Coded(code) => code_place(labels, kind, code.first, &placed),
    }
}

/// The first tab or carriage return of a line.
#[tactic(auto, unfolding(crate::specs::Place::stray_from))]
fn stray_place(line: &[u8]) -> Option<FaultPlace>
    requires { length line.now < 2 ^ 32 - 1 }
    ensures { result ≡ stray_from 1 line.now }
{
    let mut rest = line;
    let mut column = 1;
    while let Some((byte, more)) = rest.split_first() {
        match *byte {
            b'\t' => return Some(FaultPlace::new(column, Wanted::Tab)),
            b'\r' => return Some(FaultPlace::new(column, Wanted::Return)),
            _ => {}
        }
        column += 1;
        rest = more;
    }
    None
}

/// Where a text's fault stands on its line, and what was expected there: the line's first tab or carriage return, or else the first word
/// for a label's line or an unknown instruction, and else the first item that has a mistake of the fault's kind.
#[tactic(auto, unfolding(crate::specs::Place::fault_place))]
pub fn fault_place(alloc: Global, text: &[u8], fault: AsmFault) -> Result<FaultPlace, AllocError>
    requires { length text.now < 2 ^ 32 - 1 }
    ensures { IfOk result (λ place. place ≡ fault_place text.now fault) }
{
    let labels = find_labels(alloc, text)?;
    let line = line_at(text, fault.line);
    Ok(stray_place(line).unwrap_or(place_on(&labels, fault.kind, line)))
}

impl fmt::Display for Opcode {
    ghost output = { λ opcode. Some (opcode_text opcode) };

    #[tactic(auto, unfolding(crate::specs::Place::opcode_text))]
    fn fmt<W: fmt::Write>(&self, f: &mut fmt::Formatter<W>) -> fmt::Result {
        f.write_str(match self {
            Opcode::Nop => "nop",
            Opcode::Alu => "alu",
            Opcode::Li => "li",
            Opcode::Br => "br",
        })
    }
}

/// The items of an instruction, each behind a blank.
#[tactic(auto, unfolding(crate::specs::Place::items_text))]
fn items_text(opcode: Opcode) -> &'static str
    ensures { result.now ≡ items_text opcode }
{
    match opcode {
        Opcode::Nop => "",
        Opcode::Alu => " sig unpack pm pack ca cm sf ws wa wm om oa ra rb aa ab ma mb",
        Opcode::Li => " mode pm pack ca cm sf ws wa wm imm",
        Opcode::Br => " sp cond rel reg ra ws wa wm imm, or to for a label",
    }
}

impl fmt::Display for Wanted {
    ghost output = { λ wanted. Some (wanted_text wanted) };

    #[tactic(auto, unfolding(crate::specs::Place::wanted_text))]
    fn fmt<W: fmt::Write>(&self, f: &mut fmt::Formatter<W>) -> fmt::Result {
        match self {
            Wanted::FirstWord => f.write_str(
                "an instruction begins with nop, alu, li or br, and a label ends with a colon",
            ),
            Wanted::LabelLine => f.write_str(
                "a label is a letter and then letters, digits or _, and stands alone with its colon",
            ),
            Wanted::NewLabel => f.write_str("an earlier line has this label"),
            Wanted::Equals => f.write_str("an item is a name, = and a value, without blanks"),
            Wanted::Item(opcode) => {
                let items = items_text(*opcode);
                write!(
                    f,
                    "there is no such item of {}, whose items are{}",
                    opcode, items
                )
            }
            Wanted::Order(opcode) => {
                let items = items_text(*opcode);
                write!(
                    f,
                    "the item is repeated or out of order; the order is{}",
                    items
                )
            }
            Wanted::Number(most) => write!(f, "the value is a decimal number from 0 to {}", most),
            Wanted::Operation(most) => write!(
                f,
                "the value is the name of an operation, or a decimal number from 0 to {}",
                most
            ),
            Wanted::Tab => f.write_str("a tab stands here: blanks part words"),
            Wanted::Return => f.write_str(
                "a carriage return stands here: a line ends with a line feed alone",
            ),
            Wanted::Target => f.write_str("the value is the name of a label that the text has"),
        }
    }
}
