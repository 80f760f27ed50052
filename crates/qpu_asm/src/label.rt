//! The labels of a text, and where each one stands first.
ghost use Rattle.std.specs.Prelude.{◌≡◌, ◌<◌, ◌^◌, length, IfOk, OnOk};
ghost use Rattle.qpu_asm.specs.Labels.{spots_of, spots_with, size_of};
ghost use Rattle.qpu_asm.specs.Lines.{Label};
ghost use Rattle.qpu_asm.specs.Seen.{line_seen, spots_in};

use crate::lines::{Line, read_line};
use script::next_line;
use std::alloc::{AllocError, Global};
use std::collections::BTreeMap;

/// Where a label stands: its line, and the index of the next instruction.
#[derive(Clone, Copy, Debug, PartialEq, Eq)]
pub struct Spot {
    pub line: u32,
    pub index: u32,
}

/// The labels of a text, each with the first place that it has.
#[derive(Drop)]
pub struct Labels<'a> {
    pub spots: BTreeMap<&'a [u8], Spot>,
}

/// The labels of a text.
pub fn find_labels(alloc: Global, text: &[u8]) -> Result<Labels<'_>, AllocError>
    requires { length text.now < 2 ^ 32 }
    ensures { IfOk result (λ labels. spots_in labels ≡ spots_of text.now) }
{
    let mut labels = Labels {
        spots: BTreeMap::new(alloc),
    };
    let mut rest = text;
    let mut line: u64 = 1;
    let mut index: u64 = 0;
    while !rest.is_empty() {
        let cut = next_line(rest);
        let first = read_line(cut.first);
        let spot = Spot {
            line: line as u32,
            index: index as u32,
        };
        add_line(&mut labels, first, spot)?;
        line += 1;
        index += size(first);
        rest = cut.rest;
    }
    Ok(labels)
}

// An instruction's line takes an index.
fn size(line: Line<'_>) -> u64
    ensures { result ≡ size_of (line_seen line.entry) }
{
    match line {
        Line::Coded(_) => 1,
        _ => 0,
    }
}

// Puts the label of a line, where it has one that is new, to those of the lines above it.
fn add_line<'a>(labels: &mut Labels<'a>, line: Line<'a>, spot: Spot) -> Result<(), AllocError>
    ensures { OnOk result (spots_in labels.new
        ≡ spots_with (spots_in labels.old) spot.line spot.index (line_seen line.entry)) }
{
    match line {
        Line::Label(name) => add_label(labels, name, spot),
        Line::Blank | Line::BadLabel | Line::Coded(_) => Ok(()),
    }
}

fn add_label<'a>(labels: &mut Labels<'a>, name: &'a [u8], spot: Spot) -> Result<(), AllocError>
    ensures { OnOk result (spots_in labels.new
        ≡ spots_with (spots_in labels.old) spot.line spot.index (Label name.now)) }
{
    match find_spot(labels, name) {
        Some(_) => Ok(()),
        None => {
            labels.spots.insert(name, spot)?;
            Ok(())
        }
    }
}

/// Where the label of a name stands.
pub fn find_spot<'a>(labels: &Labels<'a>, name: &'a [u8]) -> Option<Spot>
    ensures { result ≡ spots_in labels.now name.now }
{
    labels.spots.get(&name).copied()
}
