//! Parts of a drawing.
ghost use Rattle.std.specs.Prelude.{◌≡◌, ◌++◌, [], codes, flat_map, OnOk, IfOk};
ghost use Rattle.std.specs.Fmt.{decimal};
ghost use Rattle.pictures.specs.Forest.{forest_text, attribute_text};
ghost use Rattle.pictures.specs.Parts.{block, block_attributes, paper, label, hex, word_element, root_attributes, opening};

use crate::svg::{Drawn, begin, close, end_leaf, end_tag, numbered, push_words, worded};
use std::alloc::{AllocError, Global};

/// What the elements' classes look like. The heat's seven tones are for reads and for writes.
const STYLE: &str = "
svg{font-family:sans-serif;font-size:14px}
text{fill:#222}
.head{font-size:18px;font-weight:bold}
.end,.row{text-anchor:end}
.row{font-size:11px}
.number{font-size:7px;text-anchor:middle;pointer-events:none;paint-order:stroke;stroke:#fff;stroke-width:2px}
.paper{fill:#fff}
.frame{fill:none;stroke:#777}
.free,.slots,.lists,.several,.data0,.data1,.data2,.data3,.code0,.code1,.code2,.code3{stroke:#fff}
.free{fill:#eee}
.slots{fill:#009e73}
.lists{fill:#555}
.several{fill:#f0e442}
.data0{fill:#08519c}
.data1{fill:#3182bd}
.data2{fill:#6baed6}
.data3{fill:#bdd7e7}
.code0{fill:#a63603}
.code1{fill:#e6550d}
.code2{fill:#fd8d3c}
.code3{fill:#fdbe85}
.pale{opacity:.2;filter:grayscale(1)}
.read1{fill:#9ecae1}
.read2{fill:#6baed6}
.read3{fill:#4292c6}
.read4{fill:#2171b5}
.read5{fill:#08519c}
.read6{fill:#08306b}
.read7{fill:#041a3b}
.write1{fill:#fdae6b}
.write2{fill:#fd8d3c}
.write3{fill:#f16913}
.write4{fill:#d94801}
.write5{fill:#a63603}
.write6{fill:#7f2704}
.write7{fill:#471602}
";

/// The name of the elements' namespace.
const NAMESPACE: &str = "http://www.w3.org/2000/svg";

/// The attributes of a box of this class: 18 columns and 12 rows.
pub(crate) fn push_block(out: &mut Vec<u8>, x: u64, y: u64, class: &str) -> Drawn
    ensures { OnOk result (out.new.items ≡ out.old.items
        ++ flat_map attribute_text (block_attributes x y class.now)) }
{
    numbered(out, "x", x)?;
    numbered(out, "y", y)?;
    numbered(out, "width", 18)?;
    numbered(out, "height", 12)?;
    worded(out, "class", class)
}

/// Appends a box.
pub fn push_box(out: &mut Vec<u8>, x: u64, y: u64, class: &str) -> Drawn
    ensures { OnOk result (out.new.items ≡ out.old.items ++ forest_text (block x y class.now)) }
{
    begin(out, "rect")?;
    push_block(out, x, y, class)?;
    end_leaf(out)
}

// The paper of a drawing of so many rows.
fn push_paper(out: &mut Vec<u8>, height: u64) -> Drawn
    ensures { OnOk result (out.new.items ≡ out.old.items ++ forest_text (paper height)) }
{
    begin(out, "rect")?;
    numbered(out, "x", 0)?;
    numbered(out, "y", 0)?;
    numbered(out, "width", 960)?;
    numbered(out, "height", height)?;
    worded(out, "class", "paper")?;
    end_leaf(out)
}

/// Appends words at a place, in this class.
pub fn push_label(out: &mut Vec<u8>, x: u64, y: u64, class: &str, words: &[u8]) -> Drawn
    ensures { OnOk result (out.new.items ≡ out.old.items
        ++ forest_text (label x y class.now words.now)) }
{
    begin(out, "text")?;
    numbered(out, "x", x)?;
    numbered(out, "y", y)?;
    worded(out, "class", class)?;
    end_tag(out)?;
    push_words(out, words)?;
    close(out, "text")
}

/// A number as words.
pub(crate) fn decimal(alloc: Global, number: u64) -> Result<Vec<u8>, AllocError>
    ensures { IfOk result (λ words. words.items ≡ decimal number) }
{
    Ok(format!(in alloc; "{number}")?.into_bytes())
}

/// A number in hexadecimal: `0x1a0`.
#[tactic(auto, unfolding(crate::specs::Parts::hex))]
pub(crate) fn hex(alloc: Global, number: u64) -> Result<Vec<u8>, AllocError>
    ensures { IfOk result (λ text. text.items ≡ hex number) }
{
    Ok(format!(in alloc; "0x{number:x}")?.into_bytes())
}

// An element without attributes that has words in it.
fn push_word_element(out: &mut Vec<u8>, name: &str, words: &str) -> Drawn
    ensures { OnOk result (out.new.items ≡ out.old.items
        ++ forest_text (word_element name.now words.now)) }
{
    begin(out, name)?;
    end_tag(out)?;
    push_words(out, words.as_bytes())?;
    close(out, name)
}

// The root's attributes.
fn push_root(alloc: Global, out: &mut Vec<u8>, height: u64) -> Drawn
    ensures { OnOk result (out.new.items ≡ out.old.items
        ++ flat_map attribute_text (root_attributes height)) }
{
    let view = format!(in alloc; "0 0 960 {height}")?;
    worded(out, "xmlns", NAMESPACE)?;
    numbered(out, "width", 960)?;
    numbered(out, "height", height)?;
    worded(out, "viewBox", view.as_str())
}

/// Begins a drawing of 960 columns and so many rows.
pub fn begin_drawing(alloc: Global, out: &mut Vec<u8>, height: u64, title: &str) -> Drawn
    ensures { OnOk result (out.new.items ≡ out.old.items ++ opening height title.now) }
{
    begin(out, "svg")?;
    push_root(alloc, out, height)?;
    end_tag(out)?;
    push_word_element(out, "title", title)?;
    push_word_element(out, "style", STYLE)?;
    push_paper(out, height)
}

/// Ends a drawing.
pub fn end_drawing(out: &mut Vec<u8>) -> Drawn
    ensures { OnOk result (out.new.items ≡ out.old.items
        ++ (codes "</" ++ (codes "svg" ++ codes ">\n"))) }
{
    close(out, "svg")
}
