//! The text of a drawing: elements with attributes, and words with escapes. An element is written in pieces: `begin`, its attributes, and
//! `end_leaf`; or `end_tag`, what is in it, and `close`.

ghost use Rattle.std.specs.Prelude.{◌≡◌, ◌++◌, codes, OnOk};
ghost use Rattle.std.specs.Fmt.{decimal};
ghost use Rattle.pictures.specs.Forest.{escape, words_escaped, word_attribute, number_attribute, attribute_text};

use itoa::Buffer;
use std::alloc::AllocError;

/// What came of drawing: nothing but want of memory is in its way.
pub(crate) type Drawn = Result<(), AllocError>;

// A byte, or its name where it has a meaning.
fn push_escape(out: &mut Vec<u8>, byte: u8) -> Drawn
    ensures { OnOk result (out.new.items ≡ out.old.items ++ escape byte) }
{
    match byte {
        b'&' => out.extend_from_slice(b"&amp;"),
        b'<' => out.extend_from_slice(b"&lt;"),
        b'>' => out.extend_from_slice(b"&gt;"),
        b'"' => out.extend_from_slice(b"&quot;"),
        _ => out.extend_from_slice(&[byte]),
    }
}

/// Appends words, with escapes.
#[tactic(auto, unfolding(crate::specs::Forest::words_escaped))]
pub fn push_words(out: &mut Vec<u8>, words: &[u8]) -> Drawn
    ensures { OnOk result (out.new.items ≡ out.old.items ++ words_escaped words.now) }
{
    for byte in words {
        push_escape(out, *byte)?;
    }
    Ok(())
}

/// Appends a number as words.
pub fn push_number(out: &mut Vec<u8>, number: u64) -> Drawn
    ensures { OnOk result (out.new.items ≡ out.old.items ++ words_escaped (decimal number)) }
{
    let mut buffer = Buffer::new();
    push_words(out, buffer.format(number).as_bytes())
}

/// Begins an element.
pub fn begin(out: &mut Vec<u8>, name: &str) -> Drawn
    ensures { OnOk result (out.new.items ≡ out.old.items ++ (codes "<" ++ name.now)) }
{
    out.extend_from_slice(b"<")?;
    out.extend_from_slice(name.as_bytes())
}

/// An attribute of the element that was begun, whose value is words.
#[tactic(auto, unfolding(crate::specs::Forest::attribute_text))]
pub fn worded(out: &mut Vec<u8>, name: &str, value: &str) -> Drawn
    ensures { OnOk result (out.new.items ≡ out.old.items
        ++ attribute_text (word_attribute name.now value.now)) }
{
    out.extend_from_slice(b" ")?;
    out.extend_from_slice(name.as_bytes())?;
    out.extend_from_slice(b"=\"")?;
    push_words(out, value.as_bytes())?;
    out.extend_from_slice(b"\"")
}

/// An attribute of the element that was begun, whose value is a number.
#[tactic(auto, unfolding(crate::specs::Forest::attribute_text))]
pub fn numbered(out: &mut Vec<u8>, name: &str, number: u64) -> Drawn
    ensures { OnOk result (out.new.items ≡ out.old.items
        ++ attribute_text (number_attribute name.now number)) }
{
    out.extend_from_slice(b" ")?;
    out.extend_from_slice(name.as_bytes())?;
    out.extend_from_slice(b"=\"")?;
    push_number(out, number)?;
    out.extend_from_slice(b"\"")
}

/// Ends an element that has nothing in it.
pub fn end_leaf(out: &mut Vec<u8>) -> Drawn
    ensures { OnOk result (out.new.items ≡ out.old.items ++ codes "/>\n") }
{
    out.extend_from_slice(b"/>\n")
}

/// Ends the attributes of an element that has things in it.
pub fn end_tag(out: &mut Vec<u8>) -> Drawn
    ensures { OnOk result (out.new.items ≡ out.old.items ++ codes ">") }
{
    out.extend_from_slice(b">")
}

/// Closes an element that has things in it.
pub fn close(out: &mut Vec<u8>, name: &str) -> Drawn
    ensures { OnOk result (out.new.items ≡ out.old.items
        ++ (codes "</" ++ (name.now ++ codes ">\n"))) }
{
    out.extend_from_slice(b"</")?;
    out.extend_from_slice(name.as_bytes())?;
    out.extend_from_slice(b">\n")
}
