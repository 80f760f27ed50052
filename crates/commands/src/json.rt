//! Strings of JSON.
ghost use Rattle.std.specs.Prelude.{◌≡◌, ◌++◌, OnOk};
ghost use Rattle.commands.specs.Json.{escape, text_escaped};

use std::alloc::{AllocError, Global};

// A byte, or its escape where it has a meaning or is a control character.
fn push_escape(alloc: Global, out: &mut Vec<u8>, byte: u8) -> Result<(), AllocError>
    ensures { OnOk result (out.new.items ≡ out.old.items ++ escape byte) }
{
    match byte {
        b'"' => out.extend_from_slice(b"\\\""),
        b'\\' => out.extend_from_slice(b"\\\\"),
        _ if byte <= 31 => {
            let digits = hex::encode(alloc, [byte])?;
            out.extend_from_slice(b"\\u00")?;
            out.extend_from_slice(digits.as_bytes())
        }
        _ => out.extend_from_slice(&[byte]),
    }
}

/// Appends text as it stands in a JSON string, between quotes.
#[tactic(auto, unfolding(crate::specs::Json::text_escaped))]
pub fn push_escaped(alloc: Global, out: &mut Vec<u8>, text: &[u8]) -> Result<(), AllocError>
    ensures { OnOk result (out.new.items ≡ out.old.items ++ text_escaped text.now) }
{
    for byte in text {
        push_escape(alloc, out, *byte)?;
    }
    Ok(())
}
