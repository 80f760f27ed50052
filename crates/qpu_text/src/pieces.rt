//! Texts put one behind the other.
ghost use Rattle.std.specs.Prelude.{◌≡◌, ◌++◌, OnOk};
ghost use Rattle.qpu_text.specs.Pieces.{pieces_joined, texts_in, named_in, if_so};

use std::alloc::AllocError;

/// Appends some texts, one behind the other.
///
/// # Errors
/// Want of memory is the only one.
pub fn put_all(out: &mut Vec<u8>, pieces: &[&str]) -> Result<(), AllocError>
    ensures { OnOk result (out.new.items ≡ out.old.items ++ pieces_joined pieces.now) }
{
    for piece in pieces {
        out.extend_from_slice(piece.as_bytes())?;
    }
    Ok(())
}

/// The name of a number, or nothing where it has none.
pub fn named(rows: &'static [&'static str], number: u8) -> &'static str
    ensures { result.now ≡ named_in (texts_in rows.now) number }
{
    match rows.get(usize::from(number)) {
        None => "",
        Some(name) => name,
    }
}

/// A text where it is so, else nothing.
pub fn if_so(is: bool, text: &'static str) -> &'static str
    ensures { result.now ≡ if_so is text.now }
{
    if is { text } else { "" }
}
