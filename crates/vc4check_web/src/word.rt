//! The words of a call.
ghost use Rattle.std.specs.Prelude.{◌≡◌, map, IfOk};
ghost use Rattle.commands.specs.Line.{texts};
ghost use Rattle.vc4check_web.specs.Call.{word_text};

use std::alloc::{AllocError, Global};

/// A word, as UTF-8.
#[repr(C)]
#[derive(Clone, Copy, Debug)]
pub struct Word<'a> {
    pub bytes: &'a [u8],
}

/// The words as text, where what isn't UTF-8 is replaced.
pub(crate) fn words_of(alloc: Global, given: &[Word]) -> Result<Vec<String>, AllocError>
    ensures { IfOk result (λ words. texts words.items ≡ map word_text given.now) }
{
    let mut words = Vec::with_capacity(alloc, given.len())?;
    for word in given {
        words.push(String::from_utf8_lossy(alloc, word.bytes)?)?;
    }
    Ok(words)
}
