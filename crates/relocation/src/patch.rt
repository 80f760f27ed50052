//! Words that are put into a list after the fact.
ghost use Rattle.std.specs.Prelude.{◌≡◌, length};
ghost use Rattle.relocation.specs.Patches.{window_patched, AllInside};

use field_words::put_u32;

/// A word, and the place where it goes: an offset in the window that it is put into, in bytes.
#[derive(Clone, Copy, PartialEq, Eq, Debug)]
pub struct Patch {
    pub at: u32,
    pub word: u32,
}

/// Puts each word, little endian, at its place, in order: of two that meet, the later one stays. No other byte changes.
pub fn apply(out: &mut [u8], patches: &[Patch])
    requires inside { AllInside (length out.old) patches.now }
    ensures put { out.new ≡ window_patched out.old patches.now }
    ensures long { length out.new ≡ length out.old }
{
    for patch in patches {
        put_u32(out, patch.at as usize, patch.word);
    }
}
