//! Numbers of bytes, and in a text.
ghost use Rattle.std.specs.Prelude.{◌≡◌, ◌++◌, decimal, OnOk};
ghost use Rattle.field_words.specs.Words.{u64_at};

use field_words::byte_at;
use itoa::Buffer;
use std::alloc::AllocError;

/// Appends a number in decimal.
pub(crate) fn put_number(out: &mut Vec<u8>, number: usize) -> Result<(), AllocError>
    ensures { OnOk result (out.new.items ≡ out.old.items ++ decimal number) }
{
    let mut buffer = Buffer::new();
    out.extend_from_slice(buffer.format(number).as_bytes())
}

/// The number of up to eight bytes.
#[tactic(auto, unfolding(field_words::specs::Words::u64_at))]
pub(crate) fn instruction(bytes: &[u8]) -> u64
    ensures { result ≡ u64_at bytes.now 0 }
{
    u64::from_le_bytes([
        byte_at(bytes, 0),
        byte_at(bytes, 1),
        byte_at(bytes, 2),
        byte_at(bytes, 3),
        byte_at(bytes, 4),
        byte_at(bytes, 5),
        byte_at(bytes, 6),
        byte_at(bytes, 7),
    ])
}
