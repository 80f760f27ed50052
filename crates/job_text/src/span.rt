//! Bytes of a file, and where they stand.
ghost use Rattle.std.specs.Prelude.{◌+◌, ◌<◌, ◌^◌, length};

/// Some bytes of a file, and their offset in it.
#[derive(Clone, Copy)]
pub struct Span<'a> {
    pub at: usize,
    pub bytes: &'a [u8],
    ghost inside: { at + length bytes.now < 2 ^ 64 },
}
