//! Words of a source that are copied as they are.
ghost use Rattle.std.specs.Prelude.{◌≡◌, ◌≤◌, ◌+◌, ◌*◌, length};
ghost use Rattle.field_words.specs.Sizes.{most_list};
ghost use Rattle.field_words.specs.WordBytes.{word_bytes};
ghost use Rattle.field_words.specs.Writes.{with_bytes};
ghost use Rattle.shader_records.specs.Sources.{word_from};

/// Puts bytes at a place of the window.
fn put_bytes(out: &mut [u8], at: usize, bytes: &[u8])
    requires { at + length bytes.now ≤ length out.old }
    ensures { out.new ≡ with_bytes out.old at bytes.now }
{
    out[at..at + bytes.len()].copy_from_slice(bytes);
}

/// Puts `count` words of a source, the first of which begins at `from`, at a place of the window.
pub(crate) fn copy_words(source: &[u8], from: usize, count: usize, out: &mut [u8], at: usize)
    requires limit { length source.now ≤ most_list }
    requires inside { from + 4 * count ≤ length source.now }
    requires room { at + 4 * count ≤ length out.old }
    ensures { out.new ≡ with_bytes out.old at (word_bytes (word_from source.now from) count) }
{
    put_bytes(out, at, &source[from..from + 4 * count]);
}
