//! The copy that both sources in memory make.
ghost use Rattle.std.specs.Prelude.{◌≡◌, ◌≤◌, ◌<◌, ◌+◌, [], ◌++◌, length, take, drop, min};

/// Copies what stands at `at` to the front of `buf`, at most `most` bytes of it, and says how many.
pub fn give(bytes: &[u8], at: usize, most: usize, buf: &mut [u8]) -> usize
    requires { at ≤ length bytes.now }
    ensures count { result ≡ min most (min (length buf.new) (length (drop at bytes.now))) }
    ensures inside { at + result ≤ length bytes.now }
    ensures given { drop at bytes.now ≡ take result buf.new ++ drop (at + result) bytes.now }
    ensures end { 1 ≤ most → result ≡ 0 → 0 < length buf.new → drop (at + result) bytes.now ≡ [] }
{
    let left = &bytes[at..];
    let count = most.min(buf.len().min(left.len()));
    buf[..count].copy_from_slice(&left[..count]);
    count
}
