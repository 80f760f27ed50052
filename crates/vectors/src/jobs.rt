//! A row of job files, each behind its length.
ghost use Rattle.std.specs.Prelude.{◌≤◌, ◌<◌, ◌+◌, length, IfSome};

use super::job_answer::answer;
use field_words::{NoMemory, get_u32};
use std::alloc::Global;

/// The bytes of a length.
const LENGTH: usize = 4;

/// Where the job file whose length stands at `at` ends, or `None` where it isn't all there.
fn end_of(bytes: &[u8], at: usize) -> Option<usize>
    ensures { IfSome result (λ end. (at + 4 ≤ end) × (end ≤ length bytes.now)) }
{
    let size = get_u32(bytes, at)? as usize;
    let start = at + LENGTH;
    if size > bytes.len() - start {
        return None;
    }
    Some(start + size)
}

/// The lines for all of them.
pub fn lines(alloc: Global, bytes: &[u8]) -> Result<Vec<u8>, NoMemory> {
    let mut lines = Vec::new(alloc);
    let mut at = 0;
    while let Some(end) = end_of(bytes, at) {
        let line = answer(alloc, &bytes[at + LENGTH..end])?;
        lines.extend_from_slice(&line)?;
        at = end;
    }
    Ok(lines)
}
