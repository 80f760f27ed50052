//! What is kept of a run's steps: their lines, or all their accesses.
ghost use Rattle.std.specs.Prelude.{◌≡◌, ◌++◌, OnOk};
ghost use Rattle.replay.specs.Run.{accesses_numbered, HasMore};

use crate::trace::{Ending, TraceLine};
use field_words::Access;
use std::alloc::AllocError;

/// An access, and the number of the step that did it, from 0 on.
#[derive(Clone, Copy, Debug, PartialEq, Eq)]
pub struct Logged {
    pub step: u32,
    pub access: Access,
}

/// All accesses of a run in order, how many steps it had, and its ending.
#[derive(Debug, Drop)]
pub struct Log {
    pub accesses: Vec<Logged>,
    pub steps: u32,
    pub ending: Ending,
}

/// What is kept of the steps so far: where they are logged all accesses, and else a line of each.
#[derive(Drop)]
pub(crate) struct Kept {
    pub(crate) logs: bool,
    pub(crate) lines: Vec<TraceLine>,
    pub(crate) accesses: Vec<Logged>,
}

// Puts the accesses of this step to those before it.
fn put_step(kept: &mut Vec<Logged>, step: u32, accesses: &[Access]) -> Result<(), AllocError>
    ensures { OnOk result (kept.new.items ≡ kept.old.items ++ accesses_numbered step accesses.now) }
{
    for access in accesses {
        kept.push(Logged {
            step,
            access: *access,
        })?;
    }
    Ok(())
}

/// Keeps this step, which has this line and did these accesses.
pub(crate) fn keep(
    kept: &mut Kept,
    step: u32,
    line: TraceLine,
    accesses: &[Access],
) -> Result<(), AllocError>
    ensures logs { kept.new.logs ≡ kept.old.logs }
    ensures more { OnOk result (HasMore kept.old.logs step line accesses.now kept.old kept.new) }
{
    if kept.logs {
        put_step(&mut kept.accesses, step, accesses)?;
    } else {
        kept.lines.push(line)?;
    }
    Ok(())
}
