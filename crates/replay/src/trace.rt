//! What is kept of a run: a line for each step, and how it ended.
ghost use Rattle.std.specs.Prelude.{◌≡◌, ◌≤◌, ◌+◌, length};
ghost use Rattle.replay.specs.Trace.{with_access, line_closed, line_of, IsOpen};

use field_words::{Access, Actor, Way};

/// What a step did: the unit, the job for which it stepped, how many reads and writes, the least place of an access, and the
/// greatest end. Without an access the last two are 0. Wild accesses are left out.
#[derive(Clone, Copy, Debug, PartialEq, Eq)]
pub struct TraceLine {
    pub unit: Actor,
    pub job: u8,
    pub reads: u32,
    pub writes: u32,
    pub low: u64,
    pub high: u64,
}

/// Why a run ended.
#[derive(Clone, Copy, Debug, PartialEq, Eq)]
pub enum Ending {
    /// The machine is finished.
    Finished,
    /// It isn't, and no unit is enabled.
    Waiting,
    /// All steps that were asked for were done, and neither of these holds.
    Spent,
}

/// A run's lines, one for each step, and its ending.
#[derive(Debug, Drop)]
pub struct Trace {
    pub lines: Vec<TraceLine>,
    pub ending: Ending,
}

// The line with one access more, while it isn't closed.
#[inline]
#[tactic(auto, unfolding(crate::specs::Trace::with_access, crate::specs::Trace::end_of))]
fn with_access(line: TraceLine, access: &Access) -> TraceLine
    requires opened { IsOpen line }
    requires reads { line.reads ≤ 1000 }
    requires writes { line.writes ≤ 1000 }
    ensures value { line_closed result ≡ with_access (line_closed line) access.now }
    ensures opened { IsOpen result }
    ensures reads { result.reads ≤ line.reads + 1 }
    ensures writes { result.writes ≤ line.writes + 1 }
{
    match access.way {
        Way::Read => TraceLine {
            reads: line.reads + 1,
            low: line.low.min(access.place),
            high: line
                .high
                .max(access.place.saturating_add(access.len as u64)),
            ..line
        },
        Way::Write => TraceLine {
            writes: line.writes + 1,
            low: line.low.min(access.place),
            high: line
                .high
                .max(access.place.saturating_add(access.len as u64)),
            ..line
        },
        Way::Wild => line,
    }
}

// The line as it is kept, whose least place is 0 where there is no access.
fn closed(line: TraceLine) -> TraceLine
    ensures { result ≡ line_closed line }
{
    if line.reads == 0 && line.writes == 0 {
        TraceLine { low: 0, ..line }
    } else {
        line
    }
}

/// The line of a step of this unit for this job, with these accesses.
pub(crate) fn line_of(unit: Actor, job: u8, accesses: &[Access]) -> TraceLine
    requires { length accesses.now ≤ 272 }
    ensures { result ≡ line_of unit job accesses.now }
{
    let mut line = TraceLine {
        unit,
        job,
        reads: 0,
        writes: 0,
        low: u64::MAX,
        high: 0,
    };
    for access in accesses {
        line = with_access(line, access);
    }
    closed(line)
}
