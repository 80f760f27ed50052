//! The bound on the steps of a file's jobs.
ghost use Rattle.std.specs.Prelude.{◌≡◌, ◌≢◌, ◌≤◌};
ghost use Rattle.job_check.specs.Whole.{refusal_of};
ghost use Rattle.vc4check_c.specs.Bound.{bounded_answer, unbounded_answer, IsBounded, IsUnbounded};

use crate::jobs::{letter, offset_in};
use crate::status::{ACCEPTED, NO_MEMORY, REFUSED};
use field_words::Stop;
use job_bound::{Bound, bound_bytes};
use job_format::Rule;
use std::alloc::Global;

/// How long jobs may run. Of accepted ones in which no shader branches back: the most steps of a run, in two halves of 64 bits, how many more
/// there may be for each step in which a renderer stays at an item, and how many items there may be; and whether a program may wait for a
/// request that isn't there (1), with the offset of the first instruction that may. Of accepted ones in which a shader does: that it loops (1),
/// and the offset of the first such branch. Of refused ones: the rule, by its letter in ASCII and its number, and the offset of what it is
/// about. Offsets are of the job file. The other fields are zero.
#[repr(C)]
#[derive(Clone, Copy, Debug, PartialEq, Eq)]
pub struct BoundAnswer {
    pub offset: u64,
    pub steps_low: u64,
    pub steps_high: u64,
    pub stay: u64,
    pub items: u64,
    pub loops: u32,
    pub waits: u32,
    pub letter: u32,
    pub number: u32,
}

/// The answer that says nothing.
pub(crate) const NO_BOUND: BoundAnswer = BoundAnswer {
    offset: 0,
    steps_low: 0,
    steps_high: 0,
    stay: 0,
    items: 0,
    loops: 0,
    waits: 0,
    letter: 0,
    number: 0,
};

/// The answer for a bound.
#[tactic(auto, unfolding(crate::specs::Bound::bounded_answer))]
pub(crate) fn bounded(bound: &Bound) -> BoundAnswer
    ensures { result ≡ bounded_answer bound.now }
{
    match *bound {
        Bound::Steps {
            most,
            stay,
            items,
            wait,
        } => BoundAnswer {
            offset: wait.unwrap_or(0),
            steps_low: (most % (1u128 << 64)) as u64,
            steps_high: (most / (1u128 << 64)) as u64,
            stay: u64::from(stay),
            items,
            waits: u32::from(wait.is_some()),
            ..NO_BOUND
        },
        Bound::Loops { offset } => BoundAnswer {
            offset,
            loops: 1,
            ..NO_BOUND
        },
    }
}

/// The answer for a refusal.
#[tactic(auto, unfolding(crate::specs::Bound::unbounded_answer))]
pub(crate) fn unbounded(rule: Rule, offset: u64) -> BoundAnswer
    ensures { result ≡ unbounded_answer rule offset }
{
    BoundAnswer {
        offset,
        letter: u32::from(letter(rule.stage)),
        number: u32::from(rule.number),
        ..NO_BOUND
    }
}

/// Checks the job file that `bytes` hold, and answers how many steps a run of its jobs takes at most. No memory of the jobs is made.
///
/// | Status | Meaning | `answer` |
/// |---|---|---|
/// | 0 | accepted | the numbers and where a program may wait first, or that a shader branches back and where |
/// | 1 | refused | the first rule that is broken, and its offset |
/// | 3 | out of memory; nothing is said of the file | as before |
#[unsafe(no_mangle)]
#[tactic(auto, unfolding(job_check::specs::Whole::refusal_of), using(field_words::proofs::Questions::first_is))]
pub extern "C" fn vc4check_bound(alloc: Global, bytes: &[u8], answer: &mut BoundAnswer) -> u32
    ensures statuses { result ≤ 3 }
    ensures accepted { result ≡ 0 → IsBounded bytes.now answer.new }
    ensures refused { result ≡ 1 → IsUnbounded bytes.now (refusal_of bytes.now) answer.new }
    ensures starved { result ≡ 3 → answer.new ≡ answer.old }
    ensures known { result ≢ 2 }
{
    match bound_bytes(alloc, bytes) {
        Ok(bound) => {
            *answer = bounded(&bound);
            ACCEPTED
        }
        Err(Stop::Fault(refusal)) => match offset_in(bytes, &refusal) {
            Some(offset) => {
                *answer = unbounded(refusal.rule, offset);
                REFUSED
            }
            None => NO_MEMORY,
        },
        Err(Stop::NoMemory) => NO_MEMORY,
    }
}
