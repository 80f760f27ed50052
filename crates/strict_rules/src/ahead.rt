//! What the next three instructions leave: where a switch acts, and the end.
ghost use Rattle.std.specs.Prelude.{◌≡◌, ◌<◌, ◌≤◌, ◌+◌, ◌*◌, ◌||◌, length};
ghost use Rattle.field_words.specs.Sizes.{most_words};
ghost use Rattle.shader_flow.specs.Flow.{checked_of};
ghost use Rattle.shader_flow.specs.Pending.{pending_of};
ghost use Rattle.strict_rules.specs.Queue.{keeps_words, queue_of, requests_of, last_act};
ghost use Rattle.strict_rules.specs.Rules.{has_older};
ghost use Rattle.strict_rules.specs.Walk.{IsWalked, load_count};

use crate::queues::has_older_behind;
use crate::state::Walked;
use crate::step::{load_count, next_count, next_pending};

// How many setup words a TMU keeps three instructions on.
fn pending_ahead(code: &[u64], last: usize, tmu: u8, at: usize, pending: u16) -> u16
    requires number { tmu < 2 }
    requires last { last ≡ checked_of code.now }
    requires inside { last ≤ length code.now }
    requires near { at < most_words }
    requires kept { pending ≡ pending_of code.now tmu at }
    requires bound { pending ≤ 2 * at }
    ensures { result ≡ pending_of code.now tmu (at + 3) }
{
    let one = next_pending(code, last, tmu, at, pending);
    let two = next_pending(code, last, tmu, at + 1, one);
    next_pending(code, last, tmu, at + 1 + 1, two)
}

// How many requests of a TMU are outstanding three instructions on.
fn count_ahead(code: &[u64], last: usize, tmu: u8, at: usize, count: u32) -> u32
    requires number { tmu < 2 }
    requires last { last ≡ checked_of code.now }
    requires inside { last ≤ length code.now }
    requires near { at < most_words }
    requires counted { count ≡ length (queue_of code.now tmu at) }
    requires few { count ≤ 4 }
    ensures value { result ≡ length (queue_of code.now tmu (at + 3)) }
    ensures small { result ≤ 7 }
{
    let one = next_count(code, last, tmu, at, count);
    let two = next_count(code, last, tmu, at + 1, one);
    next_count(code, last, tmu, at + 1 + 1, two)
}

// How many requests of a TMU the next three instructions load.
fn taken_ahead(code: &[u64], last: usize, tmu: u8, at: usize) -> usize
    requires number { tmu < 2 }
    requires last { last ≡ checked_of code.now }
    requires inside { last ≤ length code.now }
    requires near { at < most_words }
    ensures { result ≡ load_count code.now tmu at + load_count code.now tmu (at + 1)
        + load_count code.now tmu (at + 2) }
{
    load_count(code, last, tmu, at)
        + load_count(code, last, tmu, at + 1)
        + load_count(code, last, tmu, at + 2)
}

/// Whether a TMU keeps setup words three instructions on.
#[tactic(auto, unfolding(crate::specs::Queue::keeps_words))]
pub(crate) fn keeps_words(code: &[u64], last: usize, at: usize, walked: &Walked) -> bool
    requires last { last ≡ checked_of code.now }
    requires inside { last ≤ length code.now }
    requires near { at < most_words }
    requires walked { IsWalked code.now at walked.now }
    ensures { result ≡ keeps_words code.now (at + 3) }
{
    0 < pending_ahead(code, last, 0, at, walked.unit0.pending)
        || 0 < pending_ahead(code, last, 1, at, walked.unit1.pending)
}

/// How many requests are outstanding three instructions on.
#[tactic(auto, unfolding(crate::specs::Queue::requests_of))]
pub(crate) fn requests(code: &[u64], last: usize, at: usize, walked: &Walked) -> u32
    requires last { last ≡ checked_of code.now }
    requires inside { last ≤ length code.now }
    requires near { at < most_words }
    requires walked { IsWalked code.now at walked.now }
    ensures { result ≡ requests_of code.now (at + 3) }
{
    count_ahead(code, last, 0, at, walked.unit0.queue.len() as u32)
        + count_ahead(code, last, 1, at, walked.unit1.queue.len() as u32)
}

/// Whether, three instructions on, a request is outstanding that was sent before the last switch acted.
pub(crate) fn keeps_older(code: &[u64], last: usize, at: usize, walked: &Walked) -> bool
    requires last { last ≡ checked_of code.now }
    requires inside { last ≤ length code.now }
    requires near { at < most_words }
    requires walked { IsWalked code.now at walked.now }
    ensures { result ≡ (has_older (last_act code.now at) (queue_of code.now 0 (at + 3))
        || has_older (last_act code.now at) (queue_of code.now 1 (at + 3))) }
{
    let taken0 = taken_ahead(code, last, 0, at);
    let taken1 = taken_ahead(code, last, 1, at);
    let older0 = has_older_behind(walked.unit0.queue.as_slice(), taken0, walked.acted);
    let older1 = has_older_behind(walked.unit1.queue.as_slice(), taken1, walked.acted);
    if older0 {
        return true;
    }
    older1
}
