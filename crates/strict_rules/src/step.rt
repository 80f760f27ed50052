//! From one instruction to the next: setup words and requests.
ghost use Rattle.std.specs.Prelude.{◌≡◌, ◌<◌, ◌≤◌, ◌+◌, ◌-◌, ◌*◌, [], true, length, if◌then◌else◌};
ghost use Rattle.field_words.specs.Sizes.{most_words};
ghost use Rattle.arrayvec.specs.ArrayVec.{array_vec_len};
ghost use Rattle.shader_flow.specs.Flow.{word, checked_of};
ghost use Rattle.shader_flow.specs.Pending.{pending_of};
ghost use Rattle.qpu_isa.specs.Terms.{writes_s, loads};
ghost use Rattle.strict_rules.specs.Queue.{queue_after, queue_of, last_act};
ghost use Rattle.strict_rules.specs.Walk.{IsKept, IsWalked, load_count};

use crate::state::{Request, Unit, Walked};
use arrayvec::ArrayVec;
use qpu_isa::word::is_switch;
use qpu_isa::writes::{loads, tmu_writes, writes_s};

/// How many setup words the TMU keeps after the instruction `at`, where it keeps `pending` before.
pub(crate) fn next_pending(code: &[u64], last: usize, tmu: u8, at: usize, pending: u16) -> u16
    requires number { tmu < 2 }
    requires last { last ≡ checked_of code.now }
    requires inside { last ≤ length code.now }
    requires near { at < 2 * most_words }
    requires kept { pending ≡ pending_of code.now tmu at }
    requires bound { pending ≤ 2 * at }
    ensures value { result ≡ pending_of code.now tmu (at + 1) }
    ensures bound { result ≤ 2 * (at + 1) }
{
    if at >= last {
        return pending;
    }
    if writes_s(code[at], tmu) {
        return 0;
    }
    pending + tmu_writes(code[at], tmu)
}

// How many requests of a TMU are outstanding after an instruction, where `count` are before.
fn count_after(word: u64, tmu: u8, count: u32) -> u32
    requires number { tmu < 2 }
    requires bound { count ≤ 2 * most_words }
    ensures value { result ≡ (if loads word tmu then count - 1 else count)
        + (if writes_s word tmu then 1 else 0) }
    ensures bound { result ≤ count + 1 }
{
    let left = if loads(word, tmu) {
        count.saturating_sub(1)
    } else {
        count
    };
    left + u32::from(writes_s(word, tmu))
}

/// How many requests of the TMU are outstanding after the instruction `at`, where `count` are before.
pub(crate) fn next_count(code: &[u64], last: usize, tmu: u8, at: usize, count: u32) -> u32
    requires number { tmu < 2 }
    requires last { last ≡ checked_of code.now }
    requires inside { last ≤ length code.now }
    requires near { at < 2 * most_words }
    requires counted { count ≡ length (queue_of code.now tmu at) }
    requires bound { count ≤ 2 * most_words }
    ensures value { result ≡ length (queue_of code.now tmu (at + 1)) }
    ensures bound { result ≤ count + 1 }
{
    if at >= last {
        return count;
    }
    count_after(code[at], tmu, count)
}

/// How many loads from the TMU the instruction `at` makes.
#[tactic(auto, unfolding(crate::specs::Walk::load_count))]
pub(crate) fn load_count(code: &[u64], last: usize, tmu: u8, at: usize) -> usize
    requires number { tmu < 2 }
    requires last { last ≡ checked_of code.now }
    requires inside { last ≤ length code.now }
    ensures value { result ≡ load_count code.now tmu at }
    ensures bound { result ≤ 1 }
{
    if at < last && loads(code[at], tmu) {
        return 1;
    }
    0
}

// The requests that are outstanding after an instruction.
#[tactic(auto, using(field_words::proofs::Lists::remove_first, field_words::proofs::Lists::drop_none), unfolding(crate::specs::Queue::queue_after))]
fn next_queue(word: u64, tmu: u8, request: Request, queue: &mut ArrayVec<Request, 4>)
    requires number { tmu < 2 }
    requires room { writes_s word tmu ≡ true → array_vec_len queue.old < 4 }
    ensures { queue.new.items ≡ queue_after word tmu request queue.old.items }
{
    if loads(word, tmu) && !queue.is_empty() {
        queue.remove(0);
    }
    if writes_s(word, tmu) {
        queue.push(request);
    }
}

// A TMU after the instruction `at`.
fn next_unit(code: &[u64], last: usize, tmu: u8, at: usize, unit: &mut Unit)
    requires number { tmu < 2 }
    requires last { last ≡ checked_of code.now }
    requires inside { last ≤ length code.now }
    requires few { length code.now ≤ most_words }
    requires here { at < last }
    requires room { writes_s (word code.now at) tmu ≡ true → array_vec_len unit.old.queue < 4 }
    requires kept { IsKept code.now tmu at unit.old }
    ensures { IsKept code.now tmu (at + 1) unit.new }
{
    let request = Request {
        sent: at as u32,
        slots: unit.pending + 1,
    };
    next_queue(code[at], tmu, request, &mut unit.queue);
    unit.pending = next_pending(code, last, tmu, at, unit.pending);
}

// Where the last switch up to the instruction behind `at` acted.
fn next_acted(code: &[u64], at: usize, latest: u32) -> u32
    requires few { length code.now ≤ most_words }
    requires inside { at < length code.now }
    requires before { latest ≡ last_act code.now at }
    ensures { result ≡ last_act code.now (at + 1) }
{
    if at < 2 {
        return latest;
    }
    if is_switch(code[at - 2]) {
        return at as u32 + 1;
    }
    latest
}

/// What the walk carries after the instruction `at`.
pub(crate) fn step(code: &[u64], last: usize, at: usize, walked: &mut Walked)
    requires last { last ≡ checked_of code.now }
    requires inside { last ≤ length code.now }
    requires few { length code.now ≤ most_words }
    requires here { at < last }
    requires room0 { writes_s (word code.now at) 0 ≡ true
        → array_vec_len walked.old.unit0.queue < 4 }
    requires room1 { writes_s (word code.now at) 1 ≡ true
        → array_vec_len walked.old.unit1.queue < 4 }
    requires before { IsWalked code.now at walked.old }
    ensures { IsWalked code.now (at + 1) walked.new }
{
    next_unit(code, last, 0, at, &mut walked.unit0);
    next_unit(code, last, 1, at, &mut walked.unit1);
    walked.acted = next_acted(code, at, walked.acted);
}

// A TMU that keeps nothing.
fn idle() -> Unit
    ensures words { result.pending ≡ 0 }
    ensures requests { result.queue.items ≡ [] }
{
    Unit {
        pending: 0,
        queue: ArrayVec::new(),
    }
}

/// What the walk carries before the first instruction.
pub(crate) fn start(code: &[u64]) -> Walked
    ensures { IsWalked code.now 0 result }
{
    let _ = code;
    let unit0 = idle();
    let unit1 = idle();
    Walked {
        unit0,
        unit1,
        acted: 0,
    }
}
