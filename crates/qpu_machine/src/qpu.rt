//! When a processor may step, and where a program can start.
ghost use Rattle.std.specs.Prelude.{◌≡◌, ◌<◌, ◌≤◌};
ghost use Rattle.machine_plan.specs.Glance.{glance_result};
ghost use Rattle.qpu_machine.specs.Bounds.{IsBounded};
ghost use Rattle.qpu_machine.specs.Qpu.{queue_count, qpu_ready, has_none, is_beside, takes_first, takes_other, is_idle};

use crate::state::{Qpu, Request, Thread};
use crate::step::is_ready;
use arrayvec::ArrayVec;
use phys_mem::PhysMem;

// How many requests of the second or of the first thread a queue has.
fn queued(second: bool, requests: &ArrayVec<Request, 16>) -> usize
    ensures value { result ≡ queue_count second requests.now.items }
    ensures limit { result ≤ 16 }
{
    let mut count = 0;
    for request in requests.as_slice() {
        if request.second == second {
            count += 1;
        }
    }
    count
}

/// Whether the processor may step: its active thread runs, and isn't held up by a TMU.
pub fn is_qpu_ready(qpu: &Qpu, memory: &PhysMem) -> bool
    requires { IsBounded qpu.now }
    ensures { result ≡ glance_result (qpu_ready qpu.now) memory.now }
{
    let active = if qpu.second { &qpu.other } else { &qpu.first };
    match active {
        None => false,
        Some(thread) => is_ready(
            thread,
            queued(qpu.second, &qpu.queue0),
            queued(qpu.second, &qpu.queue1),
            memory,
        ),
    }
}

// Whether both queues have no request of this thread.
fn has_none(second: bool, qpu: &Qpu) -> bool
    ensures { result ≡ has_none second qpu.now }
{
    queued(second, &qpu.queue0) == 0 && queued(second, &qpu.queue1) == 0
}

// Whether a threaded program can run beside this thread.
fn is_beside(thread: &Option<Thread>) -> bool
    ensures { result ≡ is_beside thread.now }
{
    match thread {
        None => true,
        Some(thread) => thread.threaded,
    }
}

/// Whether a program can start in the processor's first thread.
#[tactic(auto, unfolding(crate::specs::Qpu::takes_first))]
pub(crate) fn takes_first(threaded: bool, qpu: &Qpu) -> bool
    ensures { result ≡ takes_first threaded qpu.now }
{
    if qpu.first.is_some() || !has_none(false, qpu) {
        return false;
    }
    if threaded {
        return is_beside(&qpu.other);
    }
    qpu.other.is_none() && has_none(true, qpu)
}

/// Whether a program can start in the processor's second thread.
#[tactic(auto, unfolding(crate::specs::Qpu::takes_other))]
pub(crate) fn takes_other(threaded: bool, qpu: &Qpu) -> bool
    ensures { result ≡ takes_other threaded qpu.now }
{
    threaded && (qpu.other.is_none() && has_none(true, qpu)) && is_beside(&qpu.first)
}

/// Whether the processor has no work: both threads are idle and both queues empty.
pub fn is_qpu_idle(qpu: &Qpu) -> bool
    ensures { result ≡ is_idle qpu.now }
{
    (qpu.first.is_none() && qpu.other.is_none()) && (qpu.queue0.is_empty() && qpu.queue1.is_empty())
}
