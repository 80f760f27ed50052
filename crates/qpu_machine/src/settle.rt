//! The step of a processor.
ghost use Rattle.std.specs.Prelude.{◌≡◌, ◌<◌, ◌≤◌, IsTrue, true, false, IfSome, is_some};
ghost use Rattle.arrayvec.specs.ArrayVec.{array_vec_len};
ghost use Rattle.machine_plan.specs.Glance.{glance_result};
ghost use Rattle.machine_plan.specs.Turn.{CarriesOver, if_tame};
ghost use Rattle.qpu_machine.specs.Qpu.{active_of, job_of_thread, qpu_ready, qpu_plan, qpu_stopped, woken_slot, queue_with, with_active, left_slot, gives_way_by, asked_by, after_turn, settled_by};
ghost use Rattle.qpu_machine.specs.Bounds.{IsNear, IsBounded, SlotSteps};

use crate::state::{Asked, Fate, Leaves, Qpu, Request, Thread};
use crate::step::step_thread;
use arrayvec::ArrayVec;
use machine_plan::{Accesses, Choices, Reader};

// One instruction of the thread in this slot. `None` comes where it is undefined, or where no thread is there.
fn step_slot<C: Choices>(
    slot: &mut Option<Thread>,
    words: &C,
    reader: &Reader,
    accesses: &mut Accesses,
) -> Option<Leaves>
    requires near { IsNear slot.old }
    requires room { array_vec_len accesses.old ≤ 260 }
    ensures { IfSome slot.old (SlotSteps reader.now.who (C.listed words.now) reader.now.memory.now
        accesses.old accesses.new slot.new result) }
{
    match slot {
        None => None,
        Some(thread) => step_thread(thread, words, reader, accesses),
    }
}

// A thread that becomes active is fresh.
fn wake_slot(over: bool, slot: &mut Option<Thread>)
    ensures { slot.new ≡ woken_slot over slot.old }
{
    if over && let Some(thread) = slot {
        thread.fresh = true;
    }
}

// Puts what was asked into a TMU's queue, if it is for this TMU.
fn enqueue(tmu: u8, second: bool, job: u8, asked: &Option<Asked>, queue: &mut ArrayVec<Request, 16>)
    requires room { IfSome asked.now (λ one. one.tmu ≡ tmu → array_vec_len queue.old < 16) }
    ensures { queue.new.items ≡ queue_with tmu second job asked.now queue.old.items }
{
    if let Some(asked) = asked
        && asked.tmu == tmu
    {
        queue.push(Request {
            second,
            job,
            ask: asked.ask,
        });
    }
}

// What the slot of the active thread holds after its step.
fn leave_slot(left: &Option<Leaves>, slot: &mut Option<Thread>)
    ensures { slot.new ≡ left_slot left.now slot.old }
{
    match left {
        None => *slot = None,
        Some(leaves) => {
            if leaves.fate == Fate::Ends {
                *slot = None;
            }
        }
    }
}

fn gives_way(left: &Option<Leaves>) -> bool
    ensures { result ≡ gives_way_by left.now }
{
    match left {
        None => true,
        Some(leaves) => leaves.fate != Fate::GoesOn,
    }
}

fn asked_by(left: &Option<Leaves>) -> Option<Asked>
    ensures { result ≡ asked_by left.now }
{
    match left {
        None => None,
        Some(leaves) => leaves.asked,
    }
}

// The processor after a step whose thread stands in its slot already.
#[tactic(auto, unfolding(crate::specs::Qpu::after_turn, crate::specs::Qpu::settled_by))]
fn settle(job: u8, left: &Option<Leaves>, qpu: &mut Qpu)
    requires room0 { IfSome (asked_by left.now)
        (λ one. one.tmu ≡ 0 → array_vec_len qpu.old.queue0 < 16) }
    requires room1 { IfSome (asked_by left.now)
        (λ one. one.tmu ≡ 1 → array_vec_len qpu.old.queue1 < 16) }
    ensures { qpu.new ≡ settled_by qpu.old job left.now }
{
    let second = qpu.second;
    let over = gives_way(left);
    let rests = if second {
        qpu.first.is_some()
    } else {
        qpu.other.is_some()
    };
    let asked = asked_by(left);
    enqueue(0, second, job, &asked, &mut qpu.queue0);
    enqueue(1, second, job, &asked, &mut qpu.queue1);
    if second {
        wake_slot(over, &mut qpu.first);
        leave_slot(left, &mut qpu.other);
    } else {
        wake_slot(over, &mut qpu.other);
        leave_slot(left, &mut qpu.first);
    }
    if over && rests {
        qpu.second = !second;
    }
}

// One instruction of the active thread.
fn step_active<C: Choices>(
    qpu: &mut Qpu,
    words: &C,
    reader: &Reader,
    accesses: &mut Accesses,
) -> Option<Leaves>
    requires near { IsNear (active_of qpu.old) }
    requires room { array_vec_len accesses.old ≤ 260 }
    ensures kept { qpu.new ≡ with_active qpu.old (active_of qpu.new) }
    ensures steps { IfSome (active_of qpu.old) (SlotSteps reader.now.who (C.listed words.now)
        reader.now.memory.now accesses.old accesses.new (active_of qpu.new) result) }
{
    if qpu.second {
        return step_slot(&mut qpu.other, words, reader, accesses);
    }
    step_slot(&mut qpu.first, words, reader, accesses)
}

/// The job of the active thread; 0 where none runs.
pub fn qpu_job(qpu: &Qpu) -> u8
    ensures { result ≡ job_of_thread (active_of qpu.now) }
{
    let active = if qpu.second { &qpu.other } else { &qpu.first };
    match active {
        None => 0,
        Some(thread) => thread.job,
    }
}

/// One step of a processor that may step, with the accesses of `reader`, listed behind those already listed. What the hardware
/// leaves open is answered by the words; a missing word is zero.
///
/// False comes exactly where its instruction is undefined: then a Wild access is listed behind the instruction's read, and the
/// thread has ended.
pub fn step_qpu<C: Choices>(
    qpu: &mut Qpu,
    words: &C,
    reader: &Reader,
    accesses: &mut Accesses,
) -> bool
    requires ready { IsTrue (glance_result (qpu_ready qpu.old) reader.now.memory.now) }
    requires bounded { IsBounded qpu.old }
    requires room { array_vec_len accesses.old ≤ 260 }
    ensures bounded { IsBounded qpu.new }
    ensures shows { CarriesOver reader.now.who (qpu_plan qpu.old (C.listed words.now))
        reader.now.memory.now accesses.old accesses.new (if_tame result qpu.new) }
    ensures wild { result ≡ false → qpu.new ≡ qpu_stopped qpu.old }
{
    let job = qpu_job(qpu);
    let left = step_active(qpu, words, reader, accesses);
    settle(job, &left, qpu);
    left.is_some()
}
