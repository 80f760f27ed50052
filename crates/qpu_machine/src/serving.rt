//! The step of a processor's texture and memory unit (TMU).
ghost use Rattle.std.specs.Prelude.{◌≡◌, ◌≢◌, ◌<◌, ◌≤◌, IsTrue, false, Some, is_some, option_map};
ghost use Rattle.arrayvec.specs.ArrayVec.{array_vec_len};
ghost use Rattle.machine_plan.specs.Turn.{CarriesOver, if_tame};
ghost use Rattle.qpu_machine.specs.Qpu.{queue_of, oldest, job_of_request, slot_of, tmu_plan, after_drop, with_result, result_given};
ghost use Rattle.qpu_machine.specs.Bounds.{IsBounded, finished0, finished1};

use crate::request::serve;
use crate::state::{Qpu, Request, Row, Thread};
use arrayvec::ArrayVec;
use machine_plan::{Accesses, Choices, Reader};

/// Whether TMU `tmu` of the processor has a request, and so may step.
pub fn is_tmu_ready(qpu: &Qpu, tmu: u8) -> bool
    ensures { result ≡ is_some (oldest (queue_of qpu.now tmu)) }
{
    if tmu == 0 {
        !qpu.queue0.is_empty()
    } else {
        !qpu.queue1.is_empty()
    }
}

// The job of the oldest request, or 0 where there is none.
fn oldest_job(requests: &ArrayVec<Request, 16>) -> u8
    ensures { result ≡ job_of_request (oldest requests.now.items) }
{
    if requests.is_empty() {
        0
    } else {
        requests[0].job
    }
}

/// The job of the oldest request of TMU `tmu`; 0 where it has none.
pub fn tmu_job(qpu: &Qpu, tmu: u8) -> u8
    ensures { result ≡ job_of_request (oldest (queue_of qpu.now tmu)) }
{
    if tmu == 0 {
        oldest_job(&qpu.queue0)
    } else {
        oldest_job(&qpu.queue1)
    }
}

// Takes the oldest request of a TMU.
#[tactic(auto, unfolding(crate::specs::Qpu::after_drop))]
fn drop_oldest(tmu: u8, qpu: &mut Qpu) -> Request
    requires { IsTrue (is_some (oldest (queue_of qpu.old tmu))) }
    ensures value { oldest (queue_of qpu.old tmu) ≡ Some result }
    ensures qpu { qpu.new ≡ after_drop qpu.old tmu }
{
    if tmu == 0 {
        qpu.queue0.remove(0)
    } else {
        qpu.queue1.remove(0)
    }
}

// A thread, where it isn't idle, gets a result of a TMU.
fn give_slot(tmu: u8, row: Option<Row>, slot: &mut Option<Thread>)
    requires room0 { tmu ≡ 0 → finished0 slot.old < 8 }
    requires room1 { tmu ≢ 0 → finished1 slot.old < 8 }
    ensures { slot.new ≡ option_map (with_result tmu row) slot.old }
{
    if let Some(thread) = slot {
        if tmu == 0 {
            thread.results0.push(row);
        } else {
            thread.results1.push(row);
        }
    }
}

// The thread that made the request gets its result.
#[tactic(auto, unfolding(crate::specs::Qpu::result_given))]
fn give(tmu: u8, second: bool, row: Option<Row>, qpu: &mut Qpu)
    requires room0 { tmu ≡ 0 → finished0 (slot_of qpu.old second) < 8 }
    requires room1 { tmu ≢ 0 → finished1 (slot_of qpu.old second) < 8 }
    ensures { qpu.new ≡ result_given qpu.old tmu second row }
{
    if second {
        give_slot(tmu, row, &mut qpu.other);
    } else {
        give_slot(tmu, row, &mut qpu.first);
    }
}

/// One step of TMU `tmu`, which has a request: it serves the oldest one, with the accesses of `reader`, listed behind those
/// already listed. What the hardware leaves open is answered by the words; a missing word is zero.
///
/// False comes exactly where the request is undefined: then a Wild access is listed behind the reads before it, and the request is
/// gone without a result.
pub fn step_tmu<C: Choices>(
    qpu: &mut Qpu,
    tmu: u8,
    words: &C,
    reader: &Reader,
    accesses: &mut Accesses,
) -> bool
    requires ready { IsTrue (is_some (oldest (queue_of qpu.old tmu))) }
    requires bounded { IsBounded qpu.old }
    requires room { array_vec_len accesses.old ≤ 100 }
    ensures bounded { IsBounded qpu.new }
    ensures shows { CarriesOver reader.now.who (tmu_plan qpu.old tmu (C.listed words.now))
        reader.now.memory.now accesses.old accesses.new (if_tame result qpu.new) }
    ensures wild { result ≡ false → qpu.new ≡ after_drop qpu.old tmu }
{
    let request = drop_oldest(tmu, qpu);
    match serve(&request.ask, words, reader, accesses) {
        Some(row) => {
            give(tmu, request.second, row, qpu);
            true
        }
        None => false,
    }
}
