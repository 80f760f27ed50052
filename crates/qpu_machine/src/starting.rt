//! Where a program starts among the processors.
ghost use Rattle.std.specs.Prelude.{◌≡◌, ◌<◌, ◌≤◌, length, is_some, is_none};
ghost use Rattle.qpu_machine.specs.Bounds.{AreBounded};
ghost use Rattle.qpu_machine.specs.Qpu.{slot_from, free_in, after_launch, in_first, in_other, in_slot, idle_qpu};

use crate::qpu::{takes_first, takes_other};
use crate::start::start_thread;
use crate::state::{Qpu, Thread};
use arrayvec::ArrayVec;
use machine_plan::{Free, Launch, Slot};

/// A processor at the start: both threads are idle, and nothing is asked.
pub fn idle_qpu() -> Qpu
    ensures { result ≡ idle_qpu }
{
    Qpu {
        first: None,
        other: None,
        second: false,
        queue0: ArrayVec::new(),
        queue1: ArrayVec::new(),
    }
}

// The slot in which a program would start, if there is one.
fn slot_for(threaded: bool, qpus: &[Qpu]) -> Option<Slot>
    requires { length qpus.now ≤ 12 }
    ensures { result ≡ slot_from threaded 0 qpus.now }
{
    for i in 0..qpus.len() {
        if takes_first(threaded, &qpus[i]) {
            return Some(Slot {
                qpu: i as u8,
                second: false,
            });
        }
        if takes_other(threaded, &qpus[i]) {
            return Some(Slot {
                qpu: i as u8,
                second: true,
            });
        }
    }
    None
}

/// Where a threaded program would start among these processors, and where any other would.
pub fn free_in(qpus: &[Qpu]) -> Free
    requires { length qpus.now ≤ 12 }
    ensures { result ≡ free_in qpus.now }
{
    Free {
        threaded: slot_for(true, qpus),
        plain: slot_for(false, qpus),
    }
}

// A thread starts in this slot, and becomes active where the other one is idle.
#[tactic(auto, unfolding(crate::specs::Qpu::in_first, crate::specs::Qpu::in_other))]
fn start_at(second: bool, thread: Thread, qpu: &mut Qpu)
    ensures { qpu.new ≡ in_slot second qpu.old thread }
{
    if second {
        qpu.second = qpu.second || qpu.first.is_none();
        qpu.other = Some(thread);
    } else {
        qpu.second = qpu.second && qpu.other.is_some();
        qpu.first = Some(thread);
    }
}

/// A program starts for this job in the first slot that can take it; nothing happens where none can.
pub fn start_in(job: u8, launch: Launch, qpus: &mut [Qpu])
    requires few { length qpus.old ≤ 12 }
    requires bounded { AreBounded qpus.old }
    ensures value { qpus.new ≡ after_launch job launch qpus.old }
    ensures bounded { AreBounded qpus.new }
{
    if let Some(slot) = slot_for(launch.threaded, qpus) {
        start_at(
            slot.second,
            start_thread(job, launch),
            &mut qpus[slot.qpu as usize],
        );
    }
}
