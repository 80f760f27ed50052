//! What the machine keeps at its start.
ghost use Rattle.std.specs.Prelude.{◌≡◌, ◌≤◌, length, map, replicate, IfOk};
ghost use Rattle.qpu_machine.specs.Qpu.{idle_qpu};
ghost use Rattle.machine.specs.State.{job_start};

use field_words::NoMemory;
use list_machine::JobLists;
use qpu_machine::{Qpu, idle_qpu};
use std::alloc::Global;

// How many shader processors there are.
const QPUS: usize = 12;

/// Where a job's binner list and renderer list stand in memory, and their lengths.
#[derive(Clone, Copy, Debug, PartialEq, Eq)]
pub struct Start {
    pub bin_place: u32,
    pub bin_len: u32,
    pub render_place: u32,
    pub render_len: u32,
}

/// Each job at its start.
pub(crate) fn all_started(alloc: Global, starts: &[Start]) -> Result<Vec<JobLists>, NoMemory>
    requires { length starts.now ≤ 8 }
    ensures { IfOk result (λ jobs. jobs.items ≡ map job_start starts.now) }
{
    let mut jobs = Vec::new(alloc);
    for start in starts {
        let lists = JobLists::new(
            alloc,
            start.bin_place,
            start.bin_len,
            start.render_place,
            start.render_len,
        )?;
        jobs.push(lists)?;
    }
    Ok(jobs)
}

/// Twelve processors without work.
pub(crate) fn idle_qpus(alloc: Global) -> Result<Vec<Qpu>, NoMemory>
    ensures { IfOk result (λ qpus. qpus.items ≡ replicate 12 idle_qpu) }
{
    let mut qpus = Vec::with_capacity(alloc, QPUS)?;
    for _ in 0..QPUS {
        qpus.push(idle_qpu())?;
    }
    Ok(qpus)
}
