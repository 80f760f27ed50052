//! A thread that has just been started.
ghost use Rattle.std.specs.Prelude.{◌≡◌, ◌<◌, ◌^◌};
ghost use Rattle.qpu_machine.specs.Start.{idle, thread_of};

use crate::state::{Mark, Thread};
use arrayvec::ArrayVec;
use machine_plan::Launch;

/// An instruction that does nothing: signal 1, and both units write to 39.
pub(crate) const IDLE_WORD: u64 = (1 << 60) + (39 << 38) + (39 << 32);

fn idle() -> Mark
    ensures { result ≡ idle }
{
    Mark {
        word: IDLE_WORD,
        to: None,
    }
}

/// A thread of this job that has just been started: at the program's first instruction, with zeros in its register files.
#[tactic(auto, unfolding(crate::specs::Start::thread_of))]
pub fn start_thread(job: u8, launch: Launch) -> Thread
    ensures value { result ≡ thread_of job launch }
    ensures near { result.place < 2 ^ 32 }
{
    Thread {
        job,
        threaded: launch.threaded,
        place: launch.code as u64,
        uniforms: launch.uniforms,
        setups0: ArrayVec::new(),
        setups1: ArrayVec::new(),
        a: [[0; 16]; 32],
        b: [[0; 16]; 32],
        fresh: true,
        acc: [[0; 16]; 6],
        last1: idle(),
        last2: idle(),
        last3: idle(),
        results0: ArrayVec::new(),
        results1: ArrayVec::new(),
    }
}
