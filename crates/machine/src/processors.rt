//! The turns of the shader processors and of their texture and memory units (TMUs).
ghost use Rattle.std.specs.Prelude.{◌≡◌, ◌<◌, [], IsTrue};
ghost use Rattle.machine_plan.specs.{Glance.glance_result, World.Moves, World.world_turned};
ghost use Rattle.std.specs.List.{list_all};
ghost use Rattle.qpu_machine.specs.Qpu.{is_idle};
ghost use Rattle.machine.specs.State.{item_at};
ghost use Rattle.machine.specs.Step.{qpu_may, tmu_may, qpu_job, tmu_job, qpu_turn, tmu_turn};

use crate::machine::Machine;
use field_words::Actor;
use machine_plan::{Accesses, Choices, Reader, Who};
use qpu_machine::{is_qpu_idle, is_qpu_ready, is_tmu_ready, qpu_job, step_qpu, step_tmu, tmu_job};

impl Machine {
    /// Whether processor `k` may step; there are twelve.
    pub(crate) fn qpu_may(&self, k: u8) -> bool
        ensures { result ≡ glance_result (qpu_may (item_at self.now.units.qpus k)) self.now.memory }
    {
        let k = k as usize;
        k < self.qpus.len() && is_qpu_ready(&self.qpus[k], &self.memory)
    }

    /// Whether TMU `n` of processor `k` may step; each has two.
    pub(crate) fn tmu_may(&self, k: u8, n: u8) -> bool
        ensures { result ≡ glance_result (tmu_may (item_at self.now.units.qpus k) n)
            self.now.memory }
    {
        let k = k as usize;
        k < self.qpus.len() && n < 2 && is_tmu_ready(&self.qpus[k], n)
    }

    /// The job of processor `k`'s active thread; 0 where there is none.
    pub(crate) fn thread_job(&self, k: u8) -> u8
        ensures { result ≡ qpu_job (item_at self.now.units.qpus k) }
    {
        let k = k as usize;
        if k < self.qpus.len() {
            qpu_job(&self.qpus[k])
        } else {
            0
        }
    }

    /// The job of the oldest request of TMU `n` of processor `k`; 0 where there is none.
    pub(crate) fn request_job(&self, k: u8, n: u8) -> u8
        ensures { result ≡ tmu_job (item_at self.now.units.qpus k) n }
    {
        let k = k as usize;
        if k < self.qpus.len() {
            tmu_job(&self.qpus[k], n)
        } else {
            0
        }
    }

    /// Whether all processors are idle.
    pub(crate) fn are_qpus_idle(&self) -> bool
        ensures { result ≡ list_all is_idle self.now.units.qpus }
    {
        self.qpus.iter().all(|qpu| is_qpu_idle(qpu))
    }

    /// The turn of processor `k`, which may step.
    pub(crate) fn take_qpu_turn<C: Choices>(&mut self, k: u8, words: &C, accesses: &mut Accesses)
        requires empty { accesses.old.items ≡ [] }
        requires may { IsTrue (glance_result (qpu_may (item_at self.old.units.qpus k))
            self.old.memory) }
        ensures { Moves (world_turned self.old
            (qpu_turn self.old.units k (item_at self.old.units.qpus k) (C.listed words.now)))
            accesses.new.items self.new }
    {
        let who = Who {
            unit: Actor::Qpu(k),
            job: qpu_job(&self.qpus[k as usize]),
        };
        let reader = Reader {
            who,
            memory: &self.memory,
        };
        step_qpu(&mut self.qpus[k as usize], words, &reader, accesses);
    }

    /// The turn of TMU `n` of processor `k`, which may step.
    pub(crate) fn take_tmu_turn<C: Choices>(
        &mut self,
        k: u8,
        n: u8,
        words: &C,
        accesses: &mut Accesses,
    )
        requires empty { accesses.old.items ≡ [] }
        requires may { IsTrue (glance_result (tmu_may (item_at self.old.units.qpus k) n)
            self.old.memory) }
        ensures { Moves (world_turned self.old (tmu_turn self.old.units k n
            (item_at self.old.units.qpus k) (C.listed words.now))) accesses.new.items self.new }
    {
        let who = Who {
            unit: Actor::Tmu(k, n),
            job: tmu_job(&self.qpus[k as usize], n),
        };
        let reader = Reader {
            who,
            memory: &self.memory,
        };
        step_tmu(&mut self.qpus[k as usize], n, words, &reader, accesses);
    }
}
