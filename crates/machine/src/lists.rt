//! The turns of binner and renderer.
ghost use Rattle.std.specs.Prelude.{◌≡◌, ◌≤◌, ◌<◌, [], IsTrue, length, Some};
ghost use Rattle.machine_plan.specs.{Glance.glance_result, World.Moves, World.world_turned};
ghost use Rattle.list_machine.specs.Binner.{binner_ready};
ghost use Rattle.list_machine.specs.Renderer.{renderer_ready};
ghost use Rattle.qpu_machine.specs.Qpu.{free_in};
ghost use Rattle.qpu_machine.specs.Bounds.{AreBounded};
ghost use Rattle.machine.specs.State.{binner_job, renderer_job, picked_in, job_at};
ghost use Rattle.machine.specs.Step.{with_launch, is_ahead, binner_may, renderer_may, binner_turn, renderer_turn};

use crate::machine::Machine;
use field_words::Actor;
use list_machine::Turn;
use machine_plan::{Accesses, Choices, Launch, Who};
use qpu_machine::{Qpu, free_in, start_in};

/// The program that a list unit starts, if it does, begins for this job.
fn begin(job: u8, launch: Option<Launch>, qpus: &mut Vec<Qpu>)
    requires few { length qpus.old.items ≤ 12 }
    requires bounded { AreBounded qpus.old.items }
    ensures value { qpus.new.items ≡ with_launch job launch qpus.old.items }
    ensures bounded { AreBounded qpus.new.items }
    ensures size { length qpus.new.items ≡ length qpus.old.items }
{
    if let Some(launch) = launch {
        start_in(job, launch, qpus.as_mut_slice());
    }
}

impl Machine {
    /// Whether the binner is held: the renderer has a job, and the binner's is more than one ahead of it.
    fn is_held(&self, job: usize) -> bool
        requires { job < 8 }
        ensures { result ≡ is_ahead job (renderer_job self.now.units) }
    {
        match self.renderer_job() {
            None => false,
            Some(other) => other + 1 < job,
        }
    }

    /// Whether the binner may step.
    pub(crate) fn binner_may(&self) -> bool
        ensures { result ≡ glance_result (binner_may self.now.units (binner_job self.now.units))
            self.now.memory }
    {
        match self.binner_job() {
            None => false,
            Some(job) => {
                !self.is_held(job) && self.jobs[job].is_binner_ready(&free_in(self.qpus.as_slice()))
            }
        }
    }

    /// Whether the renderer may step.
    pub(crate) fn renderer_may(&self) -> bool
        ensures { result ≡ glance_result (renderer_may (renderer_job self.now.units))
            self.now.memory }
    {
        match self.renderer_job() {
            None => false,
            Some(job) => self.jobs[job].is_renderer_ready(&self.memory),
        }
    }

    /// The binner's turn, for its job; without one it does nothing.
    pub(crate) fn take_binner_turn<C: Choices>(&mut self, words: &C, accesses: &mut Accesses)
        requires empty { accesses.old.items ≡ [] }
        requires may { IsTrue (glance_result (binner_may self.old.units (binner_job self.old.units))
            self.old.memory) }
        ensures { Moves (world_turned self.old
            (binner_turn self.old.units (binner_job self.old.units) (C.listed words.now)))
            accesses.new.items self.new }
    {
        if let Some(job) = self.binner_job() {
            self.bin(job, words, accesses);
        }
    }

    // One step of the binner for this job.
    fn bin<C: Choices>(&mut self, job: usize, words: &C, accesses: &mut Accesses)
        requires empty { accesses.old.items ≡ [] }
        requires within { job < length self.old.units.jobs }
        requires ready { IsTrue (glance_result (binner_ready (job_at self.old.units.jobs job)
            (free_in self.old.units.qpus)) self.old.memory) }
        ensures { let picked = Some (picked_in self.old.units.jobs job) in
            Moves (world_turned self.old (binner_turn self.old.units picked (C.listed words.now)))
            accesses.new.items self.new }
    {
        let free = free_in(self.qpus.as_slice());
        let turn = Turn {
            who: Who {
                unit: Actor::Binner,
                job: job as u8,
            },
            free,
            words,
        };
        let started = self.jobs[job].step_binner(&turn, &mut self.memory, accesses);
        begin(job as u8, started.unwrap_or(None), &mut self.qpus);
    }

    /// The renderer's turn, for its job; without one it does nothing.
    pub(crate) fn take_renderer_turn<C: Choices>(&mut self, words: &C, accesses: &mut Accesses)
        requires empty { accesses.old.items ≡ [] }
        requires may { IsTrue (glance_result (renderer_may (renderer_job self.old.units))
            self.old.memory) }
        ensures { Moves (world_turned self.old
            (renderer_turn self.old.units (renderer_job self.old.units) (C.listed words.now)))
            accesses.new.items self.new }
    {
        if let Some(job) = self.renderer_job() {
            self.render(job, words, accesses);
        }
    }

    // One step of the renderer for this job.
    fn render<C: Choices>(&mut self, job: usize, words: &C, accesses: &mut Accesses)
        requires empty { accesses.old.items ≡ [] }
        requires within { job < length self.old.units.jobs }
        requires ready { IsTrue (glance_result (renderer_ready (job_at self.old.units.jobs job))
            self.old.memory) }
        ensures { let picked = Some (picked_in self.old.units.jobs job) in
            Moves (world_turned self.old (renderer_turn self.old.units picked (C.listed words.now)))
            accesses.new.items self.new }
    {
        let free = free_in(self.qpus.as_slice());
        let turn = Turn {
            who: Who {
                unit: Actor::Renderer,
                job: job as u8,
            },
            free,
            words,
        };
        let started = self.jobs[job].step_renderer(&turn, &mut self.memory, accesses);
        begin(job as u8, started.unwrap_or(None), &mut self.qpus);
    }
}
