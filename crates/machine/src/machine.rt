//! The machine, its start, and which of its units may step.
ghost use Rattle.std.specs.Prelude.{◌≡◌, ◌≤◌, ◌<◌, [], IsTrue, false, length, option_map, unwrap_or, position, IfOk, IfSome};
ghost use Rattle.list_machine.specs.Binner.{has_binner_work};
ghost use Rattle.list_machine.specs.Renderer.{has_renderer_work};
ghost use Rattle.machine_plan.specs.World.{Moves};
ghost use Rattle.machine.specs.Step.{is_enabled, is_finished, job_of, step};
ghost use Rattle.machine.specs.State.{start_of, binner_job, renderer_job, picked_in};

use crate::job::{Start, all_started, idle_qpus};
use field_words::{Actor, NoMemory};
use list_machine::JobLists;
use machine_plan::{Accesses, Choices};
use phys_mem::PhysMem;
use qpu_machine::Qpu;
use std::alloc::Global;
use std::marker::Model;

/// Whether a unit has stepped.
#[derive(Clone, Copy, Debug, PartialEq, Eq)]
pub enum Stepped {
    /// The unit is not enabled; nothing has changed.
    NotEnabled,
    /// The unit has stepped.
    Done,
}

/// The machine: its memory, what its list units keep for each job, and its shader processors.
#[derive(Drop)]
pub struct Machine {
    pub(crate) memory: PhysMem,
    pub(crate) jobs: Vec<JobLists>,
    pub(crate) qpus: Vec<Qpu>,
}

impl Model for Machine {
    ghost use Rattle.machine.specs.State.{State, AreWhole};

    ghost Value = { State };

    ghost view = { λ m. record { memory = m.memory; units = record { jobs = m.jobs.items; qpus = m.qpus.items } } };

    ghost invariant = { λ m. AreWhole m.jobs.items m.qpus.items };
}

impl Machine {
    /// The machine in its start state over this memory, with one job for each start. It may run out of memory; then the memory
    /// is dropped.
    pub fn new(alloc: Global, memory: PhysMem, starts: &[Start]) -> Result<Machine, NoMemory>
        requires some { 1 ≤ length starts.now }
        requires few { length starts.now ≤ 8 }
        ensures { IfOk result (λ m. m ≡ start_of memory starts.now) }
    {
        let jobs = all_started(alloc, starts)?;
        let qpus = idle_qpus(alloc)?;
        Ok(Machine { memory, jobs, qpus })
    }

    /// The memory as it stands.
    pub fn memory(&self) -> &PhysMem
        ensures { result.now ≡ self.now.memory }
    {
        &self.memory
    }

    // The place of the first job with work left for the binner.
    fn binner_place(&self) -> Option<usize>
        ensures place { result ≡ position has_binner_work self.now.units.jobs }
        ensures few { length self.now.units.jobs ≤ 8 }
    {
        self.jobs.iter().position(|job| job.has_binner_work())
    }

    /// The job for which the binner steps: the least one with work left for it.
    pub(crate) fn binner_job(&self) -> Option<usize>
        ensures value { binner_job self.now.units
            ≡ option_map (picked_in self.now.units.jobs) result }
        ensures within { IfSome result (λ job. (job < length self.now.units.jobs) × (job < 8)) }
    {
        self.binner_place()
    }

    // The place of the first job with work left for the renderer.
    fn renderer_place(&self) -> Option<usize>
        ensures place { result ≡ position has_renderer_work self.now.units.jobs }
        ensures few { length self.now.units.jobs ≤ 8 }
    {
        self.jobs.iter().position(|job| job.has_renderer_work())
    }

    /// The job for which the renderer steps: the least one with work left for it.
    pub(crate) fn renderer_job(&self) -> Option<usize>
        ensures value { renderer_job self.now.units
            ≡ option_map (picked_in self.now.units.jobs) result }
        ensures within { IfSome result (λ job. (job < length self.now.units.jobs) × (job < 8)) }
    {
        self.renderer_place()
    }

    /// Whether the unit may step. A processor above 11 or a TMU above 1 never may.
    #[inline(always)]
    #[tactic(auto, unfolding(crate::specs::Step::is_enabled))]
    pub fn enabled(&self, unit: Actor) -> bool
        ensures { result ≡ is_enabled self.now unit }
    {
        match unit {
            Actor::Binner => self.binner_may(),
            Actor::Renderer => self.renderer_may(),
            Actor::Qpu(k) => self.qpu_may(k),
            Actor::Tmu(k, n) => self.tmu_may(k, n),
        }
    }

    /// Whether no unit has any work left: no job is the binner's or the renderer's, all threads are idle, and all queues are
    /// empty.
    #[tactic(auto, unfolding(crate::specs::Step::is_finished))]
    pub fn finished(&self) -> bool
        ensures { result ≡ is_finished self.now }
    {
        (self.binner_job().is_none() && self.renderer_job().is_none()) && self.are_qpus_idle()
    }

    /// The job for which the unit would step; 0 for a unit without a job.
    #[tactic(auto, unfolding(crate::specs::Step::job_of))]
    pub fn job_of(&self, unit: Actor) -> u8
        ensures { result ≡ job_of self.now unit }
    {
        match unit {
            Actor::Binner => number_of(self.binner_job()),
            Actor::Renderer => number_of(self.renderer_job()),
            Actor::Qpu(k) => self.thread_job(k),
            Actor::Tmu(k, n) => self.request_job(k, n),
        }
    }

    /// One step of this unit. What the hardware leaves open is answered by the words; a missing word is zero. `accesses` is
    /// emptied first, and then holds the step's accesses in order.
    ///
    /// `NotEnabled` comes exactly where the unit is not enabled, and then nothing else has changed. A step takes no memory.
    pub fn step(&mut self, unit: Actor, words: &[u32], accesses: &mut Accesses) -> Stepped
        ensures done { IsTrue (is_enabled self.old unit) → result ≡ Stepped.Done }
        ensures refused { is_enabled self.old unit ≡ false → result ≡ Stepped.NotEnabled }
        ensures same { result ≡ Stepped.NotEnabled → self.new ≡ self.old }
        ensures emptied { result ≡ Stepped.NotEnabled → accesses.new.items ≡ [] }
        ensures moved { result ≡ Stepped.Done
            → Moves (step self.old (record { unit = unit; words = words.now }))
            accesses.new.items self.new }
    {
        self.step_by(unit, &words, accesses)
    }

    /// The step of a unit, which asks for each word when it needs it.
    #[tactic(auto, unfolding(crate::specs::Step::is_enabled))]
    pub fn step_by<C: Choices>(
        &mut self,
        unit: Actor,
        words: &C,
        accesses: &mut Accesses,
    ) -> Stepped
        ensures done { IsTrue (is_enabled self.old unit) → result ≡ Stepped.Done }
        ensures refused { is_enabled self.old unit ≡ false → result ≡ Stepped.NotEnabled }
        ensures same { result ≡ Stepped.NotEnabled → self.new ≡ self.old }
        ensures emptied { result ≡ Stepped.NotEnabled → accesses.new.items ≡ [] }
        ensures moved { result ≡ Stepped.Done
            → Moves (step self.old (record { unit = unit; words = C.listed words.now }))
            accesses.new.items self.new }
    {
        accesses.clear();
        if !self.enabled(unit) {
            return Stepped::NotEnabled;
        }
        self.take_turn(unit, words, accesses);
        Stepped::Done
    }

    // This unit's turn, which may step.
    #[tactic(auto, unfolding(crate::specs::Step::is_enabled, crate::specs::Step::turn))]
    fn take_turn<C: Choices>(&mut self, unit: Actor, words: &C, accesses: &mut Accesses)
        requires empty { accesses.old.items ≡ [] }
        requires may { IsTrue (is_enabled self.old unit) }
        ensures { Moves (step self.old (record { unit = unit; words = C.listed words.now }))
            accesses.new.items self.new }
    {
        match unit {
            Actor::Binner => self.take_binner_turn(words, accesses),
            Actor::Renderer => self.take_renderer_turn(words, accesses),
            Actor::Qpu(k) => self.take_qpu_turn(k, words, accesses),
            Actor::Tmu(k, n) => self.take_tmu_turn(k, n, words, accesses),
        }
    }
}

// The job's number, or 0 where there is none.
fn number_of(job: Option<usize>) -> u8
    requires { IfSome job (λ k. k < 8) }
    ensures { result ≡ unwrap_or job 0 }
{
    match job {
        None => 0,
        Some(k) => k as u8,
    }
}
