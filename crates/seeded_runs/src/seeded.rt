//! Runs by the script of a seed.
ghost use Rattle.std.specs.Prelude.{◌≡◌, ◌≤◌, ◌<◌, List, IfOk};
ghost use Rattle.machine.specs.Step.{Event};
ghost use Rattle.replay.specs.Run.{IsTrace, IsLog};
ghost use Rattle.seeded_runs.specs.Seeded.{picked_by, word_from, Picks, Gives};

use example_job::next_state;
use field_words::NoMemory;
use machine::Machine;
use machine_plan::Choices;
use replay::{Log, Script, Trace, UnitKind, log_run, replay};
use std::alloc::Global;

// The unit that steps, of `n` that may.
#[tactic(auto, unfolding(crate::specs::Seeded::picked_by))]
fn picked(seed: u64, step: u64, n: u32) -> u32
    requires { 1 ≤ n }
    ensures value { result ≡ picked_by seed step n }
    ensures below { result < n }
{
    ((next_state(seed ^ step) >> 33) % u64::from(n)) as u32
}

// The choice word of this number, of a step whose words come from this state.
#[tactic(auto, unfolding(crate::specs::Seeded::word_from))]
fn word_from(state: u64, k: u64) -> u32
    ensures { result ≡ word_from state k }
{
    (next_state(state ^ k) >> 32) as u32
}

// The choice words of one step, so many, which come from this state.
#[derive(Clone, Copy)]
struct SeedWords {
    state: u64,
    count: u32,
}

impl Choices for SeedWords {
    ghost use Rattle.seeded_runs.specs.Seeded.{words_of};

    ghost listed = { λ words. words_of words.state words.count };

    #[tactic(auto, using(crate::proofs::Words::word_there, crate::proofs::Words::word_past))]
    fn word(&self, k: u64) -> u32 {
        if k < u64::from(self.count) {
            word_from(self.state, k)
        } else {
            0
        }
    }
}

// The script of a seed.
#[derive(Clone, Copy)]
struct Seeded {
    seed: u64,
}

impl Script for Seeded {
    ghost use Rattle.std.specs.Prelude.{⊤};
    ghost use Rattle.seeded_runs.specs.Seeded.{Picks, Gives};

    type Source = SeedWords;

    ghost may = { λ script. ⊤ };

    ghost picks = { λ script. Picks script.seed };

    ghost gives = { λ script. Gives script.seed };

    fn pick(&self, step: u64, count: u32) -> u32 {
        picked(self.seed, step, count)
    }

    #[tactic(auto, using(crate::proofs::Words::words_long, crate::proofs::Words::word_given))]
    fn words(&self, step: u64, count: u32) -> SeedWords {
        SeedWords {
            state: next_state(self.seed ^ step),
            count,
        }
    }
}

/// A run of at most so many steps by the script of the seed, in which a kind of unit may be favoured: a line for each step.
pub fn run_of(
    alloc: Global,
    machine: Machine,
    favoured: Option<UnitKind>,
    steps: u32,
    seed: u64,
) -> Result<Trace, NoMemory>
    requires { steps ≤ 1000000 }
    ensures { IfOk result (λ trace. (events : List Event)
        × IsTrace (Picks seed) (Gives seed) favoured machine steps events trace) }
{
    replay(alloc, machine, &Seeded { seed }, favoured, steps)
}

/// All accesses of the run that the seed gives.
pub fn log_of(
    alloc: Global,
    machine: Machine,
    favoured: Option<UnitKind>,
    steps: u32,
    seed: u64,
) -> Result<Log, NoMemory>
    requires { steps ≤ 1000000 }
    ensures { IfOk result (λ log. (events : List Event)
        × IsLog (Picks seed) (Gives seed) favoured machine steps events log) }
{
    log_run(alloc, machine, &Seeded { seed }, favoured, steps)
}
