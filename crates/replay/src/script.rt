//! What says how a run goes.
ghost use Rattle.std.specs.Prelude.{◌≡◌, ◌≤◌, ◌<◌, ℕ, length, slice_index};

use machine_plan::Choices;

/// A script of a run: which unit steps at each step, and what answers what the hardware leaves open there.
pub trait Script {
    /// The choice words of one step.
    type Source: Choices + Drop;

    /// What is asked of a script before it says anything; of one that knows all by itself, nothing.
    ghost may: { Self → Type 0 };

    /// At this step, of so many units that may step, this one is picked.
    ghost picks: { Self → ℕ → ℕ → ℕ → Type 0 };

    /// At this step, the choice word of this number is this one.
    ghost gives: { Self → ℕ → ℕ → ℕ → Type 0 };

    /// Which of `count` units steps. It takes no memory, and refuses nothing.
    fn pick(&self, step: u64, count: u32) -> u32
        requires some { 1 ≤ count }
        requires may { may self.now }
        ensures picked { picks self.now step count result }
        ensures below { result < count };

    /// The first `count` choice words of a step. It takes no memory, and refuses nothing.
    fn words(&self, step: u64, count: u32) -> Self::Source
        requires may { may self.now }
        requires most { count ≤ 4096 }
        ensures long { length (Self.Source.listed result) ≡ count }
        ensures given { (k : ℕ) → k < count → gives self.now step k (slice_index (Self.Source.listed result) k) };
}
