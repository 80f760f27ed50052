//! Two closures as a script.
ghost use Rattle.std.specs.Prelude.{◌≡◌, ◌<◌};
ghost use Rattle.replay.specs.Run.{MayChoose, IsBelow, MayAnswer};

use crate::script::Script;
use arrayvec::ArrayVec;
use machine_plan::Choices;

/// Two closures that say how a run goes: at step `step`, `choose(step, n)` picks one of the `n` units that may step, and
/// `answer(step, k)` is the step's choice word `k`.
#[derive(Clone, Copy)]
pub struct Oracle<C, F> {
    choose: C,
    answer: F,
}

impl<C: Fn(u64, u32) -> u32, F: Fn(u64, u32) -> u32> Oracle<C, F> {
    /// An oracle of these closures: `choose` may be called at each step for each `n` that isn't 0, and is below `n`; `answer`
    /// may be called at each step for each `k` below 4,096. It takes no memory.
    pub fn new(choose: C, answer: F) -> Oracle<C, F>
        requires chooses { MayChoose (C.pre choose) }
        requires below { IsBelow (C.post choose) }
        requires answers { MayAnswer (F.pre answer) }
        ensures choose { result.choose ≡ choose }
        ensures answer { result.answer ≡ answer }
    {
        Oracle { choose, answer }
    }
}

/// The words of a step, which a closure has answered, once each: asked again it could answer otherwise.
#[derive(Drop)]
pub struct Answered {
    words: ArrayVec<u32, 4096>,
}

impl Choices for Answered {
    ghost listed = { λ answered. answered.words.items };

    fn word(&self, k: u64) -> u32 {
        self.words.as_slice().word(k)
    }
}

/// What is asked of the closures is what [`Oracle::new`] asks, which no value of that type can carry.
impl<C: Fn(u64, u32) -> u32, F: Fn(u64, u32) -> u32> Script for Oracle<C, F> {
    ghost use Rattle.replay.specs.Run.{MayChoose, IsBelow, MayAnswer};

    type Source = Answered;

    ghost may = { λ oracle. MayChoose (C.pre oracle.choose)
        × (IsBelow (C.post oracle.choose) × MayAnswer (F.pre oracle.answer)) };

    ghost picks = { λ oracle. C.post oracle.choose };

    ghost gives = { λ oracle. F.post oracle.answer };

    fn pick(&self, step: u64, count: u32) -> u32 {
        (self.choose)(step, count)
    }

    fn words(&self, step: u64, count: u32) -> Answered {
        let mut words = ArrayVec::new();
        for k in 0..count {
            words.push((self.answer)(step, k));
        }
        Answered { words }
    }
}
