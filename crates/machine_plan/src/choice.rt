//! Choice words, each given when a step asks for it.
ghost use Rattle.std.specs.Prelude.{◌≡◌, ℕ, List};
ghost use Rattle.machine_plan.specs.Choice.{word_at};

/// What answers a step where the hardware leaves open what happens: a list of words, of which a step asks for those that it needs.
pub trait Choices {
    /// The words.
    ghost listed: { Self → List ℕ };

    /// Choice word `k`, which is zero where it is missing.
    fn word(&self, k: u64) -> u32
        ensures { result ≡ word_at (listed self.now) k };
}

impl<'a> Choices for &'a [u32] {
    ghost listed = { λ words. words.now };

    fn word(&self, k: u64) -> u32 {
        if k < self.len() as u64 {
            self[k as usize]
        } else {
            0
        }
    }
}
