//! Numbers that look random.
ghost use Rattle.std.specs.Prelude.{◌≡◌, ◌<◌, IfOk};
ghost use Rattle.example_job.specs.Noise.{next_state, noise};

use std::alloc::{AllocError, Global};

/// The state after `state` of a generator of numbers that look random: times a constant plus another, modulo 2^64.
#[tactic(auto, unfolding(crate::specs::Noise::next_state))]
pub fn next_state(state: u64) -> u64
    ensures { result ≡ next_state state }
{
    let next = u128::from(state) * 6_364_136_223_846_793_005 + 1_442_695_040_888_963_407;
    (next % (1 << 64)) as u64
}

/// So many bytes, each the upper one of the next state after `seed`.
#[tactic(auto, using(crate::proofs::Texts::noise_more))]
pub(crate) fn noise(alloc: Global, seed: u64, len: u32) -> Result<Vec<u8>, AllocError>
    ensures { IfOk result (λ bytes. bytes.items ≡ noise seed len) }
{
    let mut bytes = Vec::with_capacity(alloc, len as usize)?;
    let mut state = seed;
    for _ in 0..len {
        state = next_state(state);
        bytes.push((state >> 56) as u8)?;
    }
    Ok(bytes)
}
