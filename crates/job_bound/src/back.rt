//! Branches that lead back.
ghost use Rattle.std.specs.Prelude.{◌≡◌, ◌<◌, ◌≤◌, ◌^◌, length, Some};
ghost use Rattle.field_words.specs.Sizes.{most_words};
ghost use Rattle.field_words.specs.Questions.{first_of};
ghost use Rattle.shader_flow.specs.Flow.{end_of};
ghost use Rattle.promises.specs.Steps.{goes_back};
ghost use Rattle.job_bound.specs.Back.{branches};

use qpu_isa::word::{is_branch, target};

/// Whether the instruction at `at` is a branch into its own slots, to itself or to before it.
#[tactic(auto, unfolding(promises::specs::Steps::goes_back))]
fn goes_back(code: &[u64], at: u32) -> bool
    requires few { length code.now ≤ most_words }
    requires inside { at < length code.now }
    ensures { result ≡ goes_back code.now at }
{
    let word = code[at as usize];
    is_branch(word) && target(word, at) < at + 4
}

/// Where in the file the first branch of a shader that leads back stands. The shader begins at `place` in the file, and its program end is
/// the instruction `end`.
pub fn first_back(code: &[u64], end: u32, place: u64) -> Option<u64>
    requires few { length code.now ≤ most_words }
    requires end { end ≡ end_of code.now }
    requires low { place < 2 ^ 62 }
    ensures { result ≡ first_of (branches (Some code.now) place) }
{
    for at in 0..end {
        if goes_back(code, at) {
            return Some(place + 8 * u64::from(at));
        }
    }
    None
}
