//! The uniforms that a shader's instructions take.
ghost use Rattle.std.specs.Prelude.{ℕ, ◌≡◌, ◌<◌, ◌^◌, ◌+◌, nat_lt, ◌||◌, List, length, slice_index, if◌then◌else◌};
ghost use Rattle.qpu_isa.specs.Terms.{is_end};
ghost use Rattle.job_text.specs.Taken.{IsTaking, uniform_at, takes_now, keeps_next};

use qpu_isa::word::is_end;
use qpu_isa::writes::{takes, tmu_writes, writes_s};

/// What is known before an instruction: how many uniforms are taken so far, whether each TMU keeps set-up words, and how many
/// instructions there are from the program end on.
#[derive(Clone, Copy, Default)]
pub struct Taking {
    count: usize,
    keeps0: bool,
    keeps1: bool,
    behind: usize,
}

fn one_more(count: usize) -> usize
    ensures { count + 1 < 2 ^ 64 → result ≡ count + 1 }
{
    count.saturating_add(1)
}

// Whether a TMU keeps set-up words behind an instruction.
#[tactic(auto, unfolding(crate::specs::Taken::keeps_next))]
fn keeps_next(word: u64, tmu: u8, keeps: bool) -> bool
    requires { tmu < 2 }
    ensures { result ≡ keeps_next word tmu keeps }
{
    !writes_s(word, tmu) && (keeps || tmu_writes(word, tmu) > 0)
}

// Whether an instruction takes a uniform. Those behind the two after a program end are never executed.
#[tactic(auto, unfolding(crate::specs::Taken::takes_now))]
fn takes_now(now: Taking, word: u64) -> bool
    ensures { result ≡ takes_now now word }
{
    now.behind < 3 && takes(word, u16::from(now.keeps0), u16::from(now.keeps1))
}

/// The number of the uniform that an instruction takes.
pub(crate) fn uniform_of(now: Taking, word: u64) -> Option<usize>
    ensures { (code : List ℕ) (i : ℕ) → i < length code → word ≡ slice_index code i
        → IsTaking code i now → result ≡ uniform_at code i }
{
    if takes_now(now, word) {
        Some(now.count)
    } else {
        None
    }
}

// How many uniforms are taken up to an instruction.
fn count_next(now: Taking, word: u64) -> usize
    ensures { now.count + 1 < 2 ^ 64
        → result ≡ (if takes_now now word then now.count + 1 else now.count) }
{
    if takes_now(now, word) {
        one_more(now.count)
    } else {
        now.count
    }
}

// How many instructions there are from the program end on, behind an instruction.
fn behind_next(behind: usize, word: u64) -> usize
    ensures { behind + 1 < 2 ^ 64
        → result ≡ (if nat_lt 0 behind || is_end word then behind + 1 else 0) }
{
    if behind > 0 || is_end(word) {
        one_more(behind)
    } else {
        0
    }
}

/// What is known behind an instruction.
pub(crate) fn next(now: Taking, word: u64) -> Taking
    ensures { (code : List ℕ) (i : ℕ) → length code < 2 ^ 64 → i < length code
        → word ≡ slice_index code i → IsTaking code i now → IsTaking code (i + 1) result }
{
    Taking {
        count: count_next(now, word),
        keeps0: keeps_next(word, 0, now.keeps0),
        keeps1: keeps_next(word, 1, now.keeps1),
        behind: behind_next(now.behind, word),
    }
}
