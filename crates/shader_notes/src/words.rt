//! What the notes ask of one instruction.
ghost use Rattle.std.specs.Prelude.{◌≡◌, ◌<◌, ◌+◌, ◌||◌, ◌&&◌};
ghost use Rattle.qpu_isa.specs.Terms.{names_address};
ghost use Rattle.shader_notes.specs.Notes.{accesses_tile, locks, writes_file, is_function, asks_function, reads_r4, rotates, rotates_new};
ghost use Rattle.strict_rules.specs.Words.{reads_address};

use qpu_isa::word::{
    add_a, add_b, has_small, is_alu, is_branch, mul_a, mul_b, op_add, op_mul, raddr_a, raddr_b,
    sig, waddr_add, waddr_mul,
};
use qpu_isa::writes::names_address;

/// Whether the instruction accesses the tile buffer.
#[tactic(auto, unfolding(crate::specs::Notes::accesses_tile))]
pub(crate) fn accesses_tile(word: u64) -> bool
    ensures { result ≡ accesses_tile word }
{
    sig(word) == 8
        || ((names_address(word, 44) || names_address(word, 45))
            || (names_address(word, 46) || names_address(word, 47)))
}

/// Whether it does, or waits for the scoreboard.
#[tactic(auto, unfolding(crate::specs::Notes::locks))]
pub(crate) fn locks(word: u64) -> bool
    ensures { result ≡ locks word }
{
    sig(word) == 4 || accesses_tile(word)
}

/// Whether the instruction writes a register of a file.
#[tactic(auto, unfolding(crate::specs::Notes::writes_file))]
pub(crate) fn writes_file(word: u64) -> bool
    ensures { result ≡ writes_file word }
{
    !is_branch(word) && (waddr_add(word) < 32 || waddr_mul(word) < 32)
}

/// Whether the instruction reads or writes register 14 of a file.
#[tactic(auto, unfolding(strict_rules::specs::Words::reads_address))]
pub(crate) fn uses_14(word: u64) -> bool
    ensures { result ≡ (reads_address word 14 || names_address word 14) }
{
    (is_alu(word) && (raddr_a(word) == 14 || (raddr_b(word) == 14 && !has_small(word))))
        || names_address(word, 14)
}

#[tactic(auto, unfolding(crate::specs::Notes::is_function))]
fn is_function(address: u8) -> bool
    ensures { result ≡ is_function address }
{
    51 < address && address < 56
}

/// Whether the instruction asks for a special function.
#[tactic(auto, unfolding(crate::specs::Notes::asks_function))]
pub(crate) fn asks_function(word: u64) -> bool
    ensures { result ≡ asks_function word }
{
    !is_branch(word) && (is_function(waddr_add(word)) || is_function(waddr_mul(word)))
}

/// Whether the instruction reads r4.
#[tactic(auto, unfolding(crate::specs::Notes::reads_r4))]
pub(crate) fn reads_r4(word: u64) -> bool
    ensures { result ≡ reads_r4 word }
{
    is_alu(word)
        && ((!(op_add(word) == 0) && (add_a(word) == 4 || add_b(word) == 4))
            || (!(op_mul(word) == 0) && (mul_a(word) == 4 || mul_b(word) == 4)))
}

#[tactic(auto, unfolding(crate::specs::Notes::rotates))]
fn rotates(word: u64, number: u8) -> bool
    ensures { result ≡ rotates word number }
{
    (has_small(word) && 48 <= raddr_b(word))
        && (!(op_mul(word) == 0) && (mul_a(word) == number || mul_b(word) == number))
}

// Whether `word` rotates this accumulator, which `before` writes.
fn rotates_written(before: u64, word: u64, number: u8) -> bool
    requires { number < 6 }
    ensures { result ≡ (rotates word number && names_address before (32 + number)) }
{
    rotates(word, number) && names_address(before, 32 + number)
}

/// Whether `word` rotates an accumulator that `before` writes.
#[tactic(auto, unfolding(crate::specs::Notes::rotates_new))]
pub(crate) fn rotates_new(before: u64, word: u64) -> bool
    ensures { result ≡ rotates_new before word }
{
    (rotates_written(before, word, 0) || rotates_written(before, word, 1))
        || (rotates_written(before, word, 2)
            || (rotates_written(before, word, 3) || rotates_written(before, word, 5)))
}
