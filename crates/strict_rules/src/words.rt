//! What the strict rules ask of one instruction.
ghost use Rattle.std.specs.Prelude.{◌≡◌, ◌<◌, ◌||◌};
ghost use Rattle.qpu_isa.specs.Terms.{names_address};
ghost use Rattle.strict_rules.specs.Words.{reads_address, uses_vpm, names_tile, has_tile_signal, uses_tile, is_coupled, add_couples, mul_couples, loads_result, coupled_of};

use qpu_isa::word::{has_small, is_alu, is_branch, raddr_a, raddr_b, sig, waddr_add, waddr_mul};
use qpu_isa::writes::names_address;

/// Whether an ALU instruction has this read address, whether an operand uses it or not.
#[tactic(auto, unfolding(crate::specs::Words::reads_address))]
pub(crate) fn reads_address(word: u64, address: u8) -> bool
    ensures { result ≡ reads_address word address }
{
    is_alu(word) && (raddr_a(word) == address || (raddr_b(word) == address && !has_small(word)))
}

// Whether the instruction reads or writes this address.
fn uses_address(word: u64, address: u8) -> bool
    ensures { result ≡ (reads_address word address || names_address word address) }
{
    reads_address(word, address) || names_address(word, address)
}

/// Whether the instruction uses the VPM.
#[tactic(auto, unfolding(crate::specs::Words::uses_vpm))]
pub(crate) fn uses_vpm(word: u64) -> bool
    ensures { result ≡ uses_vpm word }
{
    (uses_address(word, 48) || uses_address(word, 49)) || uses_address(word, 50)
}

// Whether a write address is that of a tile buffer, a special function or a TMU.
#[tactic(auto, unfolding(crate::specs::Words::is_coupled))]
fn is_coupled(address: u8) -> bool
    ensures { result ≡ is_coupled address }
{
    (43 < address && address < 48) || 51 < address
}

#[tactic(auto, unfolding(crate::specs::Words::add_couples))]
fn add_couples(word: u64) -> bool
    ensures { result ≡ add_couples word }
{
    !is_branch(word) && is_coupled(waddr_add(word))
}

#[tactic(auto, unfolding(crate::specs::Words::mul_couples))]
fn mul_couples(word: u64) -> bool
    ensures { result ≡ mul_couples word }
{
    !is_branch(word) && is_coupled(waddr_mul(word))
}

// Whether the signal loads a colour or a TMU's result.
#[tactic(auto, unfolding(crate::specs::Words::loads_result))]
fn loads_result(word: u64) -> bool
    ensures { result ≡ loads_result word }
{
    let signal = sig(word);
    signal == 8 || (signal == 10 || signal == 11)
}

/// How many coupled accesses the instruction makes.
#[tactic(auto, unfolding(crate::specs::Words::coupled_of))]
pub(crate) fn coupled(word: u64) -> u8
    ensures { result ≡ coupled_of word }
{
    (u8::from(add_couples(word)) + u8::from(mul_couples(word)))
        + (u8::from(loads_result(word)) + u8::from(reads_address(word, 51)))
}

#[tactic(auto, unfolding(crate::specs::Words::names_tile))]
fn names_tile(word: u64) -> bool
    ensures { result ≡ names_tile word }
{
    (names_address(word, 43) || names_address(word, 44))
        || ((names_address(word, 45) || names_address(word, 46)) || names_address(word, 47))
}

#[tactic(auto, unfolding(crate::specs::Words::has_tile_signal))]
fn has_tile_signal(word: u64) -> bool
    ensures { result ≡ has_tile_signal word }
{
    let signal = sig(word);
    signal == 4 || (signal == 5 || signal == 8)
}

/// Whether the instruction uses what fragment shaders alone may use.
#[tactic(auto, unfolding(crate::specs::Words::uses_tile))]
pub(crate) fn uses_tile(word: u64) -> bool
    ensures { result ≡ uses_tile word }
{
    names_tile(word) || (reads_address(word, 35) || has_tile_signal(word))
}
