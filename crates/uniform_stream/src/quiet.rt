//! Instructions that write registers alone.
ghost use Rattle.std.specs.Prelude.{◌≡◌};
ghost use Rattle.uniform_stream.specs.Quiet.{is_register_address, writes_registers};

use qpu_isa::word::{is_branch, waddr_add, waddr_mul};

// The write address is a register's or nothing's.
#[inline]
#[tactic(auto, unfolding(crate::specs::Quiet::is_register_address))]
fn is_register_address(address: u8) -> bool
    ensures { result ≡ is_register_address address }
{
    address < 36 || address == 39
}

/// Whether the instruction writes registers alone, or nothing: neither unit writes a TMU, the uniforms' address or a register
/// that reaches other units. Most rules can't be broken there, so a walk over a shader asks this first.
#[inline]
#[tactic(auto, unfolding(crate::specs::Quiet::writes_registers))]
pub fn writes_registers(word: u64) -> bool
    ensures { result ≡ writes_registers word }
{
    is_branch(word)
        || (is_register_address(waddr_add(word)) && is_register_address(waddr_mul(word)))
}
