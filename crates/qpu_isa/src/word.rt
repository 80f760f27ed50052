//! The fields of an instruction word, each by its one name, and the kinds of instructions.
//!
//! A word is any number of 64 bits. Which fields it has depends on its signal: those of a load immediate (signal 14) and of
//! a branch (15) come last here.
#![tactic(auto, unfolding(crate::proofs::Opened::fields, crate::proofs::Opened::terms))]

ghost use Rattle.std.specs.Prelude.{◌≡◌, ◌<◌};
ghost use Rattle.qpu_isa.specs.Word.{sig_of, unpack_of, pm_of, pack_of, cond_add_of, cond_mul_of, sf_of, ws_of, waddr_add_of, waddr_mul_of, op_mul_of, op_add_of, raddr_a_of, raddr_b_of, add_a_of, add_b_of, mul_a_of, mul_b_of, mode_of, imm_of, spare_of, cond_of, relative_of, register_of, raddr_of};
ghost use Rattle.qpu_isa.specs.Terms.{is_alu, is_load_imm, is_branch, is_switch, is_end, has_small, is_backward, target_of};

/// The signal, 0 to 15.
#[inline]
pub fn sig(word: u64) -> u8
    ensures value { result ≡ sig_of word }
    ensures small { result < 16 }
{
    ((word >> 60) % 16) as u8
}

/// How the read of file A, or r4 where `pm` is set, is unpacked, 0 to 7; 0 is not at all.
#[inline]
pub fn unpack(word: u64) -> u8
    ensures value { result ≡ unpack_of word }
    ensures small { result < 8 }
{
    ((word >> 57) % 8) as u8
}

/// Whether packing is the multiply unit's, and unpacking that of r4.
#[inline]
pub fn pm(word: u64) -> bool
    ensures { result ≡ pm_of word }
{
    (word >> 56) % 2 == 1
}

/// How a result is packed, 0 to 15; 0 is not at all.
#[inline]
pub fn pack(word: u64) -> u8
    ensures value { result ≡ pack_of word }
    ensures small { result < 16 }
{
    ((word >> 52) % 16) as u8
}

/// The add unit's condition, 0 to 7; 1 is always.
#[inline]
pub fn cond_add(word: u64) -> u8
    ensures value { result ≡ cond_add_of word }
    ensures small { result < 8 }
{
    ((word >> 49) % 8) as u8
}

/// The multiply unit's condition, 0 to 7; 1 is always.
#[inline]
pub fn cond_mul(word: u64) -> u8
    ensures value { result ≡ cond_mul_of word }
    ensures small { result < 8 }
{
    ((word >> 46) % 8) as u8
}

/// Whether the flags are set.
#[inline]
pub fn sf(word: u64) -> bool
    ensures { result ≡ sf_of word }
{
    (word >> 45) % 2 == 1
}

/// Whether the add unit writes the B side and the multiply unit the A side.
#[inline]
pub fn ws(word: u64) -> bool
    ensures { result ≡ ws_of word }
{
    (word >> 44) % 2 == 1
}

/// The add unit's write address, 0 to 63.
#[inline]
pub fn waddr_add(word: u64) -> u8
    ensures value { result ≡ waddr_add_of word }
    ensures small { result < 64 }
{
    ((word >> 38) % 64) as u8
}

/// The multiply unit's write address, 0 to 63.
#[inline]
pub fn waddr_mul(word: u64) -> u8
    ensures value { result ≡ waddr_mul_of word }
    ensures small { result < 64 }
{
    ((word >> 32) % 64) as u8
}

/// The multiply unit's operation, 0 to 7.
#[inline]
pub fn op_mul(word: u64) -> u8
    ensures value { result ≡ op_mul_of word }
    ensures small { result < 8 }
{
    ((word >> 29) % 8) as u8
}

/// The add unit's operation, 0 to 31.
#[inline]
pub fn op_add(word: u64) -> u8
    ensures value { result ≡ op_add_of word }
    ensures small { result < 32 }
{
    ((word >> 24) % 32) as u8
}

/// The read address of file A, 0 to 63; 32 is a uniform.
#[inline]
pub fn raddr_a(word: u64) -> u8
    ensures value { result ≡ raddr_a_of word }
    ensures small { result < 64 }
{
    ((word >> 18) % 64) as u8
}

/// The read address of file B, 0 to 63, or a small immediate where the signal is 13.
#[inline]
pub fn raddr_b(word: u64) -> u8
    ensures value { result ≡ raddr_b_of word }
    ensures small { result < 64 }
{
    ((word >> 12) % 64) as u8
}

/// The selector of the add unit's first operand, 0 to 7.
#[inline]
pub fn add_a(word: u64) -> u8
    ensures value { result ≡ add_a_of word }
    ensures small { result < 8 }
{
    ((word >> 9) % 8) as u8
}

/// The selector of the add unit's second operand, 0 to 7.
#[inline]
pub fn add_b(word: u64) -> u8
    ensures value { result ≡ add_b_of word }
    ensures small { result < 8 }
{
    ((word >> 6) % 8) as u8
}

/// The selector of the multiply unit's first operand, 0 to 7.
#[inline]
pub fn mul_a(word: u64) -> u8
    ensures value { result ≡ mul_a_of word }
    ensures small { result < 8 }
{
    ((word >> 3) % 8) as u8
}

/// The selector of the multiply unit's second operand, 0 to 7.
#[inline]
pub fn mul_b(word: u64) -> u8
    ensures value { result ≡ mul_b_of word }
    ensures small { result < 8 }
{
    (word % 8) as u8
}

/// The mode of a load immediate, 0 to 7.
#[inline]
pub fn mode(word: u64) -> u8
    ensures value { result ≡ mode_of word }
    ensures small { result < 8 }
{
    ((word >> 57) % 8) as u8
}

/// The immediate of a load or a branch.
#[inline]
pub fn imm(word: u64) -> u32
    ensures { result ≡ imm_of word }
{
    (word % (1 << 32)) as u32
}

/// The bits of a branch that mean nothing, 0 to 15.
#[inline]
pub fn spare(word: u64) -> u8
    ensures value { result ≡ spare_of word }
    ensures small { result < 16 }
{
    ((word >> 56) % 16) as u8
}

/// The condition of a branch, 0 to 15.
#[inline]
pub fn cond(word: u64) -> u8
    ensures value { result ≡ cond_of word }
    ensures small { result < 16 }
{
    ((word >> 52) % 16) as u8
}

/// Whether a branch counts from its own place.
#[inline]
pub fn relative(word: u64) -> bool
    ensures { result ≡ relative_of word }
{
    (word >> 51) % 2 == 1
}

/// Whether a branch takes its target from a register.
#[inline]
pub fn register(word: u64) -> bool
    ensures { result ≡ register_of word }
{
    (word >> 50) % 2 == 1
}

/// The register of file A of a branch by a register, 0 to 31.
#[inline]
pub fn raddr(word: u64) -> u8
    ensures value { result ≡ raddr_of word }
    ensures small { result < 32 }
{
    ((word >> 45) % 32) as u8
}

/// Whether it is an instruction of the two units.
#[inline]
pub fn is_alu(word: u64) -> bool
    ensures { result ≡ is_alu word }
{
    sig(word) < 14
}

/// Whether it is a load immediate.
#[inline]
pub fn is_load_imm(word: u64) -> bool
    ensures { result ≡ is_load_imm word }
{
    sig(word) == 14
}

/// Whether it is a branch.
#[inline]
pub fn is_branch(word: u64) -> bool
    ensures { result ≡ is_branch word }
{
    sig(word) == 15
}

/// Whether it is a thread switch: 6 is a thread's last.
#[inline]
pub fn is_switch(word: u64) -> bool
    ensures { result ≡ is_switch word }
{
    sig(word) == 2 || sig(word) == 6
}

/// Whether it is a program end.
#[inline]
pub fn is_end(word: u64) -> bool
    ensures { result ≡ is_end word }
{
    sig(word) == 3
}

/// Whether the read of file B is a small immediate.
#[inline]
pub fn has_small(word: u64) -> bool
    ensures { result ≡ has_small word }
{
    sig(word) == 13
}

/// Whether it is a branch whose immediate is negative as a signed number.
#[inline]
pub fn is_backward(word: u64) -> bool
    ensures { result ≡ is_backward word }
{
    is_branch(word) && 1 << 31 <= imm(word)
}

/// The index that a relative branch at index `at` leads to. A target before the first instruction is a number of 2^28 or more.
#[inline]
pub fn target(word: u64, at: u32) -> u32
    ensures { result ≡ target_of word at }
{
    ((at as u64 + 4 + imm(word) as u64 / 8) % (1 << 29)) as u32
}
