//! What an instruction writes: registers, the uniforms' address, TMUs (texture and memory units). A branch writes nothing.
//! And what it takes from the uniform stream.
//!
//! Where a TMU's number is asked for it is 0 or 1, and `pending` is how many setup words that TMU keeps.
#![tactic(auto, unfolding(crate::proofs::Opened::terms))]

ghost use Rattle.std.specs.Prelude.{◌≡◌, ◌<◌, ◌≤◌, ◌+◌, ◌*◌};
ghost use Rattle.qpu_isa.specs.Terms.{add_names, mul_names, names_address, is_address_write, is_relative_address_write, names_forbidden, add_names_reg, mul_names_reg, names, is_accumulator, sets_alone, is_add_packed, is_mul_packed, reads_upper, names_upper, is_upper, reads_uniform_of, is_tmu_address, add_writes_tmu, mul_writes_tmu, tmu_writes, writes_tmu, writes_s, loads, add_is_tmu, mul_is_tmu, has_two_tmu_writes, has_conditional_tmu_write};
ghost use Rattle.qpu_isa.specs.Setups.{adds_direct, muls_direct, is_direct, adds_setup, muls_setup, has_setup, takes_with};
ghost use Rattle.qpu_isa.specs.Report.{IsRegister};

use crate::inst::Reg;
use crate::word::{
    cond_add, cond_mul, has_small, is_alu, is_branch, pack, pm, raddr_a, raddr_b, sig, waddr_add,
    waddr_mul, ws,
};

/// Whether the add unit writes this address.
#[inline]
pub fn add_names(word: u64, address: u8) -> bool
    ensures { result ≡ add_names word address }
{
    !is_branch(word) && waddr_add(word) == address
}

/// Whether the multiply unit writes this address.
#[inline]
pub fn mul_names(word: u64, address: u8) -> bool
    ensures { result ≡ mul_names word address }
{
    !is_branch(word) && waddr_mul(word) == address
}

/// Whether either unit writes this address.
#[inline]
pub fn names_address(word: u64, address: u8) -> bool
    ensures { result ≡ names_address word address }
{
    add_names(word, address) || mul_names(word, address)
}

/// Whether the instruction sets the address of the uniforms.
#[inline]
pub fn is_address_write(word: u64) -> bool
    ensures { result ≡ is_address_write word }
{
    if ws(word) {
        mul_names(word, 40)
    } else {
        add_names(word, 40)
    }
}

/// Whether the instruction sets the address of the uniforms relative to another element.
#[inline]
pub fn is_relative_address_write(word: u64) -> bool
    ensures { result ≡ is_relative_address_write word }
{
    if ws(word) {
        add_names(word, 40)
    } else {
        mul_names(word, 40)
    }
}

/// Whether the instruction writes a register that reaches other units.
#[inline]
pub fn names_forbidden(word: u64) -> bool
    ensures { result ≡ names_forbidden word }
{
    names_address(word, 36)
        || names_address(word, 38)
        || names_address(word, 47)
        || names_address(word, 50)
        || names_address(word, 51)
}

/// Whether the add unit's write address names the register.
#[inline]
pub fn add_names_reg(word: u64, reg: Reg) -> bool
    requires { IsRegister reg }
    ensures { result ≡ add_names_reg word reg }
{
    match reg {
        Reg::A(number) => !ws(word) && add_names(word, number),
        Reg::B(number) => ws(word) && add_names(word, number),
        Reg::Acc(number) => add_names(word, 32 + number),
    }
}

/// Whether the multiply unit's write address names the register.
#[inline]
pub fn mul_names_reg(word: u64, reg: Reg) -> bool
    requires { IsRegister reg }
    ensures { result ≡ mul_names_reg word reg }
{
    match reg {
        Reg::A(number) => ws(word) && mul_names(word, number),
        Reg::B(number) => !ws(word) && mul_names(word, number),
        Reg::Acc(number) => mul_names(word, 32 + number),
    }
}

/// Whether either unit's write address names the register, whatever its condition and operation.
#[inline]
pub fn names(word: u64, reg: Reg) -> bool
    requires { IsRegister reg }
    ensures { result ≡ names word reg }
{
    add_names_reg(word, reg) || mul_names_reg(word, reg)
}

/// Whether the register is one of r0 to r3, which both threads use.
#[inline]
pub fn is_accumulator(reg: Reg) -> bool
    ensures { result ≡ is_accumulator reg }
{
    match reg {
        Reg::A(_) => false,
        Reg::B(_) => false,
        Reg::Acc(_) => true,
    }
}

/// Whether the add unit's result is packed on its way to its register.
#[inline]
pub fn is_add_packed(word: u64) -> bool
    ensures { result ≡ is_add_packed word }
{
    pack(word) != 0 && !pm(word) && !ws(word)
}

/// Whether the multiply unit's result is packed on its way to its register.
#[inline]
pub fn is_mul_packed(word: u64) -> bool
    ensures { result ≡ is_mul_packed word }
{
    pack(word) != 0 && (pm(word) || ws(word))
}

/// Whether the add unit alone sets the whole register, always and not packed.
#[inline]
pub fn sets_alone(word: u64, reg: Reg) -> bool
    requires { IsRegister reg }
    ensures { result ≡ sets_alone word reg }
{
    (add_names_reg(word, reg) && !mul_names_reg(word, reg))
        && (cond_add(word) == 1 && !is_add_packed(word))
}

// A file register 16 to 31.
fn is_upper(address: u8) -> bool
    ensures { result ≡ is_upper address }
{
    16 <= address && address < 32
}

/// Whether the instruction reads a file register 16 to 31, whether an operand uses it or not.
#[inline]
pub fn reads_upper(word: u64) -> bool
    ensures { result ≡ reads_upper word }
{
    is_alu(word) && (is_upper(raddr_a(word)) || (is_upper(raddr_b(word)) && !has_small(word)))
}

/// Whether a unit writes a file register 16 to 31.
#[inline]
pub fn names_upper(word: u64) -> bool
    ensures { result ≡ names_upper word }
{
    !is_branch(word) && (is_upper(waddr_add(word)) || is_upper(waddr_mul(word)))
}

/// Whether the instruction reads a uniform.
#[inline]
pub fn reads_uniform(word: u64) -> bool
    ensures { result ≡ reads_uniform_of word }
{
    is_alu(word) && (raddr_a(word) == 32 || (raddr_b(word) == 32 && !has_small(word)))
}

// The write address belongs to this TMU.
fn is_tmu_address(tmu: u8, address: u8) -> bool
    requires { tmu < 2 }
    ensures { result ≡ is_tmu_address tmu address }
{
    56 + 4 * tmu <= address && address < 60 + 4 * tmu
}

/// Whether the add unit writes this TMU.
#[inline]
pub fn add_writes_tmu(word: u64, tmu: u8) -> bool
    requires { tmu < 2 }
    ensures { result ≡ add_writes_tmu word tmu }
{
    !is_branch(word) && is_tmu_address(tmu, waddr_add(word))
}

/// Whether the multiply unit writes this TMU.
#[inline]
pub fn mul_writes_tmu(word: u64, tmu: u8) -> bool
    requires { tmu < 2 }
    ensures { result ≡ mul_writes_tmu word tmu }
{
    !is_branch(word) && is_tmu_address(tmu, waddr_mul(word))
}

/// Whether the instruction writes this TMU.
#[inline]
pub fn writes_tmu(word: u64, tmu: u8) -> bool
    requires { tmu < 2 }
    ensures { result ≡ writes_tmu word tmu }
{
    add_writes_tmu(word, tmu) || mul_writes_tmu(word, tmu)
}

/// How many of the two units write this TMU.
#[inline]
pub fn tmu_writes(word: u64, tmu: u8) -> u16
    requires { tmu < 2 }
    ensures value { result ≡ tmu_writes word tmu }
    ensures small { result ≤ 2 }
{
    u16::from(add_writes_tmu(word, tmu)) + u16::from(mul_writes_tmu(word, tmu))
}

/// Whether the instruction writes S of this TMU, which sends a request.
#[inline]
pub fn writes_s(word: u64, tmu: u8) -> bool
    requires { tmu < 2 }
    ensures { result ≡ writes_s word tmu }
{
    names_address(word, 56 + 4 * tmu)
}

/// Whether the instruction loads a result of this TMU.
#[tactic(auto, unfolding(crate::specs::Terms::loads))]
pub fn loads(word: u64, tmu: u8) -> bool
    requires { tmu < 2 }
    ensures { result ≡ loads word tmu }
{
    sig(word) == 10 + tmu
}

/// Whether the add unit writes a TMU.
#[inline]
pub fn add_is_tmu(word: u64) -> bool
    ensures { result ≡ add_is_tmu word }
{
    !is_branch(word) && 56 <= waddr_add(word)
}

/// Whether the multiply unit writes a TMU.
#[inline]
pub fn mul_is_tmu(word: u64) -> bool
    ensures { result ≡ mul_is_tmu word }
{
    !is_branch(word) && 56 <= waddr_mul(word)
}

/// Whether both units write a TMU.
#[inline]
pub fn has_two_tmu_writes(word: u64) -> bool
    ensures { result ≡ has_two_tmu_writes word }
{
    add_is_tmu(word) && mul_is_tmu(word)
}

/// Whether a unit writes a TMU under a condition.
#[inline]
pub fn has_conditional_tmu_write(word: u64) -> bool
    ensures { result ≡ has_conditional_tmu_write word }
{
    (add_is_tmu(word) && !(cond_add(word) == 1)) || (mul_is_tmu(word) && !(cond_mul(word) == 1))
}

/// Whether the add unit's write of this TMU's S is direct.
#[inline]
pub fn adds_direct(word: u64, tmu: u8, pending: u16) -> bool
    requires { tmu < 2 }
    ensures { result ≡ adds_direct word tmu pending }
{
    add_names(word, 56 + 4 * tmu) && pending == 0
}

/// Whether the multiply unit's write of this TMU's S is direct.
#[inline]
pub fn muls_direct(word: u64, tmu: u8, pending: u16) -> bool
    requires { tmu < 2 }
    ensures { result ≡ muls_direct word tmu pending }
{
    mul_names(word, 56 + 4 * tmu) && pending == 0
}

/// Whether a write of this TMU's S is direct: it asks for the word at an address that the shader computed.
#[inline]
pub fn is_direct(word: u64, tmu: u8, pending: u16) -> bool
    requires { tmu < 2 }
    ensures { result ≡ is_direct word tmu pending }
{
    adds_direct(word, tmu, pending) || muls_direct(word, tmu, pending)
}

// The add unit has a setup write of this TMU.
fn adds_setup(word: u64, tmu: u8, pending: u16) -> bool
    requires { tmu < 2 }
    ensures { result ≡ adds_setup word tmu pending }
{
    add_writes_tmu(word, tmu) && !adds_direct(word, tmu, pending)
}

// The multiply unit has a setup write of this TMU.
fn muls_setup(word: u64, tmu: u8, pending: u16) -> bool
    requires { tmu < 2 }
    ensures { result ≡ muls_setup word tmu pending }
{
    mul_writes_tmu(word, tmu) && !muls_direct(word, tmu, pending)
}

/// Whether the instruction has a setup write of either TMU: one that isn't direct.
#[inline]
pub fn has_setup(word: u64, pending0: u16, pending1: u16) -> bool
    ensures { result ≡ has_setup word pending0 pending1 }
{
    (adds_setup(word, 0, pending0) || muls_setup(word, 0, pending0))
        || (adds_setup(word, 1, pending1) || muls_setup(word, 1, pending1))
}

/// Whether the instruction takes a uniform.
#[inline]
pub fn takes(word: u64, pending0: u16, pending1: u16) -> bool
    ensures { result ≡ takes_with word pending0 pending1 }
{
    reads_uniform(word) || has_setup(word, pending0, pending1)
}
