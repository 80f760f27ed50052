//! The operands of the add unit, and the instructions that make a fact of a register's value.
#![tactic(auto, unfolding(crate::proofs::Opened::terms))]

ghost use Rattle.std.specs.Prelude.{◌≡◌, IfSome};
ghost use Rattle.qpu_isa.specs.Terms.{is_plain, is_uniform_operand, operand_register, loaded_value, is_max_with_zero, first_register, is_min_with_uniform, is_add_with_uniform};
ghost use Rattle.qpu_isa.specs.Report.{IsRegister};

use crate::inst::Reg;
use crate::word::{
    add_a, add_b, has_small, imm, is_alu, is_load_imm, mode, op_add, pm, raddr_a, raddr_b, unpack,
};

/// Whether the operand of this selector isn't unpacked on its way.
#[inline]
pub fn is_plain(word: u64, selector: u8) -> bool
    ensures { result ≡ is_plain word selector }
{
    if unpack(word) == 0 {
        return true;
    }
    if pm(word) {
        return selector != 4;
    }
    selector != 6
}

/// Whether the operand of this selector is the uniform, as it is.
#[inline]
pub fn is_uniform_operand(word: u64, selector: u8) -> bool
    ensures { result ≡ is_uniform_operand word selector }
{
    is_plain(word, selector)
        && ((selector == 6 && raddr_a(word) == 32)
            || (selector == 7 && (raddr_b(word) == 32 && !has_small(word))))
}

/// The register that the operand of this selector is, as it is; `None` where it isn't a register that a unit can write, or is
/// unpacked.
#[inline]
pub fn operand_register(word: u64, selector: u8) -> Option<Reg>
    ensures value { result ≡ operand_register word selector }
    ensures register { IfSome result IsRegister }
{
    if !is_plain(word, selector) {
        return None;
    }
    if selector < 4 {
        return Some(Reg::Acc(selector));
    }
    if selector == 6 && raddr_a(word) < 32 {
        return Some(Reg::A(raddr_a(word)));
    }
    if selector == 7 && raddr_b(word) < 32 && !has_small(word) {
        return Some(Reg::B(raddr_b(word)));
    }
    None
}

/// The register that the add unit's first operand is.
#[inline]
pub fn first_register(word: u64) -> Option<Reg>
    ensures value { result ≡ first_register word }
    ensures register { IfSome result IsRegister }
{
    operand_register(word, add_a(word))
}

/// The value that a load immediate puts into each element; `None` for every other instruction.
#[inline]
pub fn loaded_value(word: u64) -> Option<u32>
    ensures { result ≡ loaded_value word }
{
    if is_load_imm(word) && mode(word) == 0 {
        return Some(imm(word));
    }
    None
}

/// Whether the instruction takes the greater of an operand and the small immediate 0.
#[inline]
pub fn is_max_with_zero(word: u64) -> bool
    ensures { result ≡ is_max_with_zero word }
{
    (has_small(word) && op_add(word) == 19)
        && (raddr_b(word) == 0 && (add_a(word) == 7 || add_b(word) == 7))
}

/// Whether the instruction takes the lesser of its first operand and a uniform.
#[inline]
pub fn is_min_with_uniform(word: u64) -> bool
    ensures { result ≡ is_min_with_uniform word }
{
    (is_alu(word) && op_add(word) == 18) && is_uniform_operand(word, add_b(word))
}

/// Whether the instruction takes the sum of its first operand and a uniform.
#[inline]
pub fn is_add_with_uniform(word: u64) -> bool
    ensures { result ≡ is_add_with_uniform word }
{
    (is_alu(word) && op_add(word) == 12) && is_uniform_operand(word, add_b(word))
}
