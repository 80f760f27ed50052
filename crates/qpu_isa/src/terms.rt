//! What the calls tell of an instruction.
#![tactic(auto, unfolding(crate::proofs::Opened::terms))]

ghost use Rattle.std.specs.Prelude.{◌≡◌, ◌<◌};
ghost use Rattle.qpu_isa.specs.Report.{takes_uniform, tmu_at, tmu_written, first_given, is_named, names_written, IsRegister, TermsAgree, TargetsAreSums};

use crate::inst::{Inst, Reg};

/// Whether the instruction reads a uniform: an ALU instruction that reads address 32 of file A, or of file B where
/// signal 13 doesn't make that field a value.
pub fn reads_uniform(inst: &Inst) -> bool
    ensures { result ≡ takes_uniform inst.now }
{
    match inst {
        Inst::Alu(alu) => alu.raddr_a == 32 || (alu.raddr_b == 32 && alu.sig != 13),
        _ => false,
    }
}

// The TMU that a write address belongs to.
fn tmu_of_address(address: u8) -> Option<u8>
    ensures { result ≡ tmu_at address }
{
    match address {
        56..=59 => Some(0),
        60..=63 => Some(1),
        _ => None,
    }
}

/// The number of the TMU that the instruction writes: the add unit's where it has a TMU write, else the multiply unit's.
/// None where neither has one.
pub fn tmu_of(inst: &Inst) -> Option<u8>
    ensures { result ≡ tmu_written inst.now }
{
    match inst {
        Inst::Alu(alu) => tmu_of_units(alu.waddr_add, alu.waddr_mul),
        Inst::LoadImm(load) => tmu_of_units(load.waddr_add, load.waddr_mul),
        Inst::Branch(_) => None,
    }
}

fn tmu_of_units(waddr_add: u8, waddr_mul: u8) -> Option<u8>
    ensures { result ≡ first_given (tmu_at waddr_add) (tmu_at waddr_mul) }
{
    match tmu_of_address(waddr_add) {
        Some(tmu) => Some(tmu),
        None => tmu_of_address(waddr_mul),
    }
}

// Whether a write address on one side names the register.
fn names(on_a: bool, address: u8, reg: Reg) -> bool
    requires { IsRegister reg }
    ensures { result ≡ is_named on_a address reg }
{
    match reg {
        Reg::A(number) => on_a && address == number,
        Reg::B(number) => !on_a && address == number,
        Reg::Acc(number) => address == 32 + number,
    }
}

/// Whether a unit's write address names the register, whatever the unit's condition and operation. A branch names none.
pub fn writes_reg(inst: &Inst, reg: Reg) -> bool
    requires { IsRegister reg }
    ensures { result ≡ names_written inst.now reg }
{
    match inst {
        Inst::Alu(alu) => names(!alu.ws, alu.waddr_add, reg) || names(alu.ws, alu.waddr_mul, reg),
        Inst::LoadImm(load) => names(!load.ws, load.waddr_add, reg)
            || names(load.ws, load.waddr_mul, reg),
        Inst::Branch(_) => false,
    }
}

/// A law: of a word's instruction the calls here tell what the terms on words say.
pub fn terms_agree()
    ensures { TermsAgree }
{}

/// A law: a branch's target, a sum modulo 2^29, is the sum with a signed immediate.
pub fn targets_are_sums()
    ensures { TargetsAreSums }
{}
