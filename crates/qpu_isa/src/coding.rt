//! A word as an instruction, and back.
ghost use Rattle.std.specs.Prelude.{◌≡◌, ◌<◌, ◌+◌, ◌^◌, ℕ, ◌↔◌, IsTrue};
ghost use Rattle.qpu_isa.specs.Inst.{inst_of, alu_of, load_imm_of, branch_of, word_of, alu_word, load_imm_word, branch_word, IsWithin, IsAluWithin, IsLoadImmWithin, IsBranchWithin, WordsReturn};

use crate::inst::{Alu, Branch, Inst, LoadImm};
use crate::word;

#[tactic(auto, unfolding(crate::specs::Inst::alu_of))]
fn alu(code: u64) -> Alu
    ensures fields { result ≡ alu_of code }
    ensures within { IsAluWithin result }
{
    Alu {
        sig: word::sig(code),
        unpack: word::unpack(code),
        pm: word::pm(code),
        pack: word::pack(code),
        cond_add: word::cond_add(code),
        cond_mul: word::cond_mul(code),
        sf: word::sf(code),
        ws: word::ws(code),
        waddr_add: word::waddr_add(code),
        waddr_mul: word::waddr_mul(code),
        op_mul: word::op_mul(code),
        op_add: word::op_add(code),
        raddr_a: word::raddr_a(code),
        raddr_b: word::raddr_b(code),
        add_a: word::add_a(code),
        add_b: word::add_b(code),
        mul_a: word::mul_a(code),
        mul_b: word::mul_b(code),
    }
}

#[tactic(auto, unfolding(crate::specs::Inst::load_imm_of))]
fn load_imm(code: u64) -> LoadImm
    ensures fields { result ≡ load_imm_of code }
    ensures within { IsLoadImmWithin result }
{
    LoadImm {
        mode: word::mode(code),
        pm: word::pm(code),
        pack: word::pack(code),
        cond_add: word::cond_add(code),
        cond_mul: word::cond_mul(code),
        sf: word::sf(code),
        ws: word::ws(code),
        waddr_add: word::waddr_add(code),
        waddr_mul: word::waddr_mul(code),
        imm: word::imm(code),
    }
}

#[tactic(auto, unfolding(crate::specs::Inst::branch_of))]
fn branch(code: u64) -> Branch
    ensures fields { result ≡ branch_of code }
    ensures within { IsBranchWithin result }
{
    Branch {
        spare: word::spare(code),
        cond: word::cond(code),
        relative: word::relative(code),
        register: word::register(code),
        raddr: word::raddr(code),
        ws: word::ws(code),
        waddr_add: word::waddr_add(code),
        waddr_mul: word::waddr_mul(code),
        imm: word::imm(code),
    }
}

/// Reads a word as an instruction: signal 14 is a load immediate, 15 a branch, any other an ALU instruction. Each word is
/// one, and `encode` gives it again.
#[tactic(auto, unfolding(crate::specs::Inst::inst_of))]
pub fn decode(code: u64) -> Inst
    ensures fields { result ≡ inst_of code }
    ensures within { IsWithin result }
{
    match word::sig(code) {
        14 => Inst::LoadImm(load_imm(code)),
        15 => Inst::Branch(branch(code)),
        _ => Inst::Alu(alu(code)),
    }
}

/// Whether each field is within its width, so that the instruction has a word.
pub fn fits(inst: &Inst) -> bool
    ensures { IsTrue result ↔ IsWithin inst.now }
{
    match inst {
        Inst::Alu(alu) => fits_alu(alu),
        Inst::LoadImm(load) => fits_load_imm(load),
        Inst::Branch(branch) => fits_branch(branch),
    }
}

fn fits_alu(alu: &Alu) -> bool
    ensures { IsTrue result ↔ IsAluWithin alu.now }
{
    if alu.sig >= 16
        || alu.unpack >= 8
        || alu.pack >= 16
        || alu.cond_add >= 8
        || alu.cond_mul >= 8
    {
        return false;
    }
    if alu.waddr_add >= 64 || alu.waddr_mul >= 64 || alu.op_mul >= 8 || alu.op_add >= 32 {
        return false;
    }
    if alu.raddr_a >= 64 || alu.raddr_b >= 64 {
        return false;
    }
    alu.add_a < 8 && alu.add_b < 8 && alu.mul_a < 8 && alu.mul_b < 8
}

fn fits_load_imm(load: &LoadImm) -> bool
    ensures { IsTrue result ↔ IsLoadImmWithin load.now }
{
    let _imm = load.imm;
    load.mode < 8
        && load.pack < 16
        && load.cond_add < 8
        && load.cond_mul < 8
        && load.waddr_add < 64
        && load.waddr_mul < 64
}

fn fits_branch(branch: &Branch) -> bool
    ensures { IsTrue result ↔ IsBranchWithin branch.now }
{
    let _imm = branch.imm;
    branch.spare < 16
        && branch.cond < 16
        && branch.raddr < 32
        && branch.waddr_add < 64
        && branch.waddr_mul < 64
}

/// The word with these fields.
pub fn encode(inst: &Inst) -> u64
    requires { IsWithin inst.now }
    ensures word { result ≡ word_of inst.now }
    ensures back { (word : ℕ) → word < 2 ^ 64 → inst.now ≡ inst_of word → result ≡ word }
{
    match inst {
        Inst::Alu(alu) => put_alu(alu),
        Inst::LoadImm(load) => put_load_imm(load),
        Inst::Branch(branch) => put_branch(branch),
    }
}

#[tactic(auto, unfolding(crate::specs::Inst::alu_word))]
fn put_alu(alu: &Alu) -> u64
    requires { IsAluWithin alu.now }
    ensures { result ≡ alu_word alu.now }
{
    ((alu.sig as u64) << 60)
        + ((alu.unpack as u64) << 57)
        + ((alu.pm as u64) << 56)
        + ((alu.pack as u64) << 52)
        + ((alu.cond_add as u64) << 49)
        + ((alu.cond_mul as u64) << 46)
        + ((alu.sf as u64) << 45)
        + ((alu.ws as u64) << 44)
        + ((alu.waddr_add as u64) << 38)
        + ((alu.waddr_mul as u64) << 32)
        + ((alu.op_mul as u64) << 29)
        + ((alu.op_add as u64) << 24)
        + ((alu.raddr_a as u64) << 18)
        + ((alu.raddr_b as u64) << 12)
        + ((alu.add_a as u64) << 9)
        + ((alu.add_b as u64) << 6)
        + ((alu.mul_a as u64) << 3)
        + alu.mul_b as u64
}

#[tactic(auto, unfolding(crate::specs::Inst::load_imm_word))]
fn put_load_imm(load: &LoadImm) -> u64
    requires { IsLoadImmWithin load.now }
    ensures { result ≡ load_imm_word load.now }
{
    (14 << 60)
        + ((load.mode as u64) << 57)
        + ((load.pm as u64) << 56)
        + ((load.pack as u64) << 52)
        + ((load.cond_add as u64) << 49)
        + ((load.cond_mul as u64) << 46)
        + ((load.sf as u64) << 45)
        + ((load.ws as u64) << 44)
        + ((load.waddr_add as u64) << 38)
        + ((load.waddr_mul as u64) << 32)
        + load.imm as u64
}

#[tactic(auto, unfolding(crate::specs::Inst::branch_word))]
fn put_branch(branch: &Branch) -> u64
    requires { IsBranchWithin branch.now }
    ensures { result ≡ branch_word branch.now }
{
    (15 << 60)
        + ((branch.spare as u64) << 56)
        + ((branch.cond as u64) << 52)
        + ((branch.relative as u64) << 51)
        + ((branch.register as u64) << 50)
        + ((branch.raddr as u64) << 45)
        + ((branch.ws as u64) << 44)
        + ((branch.waddr_add as u64) << 38)
        + ((branch.waddr_mul as u64) << 32)
        + branch.imm as u64
}

/// A law: each word is the word of its fields, so nothing is lost between `decode` and `encode`.
#[tactic(auto, using(crate::proofs::Words::each_returns))]
pub fn words_return()
    ensures { WordsReturn }
{}
