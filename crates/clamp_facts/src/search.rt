//! Looking back from a use for the instruction that made what is in a register. The walk over a shader asks the table
//! instead; these count each look.
ghost use Rattle.std.specs.Prelude.{◌≡◌, ◌<◌, ◌≤◌, ◌+◌, ◌==◌, ℕ, false, true, ◌&&◌, nat_le, length, IfSome, MatchOption};
ghost use Rattle.qpu_isa.specs.Terms.{names, is_accumulator, is_switch};
ghost use Rattle.qpu_isa.specs.Report.{IsRegister};
ghost use Rattle.shader_flow.specs.Bounded.{some_in};
ghost use Rattle.shader_flow.specs.Flow.{word, is_target, IsFlow};
ghost use Rattle.clamp_facts.specs.Facts.{switches_between, stays, sets, carries, is_delayed, carrier_of, is_not_negative, makes_clamp, fact_at, clamps};
ghost use Rattle.clamp_facts.specs.Readings.{value_in, clamp_in};
ghost use Rattle.clamp_facts.specs.Upkeep.{IsLastNaming, IsCarrier};

use field_words::Steps;
use qpu_isa::Reg;
use qpu_isa::operands::{first_register, is_max_with_zero, is_min_with_uniform, loaded_value};
use qpu_isa::word::is_switch;
use qpu_isa::writes::{is_accumulator, names, sets_alone};
use shader_flow::{Flow, checked, is_marked};
use std::sync::ledger::Ledger;

// The last instruction before `at` that names the register.
fn last_naming(code: &[u64], at: usize, reg: Reg) -> Option<usize>
    requires inside { at < length code.now }
    requires register { IsRegister reg }
    ensures { MatchOption result ((k : ℕ) → k < at → names (word code.now k) reg ≡ false)
        (λ j. IsLastNaming code.now j at reg) }
{
    let mut j = at;
    while j > 0 {
        j -= 1;
        if names(code[j], reg) {
            return Some(j);
        }
    }
    None
}

// A target stands from `from` on and below `to`.
fn has_target(code: &[u64], flow: &Flow, from: usize, to: usize) -> bool
    requires inside { to ≤ length code.now }
    requires made { IsFlow code.now flow.now }
    ensures { result ≡ some_in from to (is_target code.now) }
{
    for at in from..to {
        if is_marked(code, flow, at) {
            return true;
        }
    }
    false
}

// A switch at `s` acts after the instruction at `j`, and before the one at `i`.
fn acts_between(code: &[u64], s: usize, j: usize, i: usize) -> bool
    requires inside { s < length code.now }
    ensures { result ≡ (is_switch (word code.now s) && (nat_le j (s + 2) && nat_le (s + 3) i)) }
{
    is_switch(code[s]) && (j <= s + 2 && s + 3 <= i)
}

// Some switch acts after the instruction at `j`, and before the one at `i`.
fn has_switch(code: &[u64], j: usize, i: usize) -> bool
    requires inside { i < length code.now }
    ensures { result ≡ switches_between code.now j i }
{
    for s in 0..i {
        if acts_between(code, s, j, i) {
            return true;
        }
    }
    false
}

// An accumulator was another thread's after the instruction at `j`.
fn is_switched(code: &[u64], j: usize, at: usize, reg: Reg) -> bool
    requires inside { at < length code.now }
    ensures { result ≡ (is_accumulator reg && switches_between code.now j at) }
{
    is_accumulator(reg) && has_switch(code, j, at)
}

// What the instruction at `j`, the last that names the register, set stays up to `at`.
fn stays(code: &[u64], flow: &Flow, j: usize, at: usize, reg: Reg) -> bool
    requires inside { at < length code.now }
    requires made { IsFlow code.now flow.now }
    requires last { IsLastNaming code.now j at reg }
    ensures { result ≡ stays code.now j at reg }
{
    !has_target(code, flow, j + 1, at + 1) && !is_switched(code, j, at, reg)
}

// A file register can't be read yet in the instruction after its write.
#[tactic(auto, unfolding(crate::specs::Facts::is_delayed))]
fn is_delayed(j: usize, at: usize, reg: Reg) -> bool
    requires { j < at }
    ensures { result ≡ is_delayed j at reg }
{
    !is_accumulator(reg) && at == j + 1
}

// The checked instruction at `j` sets the whole register.
#[tactic(auto, unfolding(crate::specs::Facts::sets))]
fn sets(code: &[u64], flow: &Flow, j: usize, reg: Reg) -> bool
    requires inside { j < length code.now }
    requires made { IsFlow code.now flow.now }
    requires register { IsRegister reg }
    ensures { result ≡ sets code.now j reg }
{
    j < checked(code, flow.end) && sets_alone(code[j], reg)
}

// What is read from the register at `at` was made by the instruction at `j`, the last that names it.
#[tactic(auto, unfolding(crate::specs::Facts::carries))]
fn is_carried(code: &[u64], flow: &Flow, j: usize, at: usize, reg: Reg) -> bool
    requires inside { at < length code.now }
    requires made { IsFlow code.now flow.now }
    requires register { IsRegister reg }
    requires last { IsLastNaming code.now j at reg }
    ensures { result ≡ carries code.now j at reg }
{
    (sets(code, flow, j, reg) && stays(code, flow, j, at, reg)) && !is_delayed(j, at, reg)
}

// The index of the instruction that made what is read from the register at `at`; `None` where that isn't known. There is at
// most one, since it is the last that names the register.
fn carrier(code: &[u64], flow: &Flow, at: u32, reg: Reg) -> Option<u32>
    requires inside { at < length code.now }
    requires made { IsFlow code.now flow.now }
    requires register { IsRegister reg }
    ensures value { result ≡ carrier_of code.now at reg }
    ensures found { IfSome result (λ j. IsCarrier code.now j at reg) }
{
    let Some(j) = last_naming(code, at as usize, reg) else {
        return None;
    };
    if is_carried(code, flow, j, at as usize, reg) {
        return Some(j as u32);
    }
    None
}

// The register isn't negative at `at`: a maximum with 0 made what it holds.
#[tactic(auto, unfolding(crate::specs::Facts::is_not_negative))]
fn is_not_negative(code: &[u64], flow: &Flow, at: u32, reg: Reg) -> bool
    requires inside { at < length code.now }
    requires made { IsFlow code.now flow.now }
    requires register { IsRegister reg }
    ensures { result ≡ is_not_negative code.now at reg }
{
    let Some(j) = carrier(code, flow, at, reg) else {
        return false;
    };
    is_max_with_zero(code[j as usize])
}

// The instruction at `at` is the minimum of a register that isn't negative and a uniform.
#[tactic(auto, unfolding(crate::specs::Facts::makes_clamp))]
fn is_clamp(code: &[u64], flow: &Flow, at: u32) -> bool
    requires inside { at < length code.now }
    requires made { IsFlow code.now flow.now }
    ensures { result ≡ makes_clamp code.now at }
{
    let word = code[at as usize];
    if !is_min_with_uniform(word) {
        return false;
    }
    match first_register(word) {
        Some(reg) => is_not_negative(code, flow, at, reg),
        None => false,
    }
}

// Counts a look at each instruction up to `at`.
fn count<L: Ledger>(at: u32, steps: &mut Steps<L>)
    ensures { steps.new ≡ steps.old + at + 1 }
{
    for _ in 0..at {
        steps.tick();
    }
    steps.tick();
}

/// The value that a load immediate put into the register, and that it still holds at `at`; `None` where it isn't known to
/// hold one. No other value holds then. It counts `at + 1` steps.
pub fn immediate_of<L: Ledger>(
    code: &[u64],
    flow: &Flow,
    at: u32,
    reg: Reg,
    steps: &mut Steps<L>,
) -> Option<u32>
    requires inside { at < length code.now }
    requires made { IsFlow code.now flow.now }
    requires register { IsRegister reg }
    ensures value { result ≡ value_in (fact_at code.now at reg) }
    ensures steps { steps.new ≡ steps.old + at + 1 }
{
    count(at, steps);
    let Some(j) = carrier(code, flow, at, reg) else {
        return None;
    };
    loaded_value(code[j as usize])
}

/// The index of the minimum with a uniform that clamped what the register holds at `at`: from 0 up to that uniform. `None`
/// where none did. There is at most one. It counts `at + 1` steps.
pub fn clamp_of<L: Ledger>(
    code: &[u64],
    flow: &Flow,
    at: u32,
    reg: Reg,
    steps: &mut Steps<L>,
) -> Option<u32>
    requires inside { at < length code.now }
    requires made { IsFlow code.now flow.now }
    requires register { IsRegister reg }
    ensures value { result ≡ clamp_in (fact_at code.now at reg) }
    ensures found { MatchOption result ((j : ℕ) → clamps code.now j at reg ≡ false)
        (λ j. clamps code.now j at reg ≡ true) }
    ensures only { IfSome result (λ j. (k : ℕ) → clamps code.now k at reg ≡ true → k ≡ j) }
    ensures steps { steps.new ≡ steps.old + at + 1 }
{
    count(at, steps);
    let Some(j) = carrier(code, flow, at, reg) else {
        return None;
    };
    if is_clamp(code, flow, j) {
        return Some(j);
    }
    None
}
