//! Keeping the table on the way up a shader.
ghost use Rattle.std.specs.Prelude.{◌≡◌, ◌<◌, ◌≤◌, ◌+◌, length, IfSome, if◌then◌else◌};
ghost use Rattle.qpu_isa.specs.Terms.{is_switch, sets_alone};
ghost use Rattle.qpu_isa.specs.Report.{IsRegister};
ghost use Rattle.shader_flow.specs.Bounded.{is_back};
ghost use Rattle.shader_flow.specs.Flow.{word, checked_of, IsFlow};
ghost use Rattle.shader_flow.specs.Pending.{count_of};
ghost use Rattle.clamp_facts.specs.{Facts.maker_of, Facts.makes_clamp, Facts.fact_of_write, declared.fact.Fact.TheVariants.Nothing};
ghost use Rattle.clamp_facts.specs.Upkeep.{IsTableOf, register_at, add_register, mul_register, maker_added, maker_written};

use crate::fact::Fact;
use crate::known::Known;
use crate::table::FactTable;
use field_words::Steps;
use qpu_isa::Reg;
use qpu_isa::operands::{first_register, is_max_with_zero, is_min_with_uniform, loaded_value};
use qpu_isa::word::{is_branch, is_switch, waddr_add, waddr_mul, ws};
use qpu_isa::writes::sets_alone;
use shader_flow::{Flow, is_marked};
use std::sync::ledger::Ledger;

// The instruction is the minimum of a register that isn't negative and a uniform.
#[tactic(auto, unfolding(crate::specs::Facts::makes_clamp))]
fn is_clamp<L: Ledger>(known: &Known, steps: &mut Steps<L>) -> bool
    ensures value { result ≡ makes_clamp known.now.code known.now.at }
    ensures steps { steps.new ≤ steps.old + 1 }
{
    if !is_min_with_uniform(known.word()) {
        return false;
    }
    match first_register(known.word()) {
        Some(reg) => known.look(reg, steps).is_from_zero(),
        None => false,
    }
}

// The fact that the instruction makes of the register that it sets.
#[tactic(auto, unfolding(crate::specs::Facts::fact_of_write))]
fn fact_made<L: Ledger>(known: &Known, steps: &mut Steps<L>) -> Fact
    ensures value { result ≡ fact_of_write known.now.code known.now.at }
    ensures steps { steps.new ≤ steps.old + 1 }
{
    let word = known.word();
    if let Some(value) = loaded_value(word) {
        return Fact::Immediate(value);
    }
    if is_max_with_zero(word) {
        return Fact::NotNegative;
    }
    if is_clamp(known, steps) {
        return Fact::Clamped {
            k: known.count,
            at: known.at,
        };
    }
    Fact::Nothing
}

// The register that a write address names on this side.
#[tactic(auto, unfolding(crate::specs::Upkeep::register_at))]
fn register_at(on_a: bool, address: u8) -> Option<Reg>
    ensures value { result ≡ register_at on_a address }
    ensures register { IfSome result IsRegister }
{
    if address < 32 {
        return Some(if on_a {
            Reg::A(address)
        } else {
            Reg::B(address)
        });
    }
    if address < 36 {
        return Some(Reg::Acc(address - 32));
    }
    None
}

// The register that the add unit's write address names.
#[tactic(auto, unfolding(crate::specs::Upkeep::add_register))]
fn add_register(word: u64) -> Option<Reg>
    ensures value { result ≡ add_register word }
    ensures register { IfSome result IsRegister }
{
    if is_branch(word) {
        return None;
    }
    register_at(!ws(word), waddr_add(word))
}

// The register that the multiply unit's write address names.
#[tactic(auto, unfolding(crate::specs::Upkeep::mul_register))]
fn mul_register(word: u64) -> Option<Reg>
    ensures value { result ≡ mul_register word }
    ensures register { IfSome result IsRegister }
{
    if is_branch(word) {
        return None;
    }
    register_at(ws(word), waddr_mul(word))
}

// The fact that the instruction makes of the register, where it sets the whole of it.
fn fact_set<L: Ledger>(known: &Known, reg: Reg, steps: &mut Steps<L>) -> Fact
    requires register { IsRegister reg }
    ensures value { result ≡ (if sets_alone (word known.now.code known.now.at) reg
        then fact_of_write known.now.code known.now.at else Nothing) }
    ensures steps { steps.new ≤ steps.old + 1 }
{
    if sets_alone(known.word(), reg) {
        return fact_made(known, steps);
    }
    Fact::Nothing
}

// Puts the fact that the instruction at `at` makes to the register that its add unit writes.
fn learn_add<L: Ledger>(
    code: &[u64],
    at: u32,
    count: u32,
    table: &mut FactTable,
    steps: &mut Steps<L>,
)
    requires checked { at < checked_of code.now }
    requires inside { at < length code.now }
    requires taken { count ≡ count_of code.now at }
    requires before { IsTableOf code.now (maker_of code.now at) table.old }
    ensures after { IsTableOf code.now (maker_added code.now at) table.new }
    ensures steps { steps.new ≤ steps.old + 2 }
{
    if let Some(reg) = add_register(code[at as usize]) {
        let known = Known {
            code,
            at,
            count,
            table: &*table,
        };
        let fact = fact_set(&known, reg, steps);
        table.put(reg, fact, at, steps);
    }
}

// Nothing is known of the register that the multiply unit writes.
fn learn_mul<L: Ledger>(code: &[u64], at: u32, table: &mut FactTable, steps: &mut Steps<L>)
    requires inside { at < length code.now }
    requires before { IsTableOf code.now (maker_added code.now at) table.old }
    ensures after { IsTableOf code.now (maker_written code.now at) table.new }
    ensures steps { steps.new ≤ steps.old + 1 }
{
    if let Some(reg) = mul_register(code[at as usize]) {
        table.put(reg, Fact::Nothing, at, steps);
    }
}

// A switch stands two before `at`, so it acts after the instruction at `at`.
#[tactic(auto, unfolding(shader_flow::specs::Bounded::is_back))]
fn switch_acts(code: &[u64], at: usize) -> bool
    requires { at < length code.now }
    ensures { result ≡ is_back at 2 (λ k. is_switch (word code.now k)) }
{
    2 <= at && is_switch(code[at - 2])
}

// Forgets what doesn't last past the instruction at `at`.
fn forget<L: Ledger>(
    code: &[u64],
    flow: &Flow,
    at: usize,
    table: &mut FactTable,
    steps: &mut Steps<L>,
)
    requires inside { at < length code.now }
    requires made { IsFlow code.now flow.now }
    requires before { IsTableOf code.now (maker_written code.now at) table.old }
    ensures after { IsTableOf code.now (maker_of code.now (at + 1)) table.new }
    ensures steps { steps.new ≤ steps.old + 1 }
{
    if is_marked(code, flow, at + 1) {
        table.forget_all(steps);
    } else if switch_acts(code, at) {
        table.forget_accumulators(steps);
    }
}

/// Keeps the table past the instruction at `at`, before which `count` uniforms are taken. At most four steps.
pub fn learn<L: Ledger>(
    code: &[u64],
    flow: &Flow,
    at: u32,
    count: u32,
    table: &mut FactTable,
    steps: &mut Steps<L>,
)
    requires checked { at < checked_of code.now }
    requires inside { at < length code.now }
    requires made { IsFlow code.now flow.now }
    requires taken { count ≡ count_of code.now at }
    requires before { IsTableOf code.now (maker_of code.now at) table.old }
    ensures after { IsTableOf code.now (maker_of code.now (at + 1)) table.new }
    ensures steps { steps.new ≤ steps.old + 4 }
{
    learn_add(code, at, count, table, steps);
    learn_mul(code, at, table, steps);
    forget(code, flow, at as usize, table, steps);
}
