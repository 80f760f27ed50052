//! The rules on facts at one instruction, and the least of all rules there.
ghost use Rattle.std.specs.Prelude.{◌≡◌, ◌<◌, ◌≤◌, ◌+◌, ◌*◌, ◌==◌, length};
ghost use Rattle.field_words.specs.Questions.{first_of};
ghost use Rattle.qpu_isa.specs.Report.{IsRegister};
ghost use Rattle.shader_flow.specs.Flow.{word, IsFlow};
ghost use Rattle.shader_flow.specs.Pending.{count_of};
ghost use Rattle.uniform_stream.specs.Stream.{IsStream};
ghost use Rattle.clamp_facts.specs.Facts.{is_immediate, is_clamped, maker_of};
ghost use Rattle.clamp_facts.specs.Upkeep.{IsTableOf};
ghost use Rattle.shader_check.specs.Merge.{lesser};
ghost use Rattle.shader_check.specs.Rules.{has_quiet_signal, adds_address, adds_value, adds_clamped, is_exact_address_write, s16, direct_by_add, direct_by_mul, is_clamped_write, s24, fact_questions, index_questions};

use clamp_facts::{FactTable, Known};
use field_words::Steps;
use qpu_isa::Reg;
use qpu_isa::operands::{first_register, is_add_with_uniform};
use qpu_isa::word::{cond_add, has_small, sig, ws};
use qpu_isa::writes::{add_names, adds_direct, is_add_packed, is_address_write, muls_direct};
use shader_flow::{Flow, ShaderRule, flow_fault};
use std::marker::Model;
use std::sync::ledger::Ledger;
use uniform_stream::{Stream, stream_fault, writes_registers};

// A signal under which the sum is what the add unit writes.
#[tactic(auto, unfolding(crate::specs::Rules::has_quiet_signal))]
fn has_quiet_signal(word: u64) -> bool
    ensures { result ≡ has_quiet_signal word }
{
    let signal = sig(word);
    (signal == 1 || signal == 5) || (signal == 8 || (signal == 10 || signal == 11))
}

// The add unit, always and not packed, writes its sum to the uniforms' address.
#[tactic(auto, unfolding(crate::specs::Rules::adds_address))]
fn adds_address(word: u64) -> bool
    ensures { result ≡ adds_address word }
{
    (!ws(word) && add_names(word, 40)) && (cond_add(word) == 1 && !is_add_packed(word))
}

/// What the rules and the samples learn of an instruction: what is known there, and how many setup words the TMUs keep.
#[derive(Drop)]
pub(crate) struct Here<'a> {
    pub(crate) known: Known<'a>,
    pub(crate) pending0: u16,
    pub(crate) pending1: u16,
}

impl<'a> Model for Here<'a> {
    ghost use Rattle.shader_flow.specs.Site.{SiteModel};
    ghost use Rattle.shader_check.specs.Info.{ArePending};

    ghost Value = { SiteModel };

    ghost view = { λ h. h.known };

    ghost invariant = { λ h. ArePending h.known h.pending0 h.pending1 };
}

impl<'a> Here<'a> {
    /// Its word.
    pub(crate) fn word(&self) -> u64
        ensures { result ≡ word self.now.code self.now.at }
    {
        self.known.word()
    }
}

// The register holds this value.
#[tactic(auto, unfolding(clamp_facts::specs::Facts::is_immediate))]
fn holds_value<L: Ledger>(known: &Known, reg: Reg, value: u32, steps: &mut Steps<L>) -> bool
    requires register { IsRegister reg }
    ensures value { result ≡ is_immediate known.now.code known.now.at reg value }
    ensures steps { steps.new ≤ steps.old + 1 }
{
    known.look(reg, steps).is_value(value)
}

// A clamp holds for the register.
#[tactic(auto, unfolding(clamp_facts::specs::Facts::is_clamped))]
fn has_clamp<L: Ledger>(known: &Known, reg: Reg, steps: &mut Steps<L>) -> bool
    requires register { IsRegister reg }
    ensures value { result ≡ is_clamped known.now.code known.now.at reg }
    ensures steps { steps.new ≤ steps.old + 1 }
{
    known.look(reg, steps).has_bound()
}

// The first operand of the add unit is a register that holds this value.
fn adds_value<L: Ledger>(known: &Known, value: u32, steps: &mut Steps<L>) -> bool
    ensures value { result ≡ adds_value known.now.code known.now.at value }
    ensures steps { steps.new ≤ steps.old + 1 }
{
    match first_register(known.word()) {
        Some(reg) => holds_value(known, reg, value, steps),
        None => false,
    }
}

// The first operand of the add unit is a register for which a clamp holds.
fn adds_clamped<L: Ledger>(known: &Known, steps: &mut Steps<L>) -> bool
    ensures value { result ≡ adds_clamped known.now.code known.now.at }
    ensures steps { steps.new ≤ steps.old + 1 }
{
    match first_register(known.word()) {
        Some(reg) => has_clamp(known, reg, steps),
        None => false,
    }
}

// The place of the word after those that are taken up to here, from the stream's begin on.
#[tactic(auto, using(shader_flow::proofs::Counts::count_le))]
fn next_place(known: &Known) -> u32
    ensures { result ≡ 4 * (count_of known.now.code known.now.at + 1) }
{
    4 * (known.count + 1)
}

// The address write leads to a word of the stream.
#[tactic(auto, unfolding(crate::specs::Rules::is_exact_address_write))]
fn is_exact_address_write<L: Ledger>(known: &Known, steps: &mut Steps<L>) -> bool
    ensures value { result ≡ is_exact_address_write known.now.code known.now.at }
    ensures steps { steps.new ≤ steps.old + 1 }
{
    let word = known.word();
    (is_add_with_uniform(word) && has_quiet_signal(word))
        && (adds_address(word) && adds_value(known, next_place(known), steps))
}

// An address write that isn't exact.
#[tactic(auto, unfolding(crate::specs::Rules::s16))]
fn breaks_s16<L: Ledger>(known: &Known, steps: &mut Steps<L>) -> bool
    ensures value { result ≡ s16 known.now.code known.now.at }
    ensures steps { steps.new ≤ steps.old + 1 }
{
    is_address_write(known.word()) && !is_exact_address_write(known, steps)
}

// The add unit's write of S is direct.
#[tactic(auto, unfolding(crate::specs::Rules::direct_by_add))]
fn direct_by_add(here: &Here) -> bool
    ensures { result ≡ direct_by_add here.now.code here.now.at }
{
    adds_direct(here.word(), 0, here.pending0) || adds_direct(here.word(), 1, here.pending1)
}

// The multiply unit's write of S is direct.
#[tactic(auto, unfolding(crate::specs::Rules::direct_by_mul))]
fn direct_by_mul(here: &Here) -> bool
    ensures { result ≡ direct_by_mul here.now.code here.now.at }
{
    muls_direct(here.word(), 0, here.pending0) || muls_direct(here.word(), 1, here.pending1)
}

// The instruction adds a clamped register to a uniform.
#[tactic(auto, unfolding(crate::specs::Rules::is_clamped_write))]
fn is_clamped_write<L: Ledger>(known: &Known, steps: &mut Steps<L>) -> bool
    ensures value { result ≡ is_clamped_write known.now.code known.now.at }
    ensures steps { steps.new ≤ steps.old + 1 }
{
    let word = known.word();
    (is_add_with_uniform(word) && (!has_small(word) && !is_add_packed(word)))
        && adds_clamped(known, steps)
}

// A direct write that isn't clamped.
#[tactic(auto, unfolding(crate::specs::Rules::s24))]
fn breaks_s24<L: Ledger>(here: &Here, steps: &mut Steps<L>) -> bool
    ensures value { result ≡ s24 here.now.code here.now.at }
    ensures steps { steps.new ≤ steps.old + 1 }
{
    (direct_by_add(here) && !is_clamped_write(&here.known, steps)) || direct_by_mul(here)
}

// The first of the rules on facts that is broken. Where registers alone are written none is.
#[tactic(auto, unfolding(crate::specs::Rules::fact_questions))]
fn fact_fault<L: Ledger>(here: &Here, steps: &mut Steps<L>) -> Option<u8>
    ensures value { result ≡ first_of (fact_questions here.now.code here.now.at) }
    ensures steps { steps.new ≤ steps.old + 2 }
{
    if writes_registers(here.word()) {
        return None;
    }
    if breaks_s16(&here.known, steps) {
        return Some(ShaderRule::InexactAddress.number());
    }
    if breaks_s24(here, steps) {
        return Some(ShaderRule::UnclampedRead.number());
    }
    None
}

/// The instruction at `at` with what is known there.
pub(crate) fn here_at<'a>(
    code: &'a [u64],
    stream: &Stream,
    at: u32,
    table: &'a FactTable,
) -> Here<'a>
    requires inside { at < length code.now }
    requires counted { IsStream code.now stream.now }
    requires kept { IsTableOf code.now (maker_of code.now at) table.now }
    ensures { result ≡ record { code = code.now; at = at } }
{
    let i = at as usize;
    Here {
        known: Known {
            code,
            at,
            count: stream.counts[i],
            table,
        },
        pending0: stream.pending0[i],
        pending1: stream.pending1[i],
    }
}

// The lesser of two numbers, where both are there.
fn lesser(a: Option<u8>, b: Option<u8>) -> Option<u8>
    ensures { result ≡ lesser a b }
{
    match (a, b) {
        (Some(x), Some(y)) => Some(x.min(y)),
        (Some(x), None) => Some(x),
        (None, y) => y,
    }
}

/// The number of the first of all rules that is broken at the instruction `at`. At most two steps.
pub(crate) fn index_fault<L: Ledger>(
    code: &[u64],
    flow: &Flow,
    stream: &Stream,
    at: u32,
    table: &FactTable,
    steps: &mut Steps<L>,
) -> Option<u8>
    requires inside { at < length code.now }
    requires made { IsFlow code.now flow.now }
    requires counted { IsStream code.now stream.now }
    requires kept { IsTableOf code.now (maker_of code.now at) table.now }
    ensures value { result ≡ first_of (index_questions code.now at) }
    ensures steps { steps.new ≤ steps.old + 2 }
{
    let flow_number = flow_fault(code, flow, at);
    let stream_number = stream_fault(code, flow, stream, at);
    let fact_number = fact_fault(&here_at(code, stream, at, table), steps);
    lesser(fact_number, lesser(stream_number, flow_number))
}
