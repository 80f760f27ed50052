//! The rules on signals, branches and switches at one instruction.
ghost use Rattle.std.specs.Prelude.{◌≡◌, ◌<◌, length};
ghost use Rattle.field_words.specs.Questions.{first_of};
ghost use Rattle.shader_flow.specs.Bounded.{is_back};
ghost use Rattle.qpu_isa.specs.Terms.{is_branch, is_switch};
ghost use Rattle.shader_flow.specs.Flow.{word, in_slots, after_switch, leads_outside, is_sound_branch, IsFlow};
ghost use Rattle.shader_flow.specs.Rules.{s3, s4, s5, s6, s7, s8, s9, s10, s11, s12, s13, s27, branch_questions, switch_questions, flow_questions};

use crate::rule::ShaderRule;
use crate::site::Site;
use crate::state::Flow;
use qpu_isa::word::{
    imm, is_branch, is_load_imm, is_switch, mode, register, relative, sig, target, waddr_add,
    waddr_mul,
};

// A branch stands `distance` before.
#[tactic(auto, unfolding(crate::specs::Bounded::is_back))]
fn is_branch_back(site: &Site, distance: usize) -> bool
    ensures { result ≡ is_back site.now.at distance (λ k. is_branch (word site.now.code k)) }
{
    distance <= site.at && is_branch(site.code[site.at - distance])
}

// A switch stands `distance` before.
#[tactic(auto, unfolding(crate::specs::Bounded::is_back))]
fn is_switch_back(site: &Site, distance: usize) -> bool
    ensures { result ≡ is_back site.now.at distance (λ k. is_switch (word site.now.code k)) }
{
    distance <= site.at && is_switch(site.code[site.at - distance])
}

/// Whether the instruction stands in the three slots of a branch.
#[tactic(auto, unfolding(crate::specs::Flow::in_slots))]
pub fn is_in_slots(site: &Site) -> bool
    ensures { result ≡ in_slots site.now.code site.now.at }
{
    is_branch_back(site, 1) || is_branch_back(site, 2) || is_branch_back(site, 3)
}

// A switch stands one or two before.
#[tactic(auto, unfolding(crate::specs::Flow::after_switch))]
fn is_after_switch(site: &Site) -> bool
    ensures { result ≡ after_switch site.now.code site.now.at }
{
    is_switch_back(site, 1) || is_switch_back(site, 2)
}

// A branch leads to before the first instruction, or past the program end.
#[tactic(auto, unfolding(crate::specs::Flow::leads_outside))]
fn is_outside(site: &Site) -> bool
    ensures { result ≡ leads_outside site.now.code site.now.at }
{
    site.end < target(site.word(), site.at as u32)
}

/// Whether the instruction is a branch whose target is known and lies in the program.
#[tactic(auto, unfolding(crate::specs::Flow::is_sound_branch))]
pub(crate) fn is_sound(site: &Site) -> bool
    ensures { result ≡ is_sound_branch site.now.code site.now.at }
{
    let word = site.word();
    is_branch(word)
        && relative(word)
        && !register(word)
        && imm(word).is_multiple_of(8)
        && !is_outside(site)
}

// Signals that no shader may use.
#[tactic(auto, unfolding(crate::specs::Rules::s3))]
fn breaks_s3(site: &Site) -> bool
    ensures { result ≡ s3 site.now.code site.now.at }
{
    let signal = sig(site.word());
    signal == 0 || signal == 7 || signal == 9 || signal == 12
}

// A branch in the slots of a branch.
#[tactic(auto, unfolding(crate::specs::Rules::s4))]
fn breaks_s4(site: &Site) -> bool
    ensures { result ≡ s4 site.now.code site.now.at }
{
    is_branch(site.word()) && is_in_slots(site)
}

// A branch by a register.
#[tactic(auto, unfolding(crate::specs::Rules::s5))]
fn breaks_s5(site: &Site) -> bool
    ensures { result ≡ s5 site.now.code site.now.at }
{
    is_branch(site.word()) && register(site.word())
}

// A branch to an absolute place.
#[tactic(auto, unfolding(crate::specs::Rules::s6))]
fn breaks_s6(site: &Site) -> bool
    ensures { result ≡ s6 site.now.code site.now.at }
{
    is_branch(site.word()) && !relative(site.word())
}

// A branch into the middle of an instruction.
#[tactic(auto, unfolding(crate::specs::Rules::s7))]
fn breaks_s7(site: &Site) -> bool
    ensures { result ≡ s7 site.now.code site.now.at }
{
    is_branch(site.word()) && imm(site.word()) % 8 != 0
}

// A branch out of the program.
#[tactic(auto, unfolding(crate::specs::Rules::s8))]
fn breaks_s8(site: &Site) -> bool
    ensures { result ≡ s8 site.now.code site.now.at }
{
    is_branch(site.word()) && imm(site.word()) % 8 == 0 && is_outside(site)
}

// A branch whose slots go past the program end.
#[tactic(auto, unfolding(crate::specs::Rules::s9))]
fn breaks_s9(site: &Site) -> bool
    ensures { result ≡ s9 site.now.code site.now.at }
{
    is_branch(site.word()) && (site.end as usize) < site.at + 4
}

// A branch that also writes.
#[tactic(auto, unfolding(crate::specs::Rules::s10))]
fn breaks_s10(site: &Site) -> bool
    ensures { result ≡ s10 site.now.code site.now.at }
{
    is_branch(site.word()) && !(waddr_add(site.word()) == 39 && waddr_mul(site.word()) == 39)
}

// A switch while a switch is on its way.
#[tactic(auto, unfolding(crate::specs::Rules::s11))]
fn breaks_s11(site: &Site) -> bool
    ensures { result ≡ s11 site.now.code site.now.at }
{
    is_switch(site.word()) && is_after_switch(site)
}

// A branch while a switch is on its way.
#[tactic(auto, unfolding(crate::specs::Rules::s12))]
fn breaks_s12(site: &Site) -> bool
    ensures { result ≡ s12 site.now.code site.now.at }
{
    is_branch(site.word()) && is_after_switch(site)
}

// A switch in a branch's slots, or one that acts after the program end.
#[tactic(auto, unfolding(crate::specs::Rules::s13))]
fn breaks_s13(site: &Site) -> bool
    ensures { result ≡ s13 site.now.code site.now.at }
{
    is_switch(site.word()) && (is_in_slots(site) || (site.end as usize) < site.at + 3)
}

// A load immediate in a mode that does not exist.
#[tactic(auto, unfolding(crate::specs::Rules::s27))]
fn breaks_s27(site: &Site) -> bool
    ensures { result ≡ s27 site.now.code site.now.at }
{
    let mode = mode(site.word());
    is_load_imm(site.word()) && !(mode == 0 || mode == 1 || mode == 3)
}

// The first of the rules on branches that is broken.
#[tactic(auto, unfolding(crate::specs::Rules::branch_questions))]
fn branch_fault(site: &Site) -> Option<u8>
    ensures { result ≡ first_of (branch_questions site.now.code site.now.at) }
{
    if breaks_s4(site) {
        return Some(ShaderRule::BranchInSlots.number());
    }
    if breaks_s5(site) {
        return Some(ShaderRule::BranchByRegister.number());
    }
    if breaks_s6(site) {
        return Some(ShaderRule::BranchAbsolute.number());
    }
    if breaks_s7(site) {
        return Some(ShaderRule::BranchUnaligned.number());
    }
    if breaks_s8(site) {
        return Some(ShaderRule::BranchOutside.number());
    }
    if breaks_s9(site) {
        return Some(ShaderRule::SlotsPastEnd.number());
    }
    if breaks_s10(site) {
        return Some(ShaderRule::BranchWrites.number());
    }
    if breaks_s12(site) {
        return Some(ShaderRule::BranchAfterSwitch.number());
    }
    None
}

// The first of the rules on switches that is broken.
#[tactic(auto, unfolding(crate::specs::Rules::switch_questions))]
fn switch_fault(site: &Site) -> Option<u8>
    ensures { result ≡ first_of (switch_questions site.now.code site.now.at) }
{
    if breaks_s11(site) {
        return Some(ShaderRule::SwitchAfterSwitch.number());
    }
    if breaks_s13(site) {
        return Some(ShaderRule::SwitchMisplaced.number());
    }
    None
}

// The first of all these rules that is broken. A branch is no switch and no load, so few rules are asked.
fn site_fault(site: &Site) -> Option<u8>
    ensures { result ≡ first_of (flow_questions site.now.code site.now.at) }
{
    if breaks_s3(site) {
        return Some(ShaderRule::Signal.number());
    }
    if is_branch(site.word()) {
        return branch_fault(site);
    }
    if is_switch(site.word()) {
        return switch_fault(site);
    }
    if breaks_s27(site) {
        return Some(ShaderRule::LoadMode.number());
    }
    None
}

/// The number of the first of the rules S3 to S13 and S27 that is broken at the instruction `at`; `None` where none of them
/// is. They keep a shader inside its own words: each branch goes where the checker can follow it, and no branch or
/// switch comes while another is on its way.
pub fn flow_fault(code: &[u64], flow: &Flow, at: u32) -> Option<u8>
    requires inside { at < length code.now }
    requires made { IsFlow code.now flow.now }
    ensures { result ≡ first_of (flow_questions code.now at) }
{
    site_fault(&Site {
        code,
        end: flow.end,
        at: at as usize,
    })
}
