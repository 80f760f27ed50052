//! The rules on the uniform stream and on TMU writes at one instruction.
ghost use Rattle.std.specs.Prelude.{◌≡◌, ◌<◌, length};
ghost use Rattle.field_words.specs.Questions.{first_of};
ghost use Rattle.qpu_isa.specs.Terms.{is_address_write};
ghost use Rattle.shader_flow.specs.Bounded.{is_back};
ghost use Rattle.shader_flow.specs.Flow.{word, IsFlow};
ghost use Rattle.shader_flow.specs.Pending.{takes};
ghost use Rattle.uniform_stream.specs.Stream.{IsStream};
ghost use Rattle.uniform_stream.specs.Rules.{s14, s15, s17, after_address_write, s18, s19, s20, s21, s22, s23, s25, quiet_questions, stream_questions};

use crate::quiet::writes_registers;
use crate::state::Stream;
use qpu_isa::writes::{
    has_conditional_tmu_write, has_setup, has_two_tmu_writes, is_address_write,
    is_relative_address_write, names_forbidden, reads_uniform, writes_tmu,
};
use shader_flow::{Flow, ShaderRule, Site, is_in_slots};
use std::marker::Model;

/// What the rules ask of an instruction: the setup words that the TMUs keep before it, whether it takes a uniform, whether the
/// stream's position is known there, and whether it is a target.
#[derive(Drop)]
struct Asked<'a> {
    site: Site<'a>,
    pending0: u16,
    pending1: u16,
    taker: bool,
    known: bool,
    target: bool,
}

impl<'a> Model for Asked<'a> {
    ghost use Rattle.shader_flow.specs.Site.{SiteModel};
    ghost use Rattle.uniform_stream.specs.Walk.{IsAskedOf};

    ghost Value = { SiteModel };

    ghost view = { λ a. a.site };

    ghost invariant = { λ a. IsAskedOf a.site a.pending0 a.pending1 a.taker a.known a.target };
}

impl<'a> Asked<'a> {
    // Its word.
    fn word(&self) -> u64
        ensures { result ≡ word self.now.code self.now.at }
    {
        self.site.word()
    }
}

// An address write stands `distance` before.
#[tactic(auto, unfolding(shader_flow::specs::Bounded::is_back))]
fn is_address_write_back(site: &Site, distance: usize) -> bool
    ensures { result ≡ is_back site.now.at distance (λ k. is_address_write (word site.now.code k)) }
{
    distance <= site.at && is_address_write(site.code[site.at - distance])
}

// An address write stands one or two before.
#[tactic(auto, unfolding(crate::specs::Rules::after_address_write))]
fn is_after_address_write(site: &Site) -> bool
    ensures { result ≡ after_address_write site.now.code site.now.at }
{
    is_address_write_back(site, 1) || is_address_write_back(site, 2)
}

// A register that reaches other units is written.
#[tactic(auto, unfolding(crate::specs::Rules::s14))]
fn breaks_s14(site: &Site) -> bool
    ensures { result ≡ s14 site.now.code site.now.at }
{
    names_forbidden(site.word())
}

// A relative address of the uniforms.
#[tactic(auto, unfolding(crate::specs::Rules::s15))]
fn breaks_s15(site: &Site) -> bool
    ensures { result ≡ s15 site.now.code site.now.at }
{
    is_relative_address_write(site.word())
}

// An address write in a branch's slots.
#[tactic(auto, unfolding(crate::specs::Rules::s17))]
fn breaks_s17(site: &Site) -> bool
    ensures { result ≡ s17 site.now.code site.now.at }
{
    is_address_write(site.word()) && is_in_slots(site)
}

// A uniform taken before a new address is in force.
#[tactic(auto, unfolding(crate::specs::Rules::s18))]
fn breaks_s18(asked: &Asked) -> bool
    ensures { result ≡ s18 asked.now.code asked.now.at }
{
    asked.taker && is_after_address_write(&asked.site)
}

// A uniform taken, by no address write, where the position isn't known.
#[tactic(auto, unfolding(crate::specs::Rules::s19))]
fn breaks_s19(asked: &Asked) -> bool
    ensures { result ≡ s19 asked.now.code asked.now.at }
{
    asked.taker && !is_address_write(asked.word()) && !asked.known
}

// Both units write a TMU.
#[tactic(auto, unfolding(crate::specs::Rules::s20))]
fn breaks_s20(site: &Site) -> bool
    ensures { result ≡ s20 site.now.code site.now.at }
{
    has_two_tmu_writes(site.word())
}

// A TMU write under a condition.
#[tactic(auto, unfolding(crate::specs::Rules::s21))]
fn breaks_s21(site: &Site) -> bool
    ensures { result ≡ s21 site.now.code site.now.at }
{
    has_conditional_tmu_write(site.word())
}

// A TMU write finds four setup words.
#[tactic(auto, unfolding(crate::specs::Rules::s22, crate::specs::Rules::is_full))]
fn breaks_s22(asked: &Asked) -> bool
    ensures { result ≡ s22 asked.now.code asked.now.at }
{
    let word = asked.word();
    (writes_tmu(word, 0) && 4 <= asked.pending0) || (writes_tmu(word, 1) && 4 <= asked.pending1)
}

// A setup write in an instruction that reads a uniform.
#[tactic(auto, unfolding(crate::specs::Rules::s23))]
fn breaks_s23(asked: &Asked) -> bool
    ensures { result ≡ s23 asked.now.code asked.now.at }
{
    let word = asked.word();
    has_setup(word, asked.pending0, asked.pending1) && reads_uniform(word)
}

// A target while a TMU keeps setup words.
#[tactic(auto, unfolding(crate::specs::Rules::s25))]
fn breaks_s25(asked: &Asked) -> bool
    ensures { result ≡ s25 asked.now.code asked.now.at }
{
    asked.target && (0 < asked.pending0 || 0 < asked.pending1)
}

// The first of the rules that is broken at an instruction that writes registers alone: the rules on writes aren't.
#[tactic(auto, unfolding(crate::specs::Rules::quiet_questions))]
fn quiet_fault(asked: &Asked) -> Option<u8>
    ensures { result ≡ first_of (quiet_questions asked.now.code asked.now.at) }
{
    if breaks_s18(asked) {
        return Some(ShaderRule::UniformTooEarly.number());
    }
    if breaks_s19(asked) {
        return Some(ShaderRule::PositionUnknown.number());
    }
    if breaks_s25(asked) {
        return Some(ShaderRule::TargetAmidSetup.number());
    }
    None
}

// The first of the rules that is broken.
#[tactic(auto, unfolding(crate::specs::Rules::stream_questions))]
fn loud_fault(asked: &Asked) -> Option<u8>
    ensures { result ≡ first_of (stream_questions asked.now.code asked.now.at) }
{
    if breaks_s14(&asked.site) {
        return Some(ShaderRule::ForbiddenRegister.number());
    }
    if breaks_s15(&asked.site) {
        return Some(ShaderRule::RelativeAddress.number());
    }
    if breaks_s17(&asked.site) {
        return Some(ShaderRule::AddressInSlots.number());
    }
    if breaks_s18(asked) {
        return Some(ShaderRule::UniformTooEarly.number());
    }
    if breaks_s19(asked) {
        return Some(ShaderRule::PositionUnknown.number());
    }
    if breaks_s20(&asked.site) {
        return Some(ShaderRule::TwoUnitsWrite.number());
    }
    if breaks_s21(&asked.site) {
        return Some(ShaderRule::ConditionalWrite.number());
    }
    if breaks_s22(asked) {
        return Some(ShaderRule::FullUnit.number());
    }
    if breaks_s23(asked) {
        return Some(ShaderRule::UniformTakenTwice.number());
    }
    if breaks_s25(asked) {
        return Some(ShaderRule::TargetAmidSetup.number());
    }
    None
}

// The first of the rules that is broken; at most instructions few rules are asked.
fn asked_fault(asked: &Asked) -> Option<u8>
    ensures { result ≡ first_of (stream_questions asked.now.code asked.now.at) }
{
    if writes_registers(asked.word()) {
        return quiet_fault(asked);
    }
    loud_fault(asked)
}

// The instruction at `at` takes a uniform: one more is taken after it.
#[tactic(auto, using(crate::proofs::QuietWrites::takes_by_counts))]
fn takes_here(code: &[u64], stream: &Stream, at: usize) -> bool
    requires inside { at < length code.now }
    requires counted { IsStream code.now stream.now }
    ensures { result ≡ takes code.now at }
{
    stream.counts[at] < stream.counts[at + 1]
}

/// The number of the first of the rules S14, S15, S17 to S23 and S25 that is broken at the instruction `at`; `None` where none
/// of them is. They keep the uniforms that a shader takes those that the checker counts, and the words that a texture unit
/// gets those that it was shown. At an instruction past the checked ones, which is never executed, the rules on the word
/// alone can be broken too.
pub fn stream_fault(code: &[u64], flow: &Flow, stream: &Stream, at: u32) -> Option<u8>
    requires inside { at < length code.now }
    requires made { IsFlow code.now flow.now }
    requires counted { IsStream code.now stream.now }
    ensures { result ≡ first_of (stream_questions code.now at) }
{
    let at = at as usize;
    asked_fault(&Asked {
        site: Site {
            code,
            end: flow.end,
            at,
        },
        pending0: stream.pending0[at],
        pending1: stream.pending1[at],
        taker: takes_here(code, stream, at),
        known: stream.known[at],
        target: flow.targets[at],
    })
}
