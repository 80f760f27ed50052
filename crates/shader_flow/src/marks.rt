//! The program end and the targets.
ghost use Rattle.std.specs.Prelude.{◌≡◌, ◌<◌, ◌≤◌, ◌+◌, ◌==◌, ◌||◌, ℕ, false, length, slice_index_or, IfOk};
ghost use Rattle.field_words.specs.Sizes.{most_words};
ghost use Rattle.qpu_isa.specs.Terms.{target_of};
ghost use Rattle.shader_flow.specs.Flow.{end_of, checked_of, is_threaded, is_target, makes_target, AddsMarks, EndsAt, IsFlow};

use crate::rules::is_sound;
use crate::site::Site;
use crate::state::Flow;
use field_words::NoMemory;
use qpu_isa::word::{is_end, is_switch, target};
use std::alloc::Global;

// The index of the first program end, or the number of words where there is none.
fn program_end(code: &[u64]) -> u32
    requires { length code.now ≤ most_words }
    ensures { result ≡ end_of code.now }
{
    let mut end = 0;
    for word in code {
        if is_end(*word) {
            return end;
        }
        end += 1;
    }
    end
}

/// The number of instructions that are checked: those up to the program end `end`, and the two after it.
#[tactic(auto, unfolding(crate::specs::Flow::checked_of))]
pub fn checked(code: &[u64], end: u32) -> usize
    requires last { end ≡ end_of code.now }
    ensures value { result ≡ checked_of code.now }
    ensures inside { result ≤ length code.now }
{
    code.len().min(end as usize + 3)
}

// Whether a checked instruction is a switch.
#[tactic(auto, unfolding(crate::specs::Flow::is_threaded))]
fn switches(code: &[u64], end: u32) -> bool
    requires last { end ≡ end_of code.now }
    ensures { result ≡ is_threaded code.now }
{
    for at in 0..checked(code, end) {
        if is_switch(code[at]) {
            return true;
        }
    }
    false
}

// Marks the index `at`, where there is one.
fn mark(targets: &mut [bool], at: usize)
    ensures size { length targets.new ≡ length targets.old }
    ensures marks { AddsMarks targets.old targets.new (λ i. i == at) }
{
    if at < targets.len() {
        targets[at] = true;
    }
}

// Marks where the branch `word` at index `at` leads, and where its slots end.
fn mark_branch(targets: &mut [bool], word: u64, at: u32)
    requires { at < most_words }
    ensures size { length targets.new ≡ length targets.old }
    ensures marks { AddsMarks targets.old targets.new (λ i. i == at + 4 || i == target_of word at) }
{
    mark(targets, at as usize + 4);
    mark(targets, target(word, at) as usize);
}

// Marks what the instruction makes a target, where it is a branch that can be followed.
#[tactic(auto, unfolding(crate::specs::Flow::makes_target))]
fn mark_from(targets: &mut [bool], site: &Site)
    ensures size { length targets.new ≡ length targets.old }
    ensures marks { AddsMarks targets.old targets.new (makes_target site.now.code site.now.at) }
{
    if is_sound(site) {
        mark_branch(targets, site.word(), site.at as u32);
    }
}

// Marks all targets.
#[tactic(auto, unfolding(crate::specs::Flow::is_target))]
fn mark_all(targets: &mut [bool], code: &[u64], end: u32)
    requires clear { (i : ℕ) → slice_index_or targets.old i false ≡ false }
    requires ends { EndsAt code.now end }
    ensures size { length targets.new ≡ length targets.old }
    ensures marks { (i : ℕ) → i < length targets.old
        → slice_index_or targets.new i false ≡ is_target code.now i }
{
    for at in 0..end as usize {
        mark_from(targets, &Site { code, end, at });
    }
}

/// Walks a shader of at most 8,192 words for its program end, its targets and whether it switches threads. Only want of
/// memory fails.
pub fn flow(alloc: Global, code: &[u64]) -> Result<Flow, NoMemory>
    requires { length code.now ≤ most_words }
    ensures { IfOk result (IsFlow code.now) }
{
    let end = program_end(code);
    let mut targets = vec![in alloc; false; code.len() + 1]?;
    mark_all(&mut targets, code, end);
    let threaded = switches(code, end);
    Ok(Flow {
        end,
        targets,
        threaded,
    })
}

/// Whether a branch leads to `at`, or its slots end there.
pub fn is_marked(code: &[u64], flow: &Flow, at: usize) -> bool
    requires inside { at ≤ length code.now }
    requires made { IsFlow code.now flow.now }
    ensures { result ≡ is_target code.now at }
{
    flow.targets[at]
}
