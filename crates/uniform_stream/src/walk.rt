//! The walk that counts uniforms and setup words.
ghost use Rattle.std.specs.Prelude.{◌≡◌, ◌<◌, ◌≤◌, ◌+◌, ◌*◌, ◌++◌, ◌∷◌, [], ℕ, List, true, length, nat_lt, ◌&&◌, if◌then◌else◌, IfOk, OnOk};
ghost use Rattle.field_words.specs.Sizes.{most_words};
ghost use Rattle.qpu_isa.specs.Terms.{reads_uniform_of};
ghost use Rattle.shader_flow.specs.Flow.{word, checked_of, EndsAt, IsFlow};
ghost use Rattle.shader_flow.specs.Pending.{pending_of, count_of};
ghost use Rattle.uniform_stream.specs.Stream.{writes_address, leaves_open, is_open, IsFilled, IsStream};
ghost use Rattle.uniform_stream.specs.Quiet.{writes_registers};
ghost use Rattle.uniform_stream.specs.Walk.{IsRunning, IsAddressEnd, words_before};

use crate::position::{known_after, writes_address};
use crate::quiet::writes_registers;
use crate::state::Stream;
use field_words::NoMemory;
use qpu_isa::word::is_backward;
use qpu_isa::writes::{reads_uniform, takes, tmu_writes, writes_s};
use shader_flow::{Flow, Site, checked};
use std::alloc::Global;

/// What the walk carries from one instruction to the next: uniforms taken, setup words kept, and whether the position was
/// known at the instruction before.
#[derive(Clone, Copy)]
pub struct Running {
    pub count: u32,
    pub pending0: u16,
    pub pending1: u16,
    pub known: bool,
}

// How many setup words the TMU keeps after the instruction, where it keeps `pending` before.
fn next_pending(site: &Site, tmu: u8, pending: u16) -> u16
    requires number { tmu < 2 }
    requires kept { pending ≡ pending_of site.now.code tmu site.now.at }
    requires bound { pending ≤ 2 * site.now.at }
    ensures value { result ≡ pending_of site.now.code tmu (site.now.at + 1) }
    ensures bound { result ≤ 2 * (site.now.at + 1) }
{
    let _ = &site.at; // below 8,192
    if !site.is_checked() {
        return pending;
    }
    if writes_s(site.word(), tmu) {
        return 0;
    }
    pending + tmu_writes(site.word(), tmu)
}

// The instruction is checked and takes a uniform.
#[tactic(auto, unfolding(shader_flow::specs::Pending::takes))]
fn takes_here(site: &Site, now: &Running) -> bool
    requires { IsRunning site.now.code site.now.at now.now }
    ensures { result ≡ Rattle.shader_flow.specs.Pending.takes site.now.code site.now.at }
{
    site.is_checked() && takes(site.word(), now.pending0, now.pending1)
}

// How many uniforms are taken up to the instruction.
fn next_count(site: &Site, now: &Running) -> u32
    requires { IsRunning site.now.code site.now.at now.now }
    ensures value { result ≡ count_of site.now.code (site.now.at + 1) }
    ensures bound { result ≤ site.now.at + 1 }
{
    let _ = &site.at; // below 8,192
    if takes_here(site, now) {
        return now.count + 1;
    }
    now.count
}

// The instruction is checked and reads a uniform.
fn reads_here(site: &Site) -> bool
    ensures { result ≡ (nat_lt site.now.at (checked_of site.now.code)
        && reads_uniform_of (word site.now.code site.now.at)) }
{
    site.is_checked() && reads_uniform(site.word())
}

// How many uniforms are taken up to an instruction that writes registers alone.
fn quiet_count(site: &Site, now: &Running) -> u32
    requires quiet { writes_registers (word site.now.code site.now.at) ≡ true }
    requires before { IsRunning site.now.code site.now.at now.now }
    ensures value { result ≡ count_of site.now.code (site.now.at + 1) }
    ensures bound { result ≤ site.now.at + 1 }
{
    let _ = &site.at; // below 8,192
    if reads_here(site) {
        return now.count + 1;
    }
    now.count
}

// What is carried past an instruction that writes registers alone.
#[tactic(auto, using(crate::proofs::QuietWrites::quiet_pending))]
fn quiet_after(site: &Site, flow: &Flow, now: &Running) -> Running
    requires made { IsFlow site.now.code flow.now }
    requires quiet { writes_registers (word site.now.code site.now.at) ≡ true }
    requires before { IsRunning site.now.code site.now.at now.now }
    ensures { IsRunning site.now.code (site.now.at + 1) result }
{
    Running {
        count: quiet_count(site, now),
        pending0: now.pending0,
        pending1: now.pending1,
        known: known_after(site, flow, now.known),
    }
}

// What is carried past the instruction.
fn after(site: &Site, flow: &Flow, now: &Running) -> Running
    requires made { IsFlow site.now.code flow.now }
    requires before { IsRunning site.now.code site.now.at now.now }
    ensures { IsRunning site.now.code (site.now.at + 1) result }
{
    if writes_registers(site.word()) {
        return quiet_after(site, flow, now);
    }
    Running {
        count: next_count(site, now),
        pending0: next_pending(site, 0, now.pending0),
        pending1: next_pending(site, 1, now.pending1),
        known: known_after(site, flow, now.known),
    }
}

// Puts the count to the address words, where the instruction sets the address.
fn add_address(site: &Site, count: u32, words: &mut Vec<u32>) -> Result<(), NoMemory>
    requires taken { count ≡ count_of site.now.code site.now.at }
    requires before { words.old.items ≡ words_before site.now.code site.now.at }
    ensures { OnOk result (words.new.items ≡ words_before site.now.code (site.now.at + 1)) }
{
    if writes_address(site) {
        words.push(count)?;
    }
    Ok(())
}

// Fills in the instruction, and tells what is carried past it.
fn fill(site: &Site, flow: &Flow, now: &Running, made: &mut Stream) -> Result<Running, NoMemory>
    requires made { IsFlow site.now.code flow.now }
    requires before { IsRunning site.now.code site.now.at now.now }
    requires filled { IsFilled site.now.code site.now.at site.now.at
        (words_before site.now.code site.now.at) made.old }
    ensures next { IfOk result (IsRunning site.now.code (site.now.at + 1)) }
    ensures filled { let next = site.now.at + 1 in
        OnOk result (IsFilled site.now.code next next (words_before site.now.code next) made.new) }
{
    let next = after(site, flow, now);
    made.counts.push(now.count)?;
    made.pending0.push(now.pending0)?;
    made.pending1.push(now.pending1)?;
    made.known.push(next.known)?;
    add_address(site, now.count, &mut made.address_words)?;
    Ok(next)
}

// The index after the last checked instruction that sets the address, or 0.
fn address_end(code: &[u64], end: u32) -> usize
    requires { EndsAt code.now end }
    ensures { IsAddressEnd code.now (checked_of code.now) result }
{
    let mut last = 0;
    for at in 0..checked(code, end) {
        if writes_address(&Site { code, end, at }) {
            last = at + 1;
        }
    }
    last
}

// The instruction is a backward branch, and no write of the address stands after its slots.
fn leaves_open(site: &Site, last: usize) -> bool
    requires { IsAddressEnd site.now.code (checked_of site.now.code) last }
    ensures { result ≡ leaves_open site.now.code site.now.at }
{
    is_backward(site.word()) && last <= site.at + 4
}

/// Whether some backward branch has no write of the stream's address after its slots, so that the stream needs one word
/// more, which says where it begins.
#[tactic(auto, unfolding(crate::specs::Stream::is_open))]
pub fn is_open(code: &[u64], flow: &Flow) -> bool
    requires { IsFlow code.now flow.now }
    ensures { result ≡ is_open code.now }
{
    let last = address_end(code, flow.end);
    for at in 0..checked(code, flow.end) {
        let site = Site {
            code,
            end: flow.end,
            at,
        };
        if leaves_open(&site, last) {
            return true;
        }
    }
    false
}

// A stream that nothing is filled in, with room for this many words.
fn blank(alloc: Global, words: usize) -> Result<Stream, NoMemory>
    requires { words ≤ most_words }
    ensures { IfOk result (λ made. (code : List ℕ) → IsFilled code 0 0 (words_before code 0) made) }
{
    Ok(Stream {
        counts: Vec::with_capacity(alloc, words + 1)?,
        pending0: Vec::with_capacity(alloc, words + 1)?,
        pending1: Vec::with_capacity(alloc, words + 1)?,
        address_words: Vec::new(alloc),
        known: Vec::with_capacity(alloc, words)?,
    })
}

// Puts the count to the address words, where the stream is open.
fn add_last(words: &mut Vec<u32>, opened: bool, count: u32) -> Result<(), NoMemory>
    ensures { OnOk result (words.new.items ≡ words.old.items
        ++ (if opened then count ∷ [] else [])) }
{
    if opened {
        words.push(count)?;
    }
    Ok(())
}

// Fills in what stands past the last instruction.
fn close(code: &[u64], flow: &Flow, now: &Running, made: &mut Stream) -> Result<(), NoMemory>
    requires made { IsFlow code.now flow.now }
    requires before { IsRunning code.now (length code.now) now.now }
    requires filled { let n = length code.now in
        IsFilled code.now n n (words_before code.now n) made.old }
    ensures { OnOk result (IsStream code.now made.new) }
{
    made.counts.push(now.count)?;
    made.pending0.push(now.pending0)?;
    made.pending1.push(now.pending1)?;
    add_last(&mut made.address_words, is_open(code, flow), now.count)?;
    Ok(())
}

/// Walks a shader of at most 8,192 words for its counts of uniforms, its setup words, its address words and where the position
/// is known. Only want of memory fails.
pub fn stream(alloc: Global, code: &[u64], flow: &Flow) -> Result<Stream, NoMemory>
    requires { IsFlow code.now flow.now }
    ensures { IfOk result (IsStream code.now) }
{
    let mut made = blank(alloc, code.len())?;
    let mut now = Running {
        count: 0,
        pending0: 0,
        pending1: 0,
        known: false,
    };
    for at in 0..code.len() {
        let site = Site {
            code,
            end: flow.end,
            at,
        };
        now = fill(&site, flow, &now, &mut made)?;
    }
    close(code, flow, &now, &mut made)?;
    Ok(made)
}
