//! Which notes a shader gets.
ghost use Rattle.std.specs.Prelude.{◌≡◌, ◌<◌};
ghost use Rattle.shader_flow.specs.Bounded.{is_back};
ghost use Rattle.shader_flow.specs.Flow.{word, IsFlow, EndsAt};
ghost use Rattle.shader_notes.specs.Notes.{asks_function, is_number, is_below, last_switch, last_unmarked, marked_early, locked_early, tile_at_start, end_writes, register_14, depth_last, read_early, rotated_early, is_noted, first_noted, notes_of};

use crate::note::{Note, Notes};
use crate::words::{
    accesses_tile, asks_function, locks, reads_r4, rotates_new, uses_14, writes_file,
};
use qpu_isa::word::{is_switch, sig};
use qpu_isa::writes::names_address;
use shader_flow::{Flow, Site, checked};

// The last switch among the checked instructions.
#[tactic(auto, unfolding(crate::specs::Notes::last_switch, shader_flow::specs::Bounded::last_below))]
fn last_switch(code: &[u64], end: u32) -> Option<u32>
    requires { EndsAt code.now end }
    ensures { result ≡ last_switch code.now }
{
    let mut last = None;
    for at in 0..checked(code, end) {
        if is_switch(code[at]) {
            last = Some(at as u32);
        }
    }
    last
}

fn is_number(at: usize, number: Option<u32>) -> bool
    ensures { result ≡ is_number at number }
{
    match number {
        Some(number) => at == number as usize,
        None => false,
    }
}

fn is_below(at: usize, number: Option<u32>) -> bool
    ensures { result ≡ is_below at number }
{
    match number {
        Some(number) => at < number as usize,
        None => false,
    }
}

#[tactic(auto, unfolding(crate::specs::Notes::last_unmarked))]
fn is_last_unmarked(site: &Site, last: Option<u32>) -> bool
    requires { last ≡ last_switch site.now.code }
    ensures { result ≡ last_unmarked site.now.code site.now.at }
{
    sig(site.word()) == 2 && is_number(site.at, last)
}

#[tactic(auto, unfolding(crate::specs::Notes::marked_early))]
fn is_marked_early(site: &Site, last: Option<u32>) -> bool
    requires { last ≡ last_switch site.now.code }
    ensures { result ≡ marked_early site.now.code site.now.at }
{
    sig(site.word()) == 6 && is_below(site.at, last)
}

#[tactic(auto, unfolding(crate::specs::Notes::locked_early))]
fn is_locked_early(site: &Site, last: Option<u32>) -> bool
    requires { last ≡ last_switch site.now.code }
    ensures { result ≡ locked_early site.now.code site.now.at }
{
    locks(site.word()) && is_below(site.at, last)
}

#[tactic(auto, unfolding(crate::specs::Notes::tile_at_start))]
fn is_tile_at_start(site: &Site) -> bool
    ensures { result ≡ tile_at_start site.now.code site.now.at }
{
    site.at < 2 && accesses_tile(site.word())
}

#[tactic(auto, unfolding(crate::specs::Notes::end_writes))]
fn is_end_write(site: &Site) -> bool
    ensures { result ≡ end_writes site.now.code site.now.at }
{
    site.at == site.end as usize && writes_file(site.word())
}

#[tactic(auto, unfolding(crate::specs::Notes::register_14))]
fn is_register_14(site: &Site) -> bool
    ensures { result ≡ register_14 site.now.code site.now.at }
{
    site.end as usize <= site.at && uses_14(site.word())
}

#[tactic(auto, unfolding(crate::specs::Notes::depth_last))]
fn is_depth_last(site: &Site) -> bool
    ensures { result ≡ depth_last site.now.code site.now.at }
{
    site.at == site.end as usize + 2 && names_address(site.word(), 44)
}

// A special function stands `distance` before.
#[tactic(auto, unfolding(shader_flow::specs::Bounded::is_back))]
fn is_function_back(site: &Site, distance: usize) -> bool
    ensures { result ≡ is_back site.now.at distance (λ k. asks_function (word site.now.code k)) }
{
    distance <= site.at && asks_function(site.code[site.at - distance])
}

#[tactic(auto, unfolding(crate::specs::Notes::read_early))]
fn is_read_early(site: &Site) -> bool
    ensures { result ≡ read_early site.now.code site.now.at }
{
    reads_r4(site.word()) && (is_function_back(site, 1) || is_function_back(site, 2))
}

#[tactic(auto, unfolding(crate::specs::Notes::rotated_early, shader_flow::specs::Bounded::is_back))]
fn is_rotated_early(site: &Site) -> bool
    ensures { result ≡ rotated_early site.now.code site.now.at }
{
    1 <= site.at && rotates_new(site.code[site.at - 1], site.word())
}

// Whether the note is true of the instruction.
#[tactic(auto, unfolding(crate::specs::Notes::is_noted))]
fn is_noted(site: &Site, last: Option<u32>, note: Note) -> bool
    requires { last ≡ last_switch site.now.code }
    ensures { result ≡ is_noted site.now.code note site.now.at }
{
    match note {
        Note::LastUnmarked => is_last_unmarked(site, last),
        Note::MarkedEarly => is_marked_early(site, last),
        Note::LockedEarly => is_locked_early(site, last),
        Note::TileAtStart => is_tile_at_start(site),
        Note::EndWrites => is_end_write(site),
        Note::Register14 => is_register_14(site),
        Note::DepthLast => is_depth_last(site),
        Note::ReadEarly => is_read_early(site),
        Note::RotatedEarly => is_rotated_early(site),
    }
}

// The first instruction of which the note is true.
fn first_noted(code: &[u64], end: u32, last: Option<u32>, note: Note) -> Option<u32>
    requires ends { EndsAt code.now end }
    requires last { last ≡ last_switch code.now }
    ensures { result ≡ first_noted code.now note }
{
    for at in 0..checked(code, end) {
        let site = Site { code, end, at };
        if is_noted(&site, last, note) {
            return Some(at as u32);
        }
    }
    None
}

/// The notes that a shader gets: each that is true of a checked instruction, with the first of these.
#[tactic(auto, unfolding(crate::specs::Notes::notes_of))]
pub fn notes(code: &[u64], flow: &Flow) -> Notes
    requires { IsFlow code.now flow.now }
    ensures { result ≡ notes_of code.now }
{
    let end = flow.end;
    let last = last_switch(code, end);
    Notes {
        last_unmarked: first_noted(code, end, last, Note::LastUnmarked),
        marked_early: first_noted(code, end, last, Note::MarkedEarly),
        locked_early: first_noted(code, end, last, Note::LockedEarly),
        tile_at_start: first_noted(code, end, last, Note::TileAtStart),
        end_writes: first_noted(code, end, last, Note::EndWrites),
        register_14: first_noted(code, end, last, Note::Register14),
        depth_last: first_noted(code, end, last, Note::DepthLast),
        read_early: first_noted(code, end, last, Note::ReadEarly),
        rotated_early: first_noted(code, end, last, Note::RotatedEarly),
    }
}
