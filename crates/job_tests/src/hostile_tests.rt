//! Hostile use: runs of accepted jobs by scripts that aim at their bounds.
ghost use Rattle.std.specs.Prelude.{◌≤◌, ◌<◌};

use super::jobs::{DIRECT, TWO, usual};
use super::runs::file;
use arrayvec::ArrayVec;
use buffer_table::{Buffer, Kind};
use example_job::make_job;
use field_words::{Access, Way};
use job_format::{Job, read_job};
use job_safety::accept;
use machine::Machine;
use relocation::{Layout, Lengths};
use replay::{enabled_units, unit_at, word_count};
use std::alloc::Global;
use std::test::Fail;

/// Bytes of memory, from a place to the end behind the last.
#[derive(Clone, Copy)]
struct Span {
    from: u64,
    to: u64,
}

/// The bytes that a job may touch, and those that it may write.
#[derive(Drop)]
struct Reach {
    region: Vec<Span>,
    writable: Vec<Span>,
}

fn bytes_from(place: u32, offset: u32, size: u32) -> Span {
    let from = u64::from(place) + u64::from(offset);
    Span {
        from,
        to: from + u64::from(size),
    }
}

fn is_in(access: &Access, spans: &[Span]) -> bool {
    spans.iter().any(|span| {
        span.from <= access.place
            && access.place <= span.to
            && u64::from(access.len) <= span.to - access.place
    })
}

impl Reach {
    /// Whether the access is tame, and lies in one span that it may touch, or write where it writes.
    fn allows(&self, access: &Access) -> bool {
        match access.way {
            Way::Read => is_in(access, &self.region),
            Way::Write => is_in(access, &self.region) && is_in(access, &self.writable),
            Way::Wild => false,
        }
    }
}

/// The bytes of a tile slot.
const SLOT: u32 = 524_288;

/// The four lists of an accepted job as emitted, and its tile slot, which it may write.
fn lists_and_slot(alloc: Global, layout: &Layout, lengths: &Lengths) -> Result<Reach, Fail> {
    let slot = bytes_from(layout.slot, 0, SLOT);
    let region = [
        bytes_from(layout.place, layout.bin, lengths.bin),
        bytes_from(layout.place, layout.records, lengths.records),
        bytes_from(layout.place, layout.uniforms, lengths.uniforms),
        bytes_from(layout.place, layout.render, lengths.render),
        slot,
    ];
    Ok(Reach {
        region: region.to_vec(alloc)?,
        writable: [slot].to_vec(alloc)?,
    })
}

/// Adds the buffers that the job's handles name, of which it may write the plain ones.
fn add_named(reach: &mut Reach, buffers: &[Buffer], job: &Job) -> Result<(), Fail> {
    for handle in job.handles.iter() {
        if let Some(buffer) = buffers.get(*handle as usize) {
            let place = bytes_from(buffer.place, 0, buffer.size);
            reach.region.push(place)?;
            if buffer.kind == Kind::Plain {
                reach.writable.push(place)?;
            }
        }
    }
    Ok(())
}

/// What each job of this file may touch: its lists and its slot, and the buffers that its handles name.
fn reach_of(alloc: Global, bytes: &[u8]) -> Result<Vec<Reach>, Fail> {
    let accepted = accept(alloc, bytes)?;
    let file = read_job(alloc, bytes)?;
    let lists = accepted.layouts.iter().zip(accepted.lengths.iter());
    let mut all = Vec::new(alloc);
    for ((layout, lengths), job) in lists.zip(file.jobs.iter()) {
        let mut reach = lists_and_slot(alloc, layout, lengths)?;
        add_named(&mut reach, &file.buffers, job)?;
        all.push(reach)?;
    }
    Ok(all)
}

/// Whether the job that the access is done for may do it.
fn is_allowed(access: &Access, reach: &[Reach]) -> bool {
    match reach.get(access.job as usize) {
        Some(of_job) => of_job.allows(access),
        None => false,
    }
}

/// Which of the units that may step a script picks.
#[derive(Clone, Copy, Debug)]
enum Choice {
    Last,
    First,
    InTurn,
}

/// Which words a script answers.
#[derive(Clone, Copy, Debug)]
enum Fill {
    Greatest,
    Zero,
    Mixed,
}

fn chosen(choice: Choice, step: u64, count: u32) -> u32
    requires { 1 ≤ count }
    ensures { result < count }
{
    match choice {
        Choice::Last => count - 1,
        Choice::First => 0,
        Choice::InTurn => (step % u64::from(count)) as u32,
    }
}

fn answered(fill: Fill, step: u64, k: u32) -> u32 {
    match fill {
        Fill::Greatest => u32::MAX,
        Fill::Zero => 0,
        Fill::Mixed => ((step ^ u64::from(k)) % (1 << 32)) as u32,
    }
}

/// The most words that a step gets.
const MOST_WORDS: usize = 4096;

fn answer_all(fill: Fill, step: u64, count: u32, words: &mut [u32; MOST_WORDS])
    requires { count ≤ 4096 }
{
    for k in 0..count {
        words[k as usize] = answered(fill, step, k);
    }
}

/// The first access that leaves what its job may touch, in 2,000 steps by a script, or until no unit may step.
fn first_stray(
    machine: &mut Machine,
    choice: Choice,
    fill: Fill,
    reach: &[Reach],
) -> Option<Access> {
    let mut words = [0; MOST_WORDS];
    let mut accesses = ArrayVec::new();
    for step in 0..2000 {
        let units = enabled_units(machine);
        if units.is_empty() {
            return None;
        }
        let place = chosen(choice, step, units.len() as u32);
        let unit = unit_at(units[place as usize]);
        let count = word_count(unit);
        answer_all(fill, step, count, &mut words);
        machine.step(unit, &words[..count as usize], &mut accesses);
        if let Some(stray) = accesses.iter().find(|access| !is_allowed(access, reach)) {
            return Some(*stray);
        }
    }
    None
}

/// The first stray access in a run over the machine of an accepted file.
fn stray_of(
    alloc: Global,
    bytes: &[u8],
    script: (Choice, Fill),
    reach: &[Reach],
) -> Result<Option<Access>, Fail> {
    let mut machine = accept(alloc, bytes)?.into_machine();
    Ok(first_stray(&mut machine, script.0, script.1, reach))
}

// Scripts that always pick the last unit, the first, or one after the other, with words that are the greatest, zero, or mixed of
// step and number, over five jobs and a file of two: each access stays inside what its own job may touch.
#[test]
fn no_script_leads_outside(rt: HostRuntime) -> Result<(), Fail> {
    let alloc = rt.alloc();
    for job in [
        usual(alloc)?,
        make_job(alloc, 0)?,
        make_job(alloc, 7)?,
        make_job(alloc, 511)?,
        file(alloc, DIRECT)?,
        file(alloc, TWO)?,
    ] {
        let reach = reach_of(alloc, &job)?;
        for choice in [Choice::Last, Choice::First, Choice::InTurn] {
            for fill in [Fill::Greatest, Fill::Zero, Fill::Mixed] {
                let stray = stray_of(alloc, &job, (choice, fill), &reach)?;
                assert_eq!(rt; stray, None, "{choice:?} {fill:?}");
            }
        }
    }
    Ok(())
}
