//! The run itself.
ghost use Rattle.std.specs.Prelude.{◌≡◌, ◌≤◌, false, [], length, IfOk, IfErr, IsErr};
ghost use Rattle.machine.specs.Step.{is_finished};
ghost use Rattle.replay.specs.Units.{enabled_units, candidates};
ghost use Rattle.replay.specs.Run.{IsOver, IsPicked, StepsBy, HasKept, HasTrace, HasLog};

use crate::logged::{Kept, Log, keep};
use crate::script::Script;
use crate::trace::{Ending, Trace, TraceLine, line_of};
use crate::units::{UnitKind, candidates, enabled_units, unit_at, word_count};
use arrayvec::ArrayVec;
use field_words::{Actor, NoMemory};
use machine::Machine;
use machine_plan::Accesses;
use std::alloc::Global;

// The units that may step, or why the run is over. Where one may step the machine isn't finished, so that is asked of the others
// alone.
fn look(machine: &Machine) -> Result<ArrayVec<u8, 38>, Ending>
    ensures goes { IfOk result (λ _. is_finished machine.now ≡ false) }
    ensures some { IfOk result (λ units. 1 ≤ length units.items) }
    ensures units { IfOk result (λ units. units.items ≡ enabled_units machine.now) }
    ensures over { IfErr result (IsOver machine.now) }
{
    let units = enabled_units(machine);
    if !units.is_empty() {
        return Ok(units);
    }
    if machine.finished() {
        return Err(Ending::Finished);
    }
    Err(Ending::Waiting)
}

// The unit that the script picks among these.
fn picked_among<S: Script>(script: &S, step: u64, units: &[u8]) -> Actor
    requires may { S.may script.now }
    requires some { 1 ≤ length units.now }
    requires few { length units.now ≤ 38 }
    ensures { IsPicked (S.picks script.now) step units.now result }
{
    let place = script.pick(step, units.len() as u32);
    unit_at(units[place as usize])
}

// The unit that the script picks among these that may step, or among the favoured ones of these where there are any.
#[tactic(auto, unfolding(crate::specs::Units::candidates))]
fn picked<S: Script>(script: &S, favoured: Option<UnitKind>, step: u64, units: &[u8]) -> Actor
    requires may { S.may script.now }
    requires some { 1 ≤ length units.now }
    requires few { length units.now ≤ 38 }
    ensures { IsPicked (S.picks script.now) step (candidates favoured units.now) result }
{
    match favoured {
        None => picked_among(script, step, units),
        Some(kind) => picked_among(script, step, candidates(kind, units).as_slice()),
    }
}

// One step of the unit that the script picks among those that may step, or why the machine steps no further.
fn go_on<S: Script>(
    script: &S,
    favoured: Option<UnitKind>,
    step: u64,
    accesses: &mut Accesses,
    machine: &mut Machine,
) -> Result<TraceLine, Ending>
    requires may { S.may script.now }
    ensures did { IfOk result (StepsBy (S.picks script.now) (S.gives script.now) favoured step
        machine.old machine.new accesses.new.items) }
    ensures over { IfErr result (IsOver machine.old) }
    ensures same { IsErr result → machine.new ≡ machine.old }
{
    let units = look(machine)?;
    let unit = picked(script, favoured, step, units.as_slice());
    let words = script.words(step, word_count(unit));
    let job = machine.job_of(unit);
    machine.step_by(unit, &words, accesses);
    Ok(line_of(unit, job, accesses.as_slice()))
}

// The steps that the script gives, at most so many: how many there were, and why they ended.
fn follow<S: Script>(
    script: &S,
    favoured: Option<UnitKind>,
    steps: u32,
    kept: &mut Kept,
    machine: &mut Machine,
) -> Result<(u32, Ending), NoMemory>
    requires may { S.may script.now }
    requires no_lines { kept.old.lines.items ≡ [] }
    requires no_accesses { kept.old.accesses.items ≡ [] }
    requires few { steps ≤ 1000000 }
    ensures logs { kept.new.logs ≡ kept.old.logs }
    ensures run { IfOk result (λ end. HasKept (S.picks script.now) (S.gives script.now) favoured
        machine.old steps kept.new end.0 end.1) }
{
    let mut accesses = ArrayVec::new();
    for i in 0..steps {
        match go_on(script, favoured, i as u64, &mut accesses, machine) {
            Err(ending) => return Ok((i, ending)),
            Ok(line) => keep(kept, i, line, accesses.as_slice())?,
        }
    }
    match look(machine) {
        Err(ending) => Ok((steps, ending)),
        Ok(_) => Ok((steps, Ending::Spent)),
    }
}

/// Steps the machine as the script says, at most `steps` times, and keeps a line of each step. Where a kind of unit is favoured, a unit of
/// it steps whenever one may. It takes its memory first; the machine is dropped at the end.
pub fn replay<S: Script>(
    alloc: Global,
    mut machine: Machine,
    script: &S,
    favoured: Option<UnitKind>,
    steps: u32,
) -> Result<Trace, NoMemory>
    requires may { S.may script.now }
    requires few { steps ≤ 1000000 }
    ensures { IfOk result (HasTrace (S.picks script.now) (S.gives script.now) favoured
        machine steps) }
{
    let mut kept = Kept {
        logs: false,
        lines: Vec::with_capacity(alloc, steps as usize)?,
        accesses: Vec::new(alloc),
    };
    let (_, ending) = follow(script, favoured, steps, &mut kept, &mut machine)?;
    let lines = kept.lines;
    Ok(Trace { lines, ending })
}

/// Steps the machine as [`replay`] does, and keeps all accesses of the steps. The machine is dropped at the end.
pub fn log_run<S: Script>(
    alloc: Global,
    mut machine: Machine,
    script: &S,
    favoured: Option<UnitKind>,
    steps: u32,
) -> Result<Log, NoMemory>
    requires may { S.may script.now }
    requires few { steps ≤ 1000000 }
    ensures { IfOk result (HasLog (S.picks script.now) (S.gives script.now) favoured
        machine steps) }
{
    let mut kept = Kept {
        logs: true,
        lines: Vec::new(alloc),
        accesses: Vec::new(alloc),
    };
    let (steps, ending) = follow(script, favoured, steps, &mut kept, &mut machine)?;
    let accesses = kept.accesses;
    Ok(Log {
        accesses,
        steps,
        ending,
    })
}
