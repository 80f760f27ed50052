//! The units in the order of a script.
ghost use Rattle.std.specs.Prelude.{◌≡◌, ◌≤◌, ◌<◌, ◌+◌, length, filter, Some};
ghost use Rattle.replay.specs.Units.{unit_count, unit_at, word_count, enabled_below, enabled_units, is_of, candidates};

use arrayvec::ArrayVec;
use field_words::Actor;
use machine::Machine;

/// How many processors a machine has.
const PROCESSORS: u8 = 12;

/// A kind of the machine's units.
#[derive(Clone, Copy, Debug, PartialEq, Eq)]
pub enum UnitKind {
    Binner,
    Renderer,
    Qpu,
    Tmu,
}

/// Unit `n`: the binner, the renderer, and then each processor with its two TMUs. It takes no memory.
#[tactic(auto, unfolding(crate::specs::Units::unit_at))]
pub fn unit_at(n: u8) -> Actor
    ensures { result ≡ unit_at n }
{
    if n == 0 {
        return Actor::Binner;
    }
    if n == 1 {
        return Actor::Renderer;
    }
    let processor = (n - 2) / 3;
    if n % 3 == 2 {
        Actor::Qpu(processor)
    } else if n % 3 == 0 {
        Actor::Tmu(processor, 0)
    } else {
        Actor::Tmu(processor, 1)
    }
}

/// How many choice words a step of this unit gets. It takes no memory.
pub fn word_count(unit: Actor) -> u32
    ensures value { result ≡ word_count unit }
    ensures most { result ≤ 4096 }
{
    match unit {
        Actor::Binner => 1,
        Actor::Renderer => 4096,
        Actor::Qpu(_) => 194,
        Actor::Tmu(_, _) => 512,
    }
}

// Puts unit `n` to those before it that may step, if it may; it is this one.
#[inline]
#[tactic(auto, using(crate::proofs::Order::units_put, crate::proofs::Order::units_past))]
fn put_enabled(units: &mut ArrayVec<u8, 38>, machine: &Machine, n: u8, unit: Actor)
    requires inside { n < unit_count }
    requires is { unit ≡ unit_at n }
    requires before { units.old.items ≡ enabled_below machine.now n }
    requires few { length units.old.items ≤ n }
    ensures value { units.new.items ≡ enabled_below machine.now (n + 1) }
    ensures few { length units.new.items ≤ n + 1 }
{
    if machine.enabled(unit) {
        units.push(n);
    }
}

/// The numbers of the units that may step, the least first. It takes no memory. Each kind is asked for itself, so that no number has to be taken apart.
#[tactic(auto, using(crate::proofs::Order::qpu_at, crate::proofs::Order::tmu0_at, crate::proofs::Order::tmu1_at, crate::proofs::Order::binner_at, crate::proofs::Order::renderer_at))]
pub fn enabled_units(machine: &Machine) -> ArrayVec<u8, 38>
    ensures { result.items ≡ enabled_units machine.now }
{
    let mut units = ArrayVec::new();
    put_enabled(&mut units, machine, 0, Actor::Binner);
    put_enabled(&mut units, machine, 1, Actor::Renderer);
    for q in 0..PROCESSORS {
        put_enabled(&mut units, machine, 3 * q + 2, Actor::Qpu(q));
        put_enabled(&mut units, machine, 3 * q + 3, Actor::Tmu(q, 0));
        put_enabled(&mut units, machine, 3 * q + 4, Actor::Tmu(q, 1));
    }
    units
}

/// Whether the unit is of this kind.
fn is_of(kind: UnitKind, unit: Actor) -> bool
    ensures { result ≡ is_of kind unit }
{
    match unit {
        Actor::Binner => kind == UnitKind::Binner,
        Actor::Renderer => kind == UnitKind::Renderer,
        Actor::Qpu(_) => kind == UnitKind::Qpu,
        Actor::Tmu(_, _) => kind == UnitKind::Tmu,
    }
}

// Those of these numbers whose units are of this kind.
#[tactic(auto, using(crate::proofs::Order::of_kind_put, crate::proofs::Order::of_kind_past))]
fn of_kind(kind: UnitKind, units: &[u8]) -> ArrayVec<u8, 38>
    requires { length units.now ≤ 38 }
    ensures { result.items ≡ filter (λ n. is_of kind (unit_at n)) units.now }
{
    let mut few = ArrayVec::new();
    for n in units {
        if is_of(kind, unit_at(*n)) {
            few.push(*n);
        }
    }
    few
}

// A copy of the list.
fn copied(units: &[u8]) -> ArrayVec<u8, 38>
    requires { length units.now ≤ 38 }
    ensures { result.items ≡ units.now }
{
    let mut copy = ArrayVec::new();
    match copy.try_extend_from_slice(units) {
        Ok(()) => copy,
        Err(_) => copy,
    }
}

/// The numbers of the units among which the next one is picked where this kind is favoured, of these that may step: where some are of
/// the kind, those alone. It takes no memory.
#[tactic(auto, unfolding(crate::specs::Units::candidates), using(crate::proofs::Order::preferred_none, crate::proofs::Order::preferred_some))]
pub(crate) fn candidates(kind: UnitKind, units: &[u8]) -> ArrayVec<u8, 38>
    requires { length units.now ≤ 38 }
    ensures value { result.items ≡ candidates (Some kind) units.now }
    ensures some { 1 ≤ length units.now → 1 ≤ length result.items }
{
    let few = of_kind(kind, units);
    if few.is_empty() { copied(units) } else { few }
}
