//! The strict rules at one instruction.
ghost use Rattle.std.specs.Prelude.{◌≡◌, ◌<◌, ◌==◌};
ghost use Rattle.field_words.specs.Questions.{first_of};
ghost use Rattle.shader_flow.specs.Flow.{end_of};
ghost use Rattle.shader_flow.specs.Pending.{takes};
ghost use Rattle.strict_rules.specs.Queue.{most_slots, most_requests};
ghost use Rattle.strict_rules.specs.Rules.{e1, e2, meets_requests, loads_none, lacks_slot, lacks_room, leaves_requests, e3, loads_early, switches_late, e4, e5, e6, e7, index_questions, waits_at};
ghost use Rattle.strict_rules.specs.Walk.{IsKept};

use crate::ahead::{keeps_older, keeps_words, requests};
use crate::here::Here;
use crate::queues::has_older;
use crate::rule::StrictRule;
use crate::state::Unit;
use crate::words::{coupled, reads_address, uses_vpm};
use qpu_isa::word::is_switch;
use qpu_isa::writes::{loads, takes, writes_s, writes_tmu};
use shader_flow::is_marked;

// The instruction is the program end.
fn is_last(here: &Here) -> bool
    ensures { result ≡ (here.now.at == end_of here.now.code) }
{
    here.at == here.flow.end as usize
}

// A switch acts while a TMU keeps setup words.
#[tactic(auto, unfolding(crate::specs::Rules::e1))]
fn breaks_e1(here: &Here) -> bool
    ensures { result ≡ e1 here.now.code here.now.at }
{
    is_switch(here.word()) && keeps_words(here.code, here.last(), here.at, here.walked)
}

// A TMU keeps setup words at the end.
#[tactic(auto, unfolding(crate::specs::Rules::e2))]
fn breaks_e2(here: &Here) -> bool
    ensures { result ≡ e2 here.now.code here.now.at }
{
    is_last(here) && keeps_words(here.code, here.last(), here.at, here.walked)
}

// A request is outstanding at a target.
#[tactic(auto, unfolding(crate::specs::Rules::meets_requests))]
fn meets_requests(here: &Here) -> bool
    ensures { result ≡ meets_requests here.now.code here.now.at }
{
    is_marked(here.code, here.flow, here.at) && 0 < here.requests()
}

// A load finds no request of its TMU.
#[tactic(auto, unfolding(crate::specs::Rules::loads_none))]
fn loads_none(here: &Here, tmu: u8, unit: &Unit) -> bool
    requires number { tmu < 2 }
    requires kept { IsKept here.now.code tmu here.now.at unit.now }
    ensures { result ≡ loads_none here.now.code tmu here.now.at }
{
    loads(here.word(), tmu) && unit.queue.len() == 0
}

// How many slots the shader may use.
#[tactic(auto, unfolding(crate::specs::Queue::most_slots))]
fn most_slots(here: &Here) -> u32
    ensures { result ≡ most_slots here.now.code }
{
    if here.flow.threaded { 4 } else { 8 }
}

// How many requests it may have outstanding.
#[tactic(auto, unfolding(crate::specs::Queue::most_requests))]
fn most_requests(here: &Here) -> usize
    ensures { result ≡ most_requests here.now.code }
{
    if here.flow.threaded { 2 } else { 4 }
}

// A TMU write finds no slot.
#[tactic(auto, unfolding(crate::specs::Rules::lacks_slot))]
fn lacks_slot(here: &Here) -> bool
    ensures { result ≡ lacks_slot here.now.code here.now.at }
{
    (writes_tmu(here.word(), 0) || writes_tmu(here.word(), 1)) && most_slots(here) <= here.slots()
}

// A request finds no room for its result.
#[tactic(auto, unfolding(crate::specs::Rules::lacks_room))]
fn lacks_room(here: &Here) -> bool
    ensures { result ≡ lacks_room here.now.code here.now.at }
{
    (writes_s(here.word(), 0) || writes_s(here.word(), 1)) && most_requests(here) <= here.requests()
}

// A request is outstanding at the end.
#[tactic(auto, unfolding(crate::specs::Rules::leaves_requests))]
fn leaves_requests(here: &Here) -> bool
    ensures { result ≡ leaves_requests here.now.code here.now.at }
{
    is_last(here) && 0 < requests(here.code, here.last(), here.at, here.walked)
}

// Requests and loads don't match, or have no room.
#[tactic(auto, unfolding(crate::specs::Rules::e3))]
fn breaks_e3(here: &Here) -> bool
    ensures { result ≡ e3 here.now.code here.now.at }
{
    (meets_requests(here)
        || (loads_none(here, 0, &here.walked.unit0) || loads_none(here, 1, &here.walked.unit1)))
        || (lacks_slot(here) || (lacks_room(here) || leaves_requests(here)))
}

// A program may wait for ever at the instruction, or a later one.
#[tactic(auto, unfolding(crate::specs::Rules::waits_at))]
pub(crate) fn waits(here: &Here) -> bool
    ensures { result ≡ waits_at here.now.code here.now.at }
{
    breaks_e2(here) || breaks_e3(here)
}

// A load takes a request that no switch has acted after.
#[tactic(auto, unfolding(crate::specs::Rules::loads_early))]
fn loads_early(here: &Here, tmu: u8, unit: &Unit) -> bool
    requires number { tmu < 2 }
    requires kept { IsKept here.now.code tmu here.now.at unit.now }
    ensures { result ≡ loads_early here.now.code tmu here.now.at }
{
    loads(here.word(), tmu)
        && (0 < unit.queue.len() && !has_older(unit.queue.as_slice(), here.walked.acted))
}

// A switch acts over a request that the one before has acted after.
#[tactic(auto, unfolding(crate::specs::Rules::switches_late))]
fn switches_late(here: &Here) -> bool
    ensures { result ≡ switches_late here.now.code here.now.at }
{
    is_switch(here.word()) && keeps_older(here.code, here.last(), here.at, here.walked)
}

// A request isn't loaded in the stretch that the next switch begins.
#[tactic(auto, unfolding(crate::specs::Rules::e4))]
fn breaks_e4(here: &Here) -> bool
    ensures { result ≡ e4 here.now.code here.now.at }
{
    here.flow.threaded
        && ((loads_early(here, 0, &here.walked.unit0) || loads_early(here, 1, &here.walked.unit1))
            || switches_late(here))
}

// The instruction takes a uniform.
#[tactic(auto, unfolding(shader_flow::specs::Pending::takes))]
fn takes_uniform(here: &Here) -> bool
    ensures { result ≡ takes here.now.code here.now.at }
{
    takes(
        here.word(),
        here.walked.unit0.pending,
        here.walked.unit1.pending,
    )
}

// One of the last three instructions uses what is closed.
#[tactic(auto, unfolding(crate::specs::Rules::e5))]
fn breaks_e5(here: &Here) -> bool
    ensures { result ≡ e5 here.now.code here.now.at }
{
    here.flow.end as usize <= here.at
        && (takes_uniform(here) || (reads_address(here.word(), 35) || uses_vpm(here.word())))
}

// More than one coupled access.
#[tactic(auto, unfolding(crate::specs::Rules::e6))]
fn breaks_e6(here: &Here) -> bool
    ensures { result ≡ e6 here.now.code here.now.at }
{
    1 < coupled(here.word())
}

// The mutex is read.
#[tactic(auto, unfolding(crate::specs::Rules::e7))]
fn breaks_e7(here: &Here) -> bool
    ensures { result ≡ e7 here.now.code here.now.at }
{
    reads_address(here.word(), 51)
}

/// The first strict rule that is broken at the instruction.
#[tactic(auto, unfolding(crate::specs::Rules::index_questions))]
pub(crate) fn broken(here: &Here) -> Option<StrictRule>
    ensures { result ≡ first_of (index_questions here.now.code here.now.at) }
{
    if breaks_e1(here) {
        return Some(StrictRule::SetupAtSwitch);
    }
    if breaks_e2(here) {
        return Some(StrictRule::SetupAtEnd);
    }
    if breaks_e3(here) {
        return Some(StrictRule::Requests);
    }
    if breaks_e4(here) {
        return Some(StrictRule::Stretch);
    }
    if breaks_e5(here) {
        return Some(StrictRule::LastThree);
    }
    if breaks_e6(here) {
        return Some(StrictRule::Coupled);
    }
    if breaks_e7(here) {
        return Some(StrictRule::Mutex);
    }
    None
}
