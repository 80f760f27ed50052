//! One instruction of a thread.
ghost use Rattle.std.specs.Prelude.{◌≡◌, ◌<◌, ◌≤◌, ◌+◌, ◌++◌, ◌∷◌, [], ◌^◌, true, false, if◌then◌else◌, IfSome, None};
ghost use Rattle.field_words.specs.Words.{u32_at};
ghost use Rattle.machine_plan.specs.Turn.{CarriesOver};
ghost use Rattle.qpu_machine.specs.State.{Read};
ghost use Rattle.machine_plan.specs.Memory.{bytes_at};
ghost use Rattle.arrayvec.specs.ArrayVec.{array_vec_len};
ghost use Rattle.machine_plan.specs.Plan.{access};
ghost use Rattle.machine_plan.specs.Glance.{glance_result};
ghost use Rattle.qpu_isa.specs.Terms.{writes_tmu};
ghost use Rattle.qpu_machine.specs.Wild.{is_wild, takes_one};
ghost use Rattle.qpu_machine.specs.Writes.{past_uniform};
ghost use Rattle.qpu_machine.specs.Step.{turn_executed, word_plan, thread_plan, is_held_by, is_held, thread_ready, turn_taken};

use crate::effects::{Values, asked, fate_of, wake, work};
use crate::operands::{add_row, mul_row};
use crate::reads::{instruction_at, read_word};
use crate::state::{Fate, Leaves, Thread};
use crate::wild::{is_wild, takes_one};
use field_words::Way;
use machine_plan::{Accesses, Choices, Reader, list_access};
use phys_mem::PhysMem;
use qpu_isa::writes::{loads, writes_s};

// Executes an instruction, with the uniform that it took.
#[tactic(auto, unfolding(crate::specs::Step::turn_executed, crate::specs::Step::executed_with, crate::specs::Writes::after_rest))]
fn execute<C: Choices>(word: u64, uniform: u32, words: &C, thread: &mut Thread) -> Leaves
    requires place { thread.old.place < 2 ^ 62 }
    requires room0 { writes_tmu word 0 ≡ true → array_vec_len thread.old.setups0 < 4 }
    requires room1 { writes_tmu word 1 ≡ true → array_vec_len thread.old.setups1 < 4 }
    ensures turn { turn_executed word uniform (C.listed words.now) thread.old
        ≡ record { thread = thread.new; leaves = result } }
    ensures near { thread.new.place ≤ thread.old.place + 2 ^ 33 }
{
    let values = Values {
        sum: add_row(thread, word, uniform, words),
        product: mul_row(thread, word, uniform, words),
    };
    let fate = fate_of(thread);
    let asked = asked(word, uniform, &values, thread);
    work(word, uniform, &values, words, thread);
    thread.fresh = fate == Fate::Switches || thread.fresh;
    Leaves { asked, fate }
}

// The uniform for this instruction, which is taken where it takes one; else 0.
#[tactic(auto, unfolding(crate::specs::Writes::past_uniform))]
fn uniform_for(thread: &mut Thread, word: u64, reader: &Reader, accesses: &mut Accesses) -> u32
    requires { array_vec_len accesses.old < 270 }
    ensures thread { thread.new ≡ (if takes_one thread.old word then past_uniform thread.old else
        thread.old) }
    ensures value { result ≡ (if takes_one thread.old word then u32_at
        (bytes_at reader.now.memory.now thread.old.uniforms 4) 0 else 0) }
    ensures items { accesses.new.items
        ≡ (if takes_one thread.old word then accesses.old.items
        ++ access reader.now.who Read thread.old.uniforms 4 ∷ [] else accesses.old.items) }
{
    if !takes_one(thread, word) {
        return 0;
    }
    let uniform = read_word(thread.uniforms, reader, accesses);
    thread.uniforms = thread.uniforms.wrapping_add(4);
    uniform
}

// Does what an instruction says. `None` comes exactly where it is undefined; then the thread is as it was.
#[tactic(auto, using(crate::proofs::Tame::room0, crate::proofs::Tame::room1, crate::proofs::Frames::awake_keeps, crate::proofs::Frames::fed_keeps))]
fn obey<C: Choices>(
    thread: &mut Thread,
    word: u64,
    words: &C,
    reader: &Reader,
    accesses: &mut Accesses,
) -> Option<Leaves>
    requires place { thread.old.place < 2 ^ 62 }
    requires room { array_vec_len accesses.old < 270 }
    ensures near { IfSome result (λ leaves. (is_wild thread.old word ≡ false)
        × (thread.new.place ≤ thread.old.place + 2 ^ 33)) }
    ensures shows { CarriesOver reader.now.who (word_plan thread.old word (C.listed words.now))
        reader.now.memory.now accesses.old accesses.new (turn_taken thread.new result) }
    ensures same { result ≡ None → thread.new ≡ thread.old }
{
    if is_wild(thread, word) {
        list_access(reader.who, Way::Wild, 0, 0, accesses);
        return None;
    }
    let uniform = uniform_for(thread, word, reader, accesses);
    wake(words, thread);
    Some(execute(word, uniform, words, thread))
}

/// One instruction of a thread, whose accesses are those of `reader`. What the hardware leaves open is answered by the words; a
/// missing word is zero. It lists its accesses behind those already listed: the read of the instruction, and of the uniform
/// where it takes one. `None` comes exactly where the instruction is undefined; then a Wild access is listed too, and the thread is
/// as it was.
pub fn step_thread<C: Choices>(
    thread: &mut Thread,
    words: &C,
    reader: &Reader,
    accesses: &mut Accesses,
) -> Option<Leaves>
    requires place { thread.old.place < 2 ^ 62 }
    requires room { array_vec_len accesses.old ≤ 260 }
    ensures near { IfSome result (λ leaves. thread.new.place ≤ 2 ^ 34) }
    ensures shows { CarriesOver reader.now.who (thread_plan thread.old (C.listed words.now))
        reader.now.memory.now accesses.old accesses.new (turn_taken thread.new result) }
    ensures same { result ≡ None → thread.new ≡ thread.old }
{
    let _size = reader.memory.len();
    let word = instruction_at(thread.place, reader.memory);
    list_access(reader.who, Way::Read, thread.place, 8, accesses);
    obey(thread, word, words, reader, accesses)
}

// Whether an instruction waits for this TMU.
#[tactic(auto, unfolding(crate::specs::Step::is_held_by))]
fn is_held_by(word: u64, tmu: u8, queued: usize, finished: usize) -> bool
    requires known { tmu < 2 }
    requires few { queued ≤ 1000 }
    requires done { finished ≤ 8 }
    ensures { result ≡ is_held_by word tmu queued finished }
{
    (loads(word, tmu) && finished == 0) || (writes_s(word, tmu) && 8 <= queued + finished)
}

// Whether an instruction waits for a TMU.
#[tactic(auto, unfolding(crate::specs::Step::is_held))]
fn is_held(thread: &Thread, word: u64, queued0: usize, queued1: usize) -> bool
    requires few0 { queued0 ≤ 1000 }
    requires few1 { queued1 ≤ 1000 }
    ensures { result ≡ is_held thread.now word queued0 queued1 }
{
    is_held_by(word, 0, queued0, thread.results0.len())
        || is_held_by(word, 1, queued1, thread.results1.len())
}

/// Whether a thread may execute its next instruction: it isn't held up by a TMU. `queued0` and `queued1` are its requests in
/// the queues of the two TMUs.
#[tactic(auto, unfolding(crate::specs::Step::thread_ready))]
pub fn is_ready(thread: &Thread, queued0: usize, queued1: usize, memory: &PhysMem) -> bool
    requires place { thread.now.place < 2 ^ 62 }
    requires few0 { queued0 ≤ 1000 }
    requires few1 { queued1 ≤ 1000 }
    ensures { result ≡ glance_result (thread_ready thread.now queued0 queued1) memory.now }
{
    let word = instruction_at(thread.place, memory);
    !is_held(thread, word, queued0, queued1)
}
