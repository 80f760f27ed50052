//! Where the hardware leaves undefined what an instruction does.
ghost use Rattle.std.specs.Prelude.{◌≡◌};
ghost use Rattle.qpu_machine.specs.Wild.{takes_one, in_slots, after_switch, is_word_wild, is_order_wild, is_use_wild, is_wild};

use crate::state::Thread;
use qpu_isa::word::{is_branch, is_load_imm, is_switch, mode, register, relative, sig};
use qpu_isa::writes::{
    has_conditional_tmu_write, has_two_tmu_writes, is_address_write, is_relative_address_write,
    names_forbidden, names_upper, reads_upper, takes, writes_tmu,
};

/// Whether the instruction takes a uniform, with the setup words that the thread keeps.
#[tactic(auto, unfolding(crate::specs::Wild::takes_one))]
pub(crate) fn takes_one(thread: &Thread, word: u64) -> bool
    ensures { result ≡ takes_one thread.now word }
{
    takes(
        word,
        thread.setups0.len() as u16,
        thread.setups1.len() as u16,
    )
}

#[tactic(auto, unfolding(crate::specs::Wild::in_slots))]
fn in_slots(thread: &Thread) -> bool
    ensures { result ≡ in_slots thread.now }
{
    is_branch(thread.last1.word) || is_branch(thread.last2.word) || is_branch(thread.last3.word)
}

#[tactic(auto, unfolding(crate::specs::Wild::after_switch))]
fn after_switch(thread: &Thread) -> bool
    ensures { result ≡ after_switch thread.now }
{
    is_switch(thread.last1.word) || is_switch(thread.last2.word)
}

// By the word alone: its signal, the mode of a load immediate, what it names, and its writes to the TMUs.
#[tactic(auto, unfolding(crate::specs::Wild::is_word_wild, crate::specs::Wild::is_signal_wild, crate::specs::Wild::is_mode_wild, crate::specs::Wild::is_name_wild, crate::specs::Wild::is_tmu_wild))]
fn is_word_wild(word: u64) -> bool
    ensures { result ≡ is_word_wild word }
{
    let signal = sig(word);
    let by_signal = signal == 0 || signal == 7 || signal == 9 || signal == 12;
    let has_mode = mode(word) == 0 || (mode(word) == 1 || mode(word) == 3);
    let by_name = names_forbidden(word) || is_relative_address_write(word);
    let by_tmu = has_two_tmu_writes(word) || has_conditional_tmu_write(word);
    (by_signal || (is_load_imm(word) && !has_mode)) || (by_name || by_tmu)
}

// By the instructions before it: a branch, or a switch.
#[tactic(auto, unfolding(crate::specs::Wild::is_order_wild, crate::specs::Wild::is_branch_wild, crate::specs::Wild::is_switch_wild))]
fn is_order_wild(thread: &Thread, word: u64) -> bool
    ensures { result ≡ is_order_wild thread.now word }
{
    let in_slots = in_slots(thread);
    let after_switch = after_switch(thread);
    (is_branch(word) && ((register(word) || !relative(word)) || (in_slots || after_switch)))
        || (is_switch(word) && ((after_switch || in_slots) || !thread.threaded))
}

// By what the thread keeps: a fifth setup word, a register of the other thread's half, a uniform too soon after its address.
#[tactic(auto, unfolding(crate::specs::Wild::is_use_wild, crate::specs::Wild::is_setup_wild, crate::specs::Wild::is_register_wild, crate::specs::Wild::is_uniform_wild))]
fn is_use_wild(thread: &Thread, word: u64) -> bool
    ensures { result ≡ is_use_wild thread.now word }
{
    let by_setup = (writes_tmu(word, 0) && 4 <= thread.setups0.len())
        || (writes_tmu(word, 1) && 4 <= thread.setups1.len());
    let by_register = thread.threaded && (reads_upper(word) || names_upper(word));
    let by_uniform = takes_one(thread, word)
        && (is_address_write(thread.last1.word) || is_address_write(thread.last2.word));
    by_setup || (by_register || by_uniform)
}

/// Whether the instruction is undefined for this thread.
#[tactic(auto, unfolding(crate::specs::Wild::is_wild))]
pub(crate) fn is_wild(thread: &Thread, word: u64) -> bool
    ensures { result ≡ is_wild thread.now word }
{
    is_word_wild(word) || (is_order_wild(thread, word) || is_use_wild(thread, word))
}
