//! What an instruction writes.
ghost use Rattle.std.specs.Prelude.{◌≡◌, ◌<◌, ◌≤◌, ◌+◌, ◌++◌, ◌∷◌, [], ◌^◌, true, slice_index};
ghost use Rattle.arrayvec.specs.ArrayVec.{array_vec_len};
ghost use Rattle.qpu_isa.specs.Setups.{setups_kept};
ghost use Rattle.qpu_isa.specs.Terms.{writes_tmu, loads};
ghost use Rattle.qpu_machine.specs.Writes.{awake, file_after, acc_after, written_at, after_add, after_multiply, loaded_row, r4_after, results_after, after_load, went_on, after_work, fate_of, ask_of, ask_made};

use crate::lanes::{chosen_row, chosen_rows, has_lane, mask_of, merged};
use crate::state::{Ask, Asked, Fate, Mark, Row, Thread};
use arrayvec::ArrayVec;
use machine_plan::Choices;
use qpu_isa::word::{
    cond, cond_add, cond_mul, imm, is_branch, is_end, is_switch, sig, waddr_add, waddr_mul, ws,
};
use qpu_isa::writes::{add_names, loads, writes_s, writes_tmu};

/// What the two units compute: the add unit's sum and the multiply unit's product.
#[derive(Drop)]
pub(crate) struct Values {
    pub sum: Row,
    pub product: Row,
}

/// A fresh thread takes r0 to r5 from the choice words.
#[tactic(auto, unfolding(crate::specs::Writes::awake))]
pub(crate) fn wake<C: Choices>(words: &C, thread: &mut Thread)
    ensures { thread.new ≡ awake (C.listed words.now) thread.old }
{
    if thread.fresh {
        thread.acc = chosen_rows(words);
    }
    thread.fresh = false;
}

// A unit's write to a file, if it is on the file's side.
#[tactic(auto, unfolding(crate::specs::Writes::file_after))]
fn write_file(on_side: bool, address: u8, mask: u32, value: &Row, file: &mut [Row; 32])
    ensures { file.new ≡ file_after on_side address mask value.now file.old }
{
    if on_side && address < 32 {
        let row = merged(mask, &file[address as usize], value);
        file[address as usize] = row;
    }
}

// A unit's write to r0 to r5.
#[tactic(auto, unfolding(crate::specs::Writes::acc_after))]
fn write_acc<C: Choices>(address: u8, mask: u32, value: &Row, words: &C, acc: &mut [Row; 6])
    ensures { acc.new ≡ acc_after address mask value.now (C.listed words.now) acc.old }
{
    if 32 <= address && address < 36 {
        let row = merged(mask, &acc[address as usize - 32], value);
        acc[address as usize - 32] = row;
    } else if address == 37 {
        let row = merged(mask, &acc[5], &chosen_row(words, 178));
        acc[5] = row;
    } else if 52 <= address && address < 56 {
        let row = merged(mask, &acc[4], &chosen_row(words, 65));
        acc[4] = row;
    }
}

// A register that a unit writes: its side, A or B, and its address.
#[derive(Clone, Copy, Debug, PartialEq, Eq)]
struct Register {
    on_a: bool,
    address: u8,
}

// A unit's write on the A side or the B side.
#[tactic(auto, unfolding(crate::specs::Writes::written_at, crate::specs::Writes::pointer_after))]
fn write_at<C: Choices>(to: Register, mask: u32, value: &Row, words: &C, thread: &mut Thread)
    ensures { thread.new ≡ written_at to.on_a to.address mask value.now (C.listed words.now)
        thread.old }
{
    write_file(to.on_a, to.address, mask, value, &mut thread.a);
    write_file(!to.on_a, to.address, mask, value, &mut thread.b);
    write_acc(to.address, mask, value, words, &mut thread.acc);
    if to.address == 40 && has_lane(mask, 0) {
        thread.uniforms = value[0];
    }
}

// The add unit writes; a branch writes to 39, which is nothing.
#[tactic(auto, unfolding(crate::specs::Writes::after_add, crate::specs::Writes::add_address))]
fn add<C: Choices>(word: u64, value: &Row, words: &C, thread: &mut Thread)
    ensures { thread.new ≡ after_add word value.now (C.listed words.now) thread.old }
{
    let mask = mask_of(cond_add(word), words, 0);
    let to = Register {
        on_a: !ws(word),
        address: if is_branch(word) { 39 } else { waddr_add(word) },
    };
    write_at(to, mask, value, words, thread);
}

// The multiply unit writes.
#[tactic(auto, unfolding(crate::specs::Writes::after_multiply, crate::specs::Writes::mul_address))]
fn multiply<C: Choices>(word: u64, value: &Row, words: &C, thread: &mut Thread)
    ensures { thread.new ≡ after_multiply word value.now (C.listed words.now) thread.old }
{
    let mask = mask_of(cond_mul(word), words, 16);
    let to = Register {
        on_a: ws(word),
        address: if is_branch(word) { 39 } else { waddr_mul(word) },
    };
    write_at(to, mask, value, words, thread);
}

// The setup words that a TMU keeps.
#[tactic(auto, unfolding(qpu_isa::specs::Setups::setups_kept))]
fn keep(word: u64, tmu: u8, uniform: u32, setups: &mut ArrayVec<u32, 4>)
    requires known { tmu < 2 }
    requires room { writes_tmu word tmu ≡ true → array_vec_len setups.old < 4 }
    ensures { setups.new.items ≡ setups_kept word tmu uniform setups.old.items }
{
    if writes_s(word, tmu) {
        setups.clear();
    } else if writes_tmu(word, tmu) {
        setups.push(uniform);
    }
}

// r4 after a load of the oldest of these results.
#[tactic(auto, unfolding(crate::specs::Writes::loaded_row))]
fn loaded_row<C: Choices>(results: &ArrayVec<Option<Row>, 8>, words: &C) -> Row
    ensures { result ≡ loaded_row results.now.items (C.listed words.now) }
{
    if !results.is_empty()
        && let Some(row) = results[0]
    {
        return row;
    }
    chosen_row(words, 65)
}

// What the signal loads into r4.
#[tactic(auto, unfolding(crate::specs::Writes::r4_after))]
fn load_r4<C: Choices>(
    word: u64,
    words: &C,
    results0: &ArrayVec<Option<Row>, 8>,
    results1: &ArrayVec<Option<Row>, 8>,
    acc: &mut [Row; 6],
)
    ensures { acc.new ≡ r4_after word (C.listed words.now) results0.now.items
        results1.now.items acc.old }
{
    if loads(word, 0) {
        acc[4] = loaded_row(results0, words);
    } else if loads(word, 1) {
        acc[4] = loaded_row(results1, words);
    } else if sig(word) == 8 {
        acc[4] = chosen_row(words, 65);
    }
}

// The results that are left.
#[tactic(auto, using(field_words::proofs::Lists::remove_first, field_words::proofs::Lists::drop_none), unfolding(crate::specs::Writes::results_after))]
fn take(taken: bool, results: &mut ArrayVec<Option<Row>, 8>)
    ensures { results.new.items ≡ results_after taken results.old.items }
{
    if taken && !results.is_empty() {
        results.remove(0);
    }
}

// A load signal takes the oldest result into r4.
#[tactic(auto, unfolding(crate::specs::Writes::after_load))]
fn load<C: Choices>(word: u64, words: &C, thread: &mut Thread)
    ensures { thread.new ≡ after_load word (C.listed words.now) thread.old }
{
    load_r4(
        word,
        words,
        &thread.results0,
        &thread.results1,
        &mut thread.acc,
    );
    take(loads(word, 0), &mut thread.results0);
    take(loads(word, 1), &mut thread.results1);
}

// The thread goes on to its next instruction.
#[tactic(auto, unfolding(crate::specs::Writes::went_on, crate::specs::Writes::led_to))]
fn go_on<C: Choices>(word: u64, words: &C, thread: &mut Thread)
    requires { thread.old.place < 2 ^ 62 }
    ensures near { thread.new.place ≤ thread.old.place + 2 ^ 33 }
    ensures value { thread.new ≡ went_on word (C.listed words.now) thread.old }
{
    let leads = is_branch(word) && (cond(word) == 15 || words.word(81) % 2 == 1);
    let to = if leads {
        Some(((thread.place + 32 + imm(word) as u64) % (1 << 32)) as u32)
    } else {
        None
    };
    thread.place = match thread.last3.to {
        Some(place) => place as u64,
        None => thread.place + 8,
    };
    thread.last3 = thread.last2;
    thread.last2 = thread.last1;
    thread.last1 = Mark { word, to };
}

/// What the thread keeps after the instruction, by what the two units came to.
#[tactic(auto, using(crate::proofs::Frames::written_keeps, crate::proofs::Frames::loaded_place), unfolding(crate::specs::Writes::after_work, crate::specs::Writes::after_writes, crate::specs::Writes::after_setup))]
pub(crate) fn work<C: Choices>(
    word: u64,
    uniform: u32,
    values: &Values,
    words: &C,
    thread: &mut Thread,
)
    requires place { thread.old.place < 2 ^ 62 }
    requires room0 { writes_tmu word 0 ≡ true → array_vec_len thread.old.setups0 < 4 }
    requires room1 { writes_tmu word 1 ≡ true → array_vec_len thread.old.setups1 < 4 }
    ensures near { thread.new.place ≤ thread.old.place + 2 ^ 33 }
    ensures value { thread.new ≡ after_work word uniform values.now.sum values.now.product
        (C.listed words.now) thread.old }
{
    add(word, &values.sum, words, thread);
    multiply(word, &values.product, words, thread);
    keep(word, 0, uniform, &mut thread.setups0);
    keep(word, 1, uniform, &mut thread.setups1);
    load(word, words, thread);
    go_on(word, words, thread);
}

/// What becomes of the thread after its next instruction.
#[tactic(auto, unfolding(crate::specs::Writes::fate_of))]
pub(crate) fn fate_of(thread: &Thread) -> Fate
    ensures { result ≡ fate_of thread.now }
{
    if is_end(thread.last2.word) {
        Fate::Ends
    } else if is_switch(thread.last2.word) {
        Fate::Switches
    } else {
        Fate::GoesOn
    }
}

// Setup word `i`, where the uniform is the last.
#[tactic(auto, using(crate::proofs::Results::with_last))]
fn setup_word(setups: &ArrayVec<u32, 4>, uniform: u32, i: usize) -> u32
    ensures { result ≡ slice_index (setups.now.items ++ uniform ∷ []) i }
{
    if i < setups.len() {
        return setups[i];
    }
    if i == setups.len() { uniform } else { 0 }
}

// What a send asks this TMU for.
#[tactic(auto, unfolding(crate::specs::Writes::ask_of, crate::specs::Writes::four, qpu_isa::specs::Terms::s_address))]
fn ask_of(word: u64, tmu: u8, uniform: u32, values: &Values, setups: &ArrayVec<u32, 4>) -> Ask
    requires { tmu < 2 }
    ensures { result
        ≡ ask_of word tmu uniform values.now.sum values.now.product setups.now.items }
{
    if !setups.is_empty() {
        return Ask::Texture([
            setup_word(setups, uniform, 0),
            setup_word(setups, uniform, 1),
            setup_word(setups, uniform, 2),
            setup_word(setups, uniform, 3),
        ]);
    }
    if add_names(word, 56 + 4 * tmu) {
        return Ask::Direct(values.sum);
    }
    Ask::Direct(values.product)
}

/// The request that the instruction makes.
#[tactic(auto, unfolding(crate::specs::Writes::ask_made))]
pub(crate) fn asked(word: u64, uniform: u32, values: &Values, thread: &Thread) -> Option<Asked>
    ensures { result ≡ ask_made word uniform values.now.sum values.now.product thread.now }
{
    if writes_s(word, 0) {
        let ask = ask_of(word, 0, uniform, values, &thread.setups0);
        return Some(Asked { tmu: 0, ask });
    }
    if writes_s(word, 1) {
        let ask = ask_of(word, 1, uniform, values, &thread.setups1);
        return Some(Asked { tmu: 1, ask });
    }
    None
}
