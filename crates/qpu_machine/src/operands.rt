//! What the two units compute with, and what they come to.
ghost use Rattle.std.specs.Prelude.{◌≡◌, ◌≤◌, ◌<◌};
ghost use Rattle.qpu_machine.specs.Operands.{read_a, read_b, operand, immediate_row, sums, add_row, products, mul_row};

use crate::lanes::chosen_row;
use crate::state::{Row, Thread};
use machine_plan::Choices;
use qpu_alu::{add_result, mul_result};
use qpu_isa::Reg;
use qpu_isa::operands::is_plain;
use qpu_isa::word::{
    add_a, add_b, has_small, imm, is_load_imm, mode, mul_a, mul_b, op_add, op_mul, raddr_a, raddr_b,
};
use qpu_isa::writes::{is_add_packed, is_mul_packed, names};

// The read of file A.
#[tactic(auto, unfolding(crate::specs::Operands::read_a))]
fn read_a<C: Choices>(thread: &Thread, word: u64, uniform: u32, words: &C) -> Row
    ensures { result ≡ read_a thread.now word uniform (C.listed words.now) }
{
    let address = raddr_a(word);
    if !is_plain(word, 6) {
        return chosen_row(words, 33);
    }
    if address == 32 {
        return [uniform; 16];
    }
    if address == 39 {
        return [0; 16];
    }
    if address < 32 && !names(thread.last1.word, Reg::A(address)) {
        return thread.a[address as usize];
    }
    chosen_row(words, 33)
}

// The read of file B, or a small immediate.
#[tactic(auto, unfolding(crate::specs::Operands::read_b, crate::specs::Operands::small_row))]
fn read_b<C: Choices>(thread: &Thread, word: u64, uniform: u32, words: &C) -> Row
    ensures { result ≡ read_b thread.now word uniform (C.listed words.now) }
{
    let address = raddr_b(word);
    if has_small(word) {
        if address < 16 {
            return [address as u32; 16];
        }
        if address < 32 {
            return [0xffff_ffe0 + address as u32; 16];
        }
        return chosen_row(words, 49);
    }
    if address == 32 {
        return [uniform; 16];
    }
    if address == 39 {
        return [0; 16];
    }
    if address < 32 && !names(thread.last1.word, Reg::B(address)) {
        return thread.b[address as usize];
    }
    chosen_row(words, 49)
}

// The operand of this selector.
#[tactic(auto, unfolding(crate::specs::Operands::operand))]
fn operand<C: Choices>(thread: &Thread, word: u64, selector: u8, uniform: u32, words: &C) -> Row
    requires { selector < 8 }
    ensures { result ≡ operand thread.now word selector uniform (C.listed words.now) }
{
    if selector == 6 {
        return read_a(thread, word, uniform, words);
    }
    if selector == 7 {
        return read_b(thread, word, uniform, words);
    }
    if is_plain(word, selector) {
        return thread.acc[selector as usize];
    }
    chosen_row(words, 65)
}

// The value of a load immediate.
#[tactic(auto, unfolding(crate::specs::Operands::immediate_row))]
fn immediate_row<C: Choices>(word: u64, words: &C, from: u64) -> Row
    requires { from ≤ 1000 }
    ensures { result ≡ immediate_row word (C.listed words.now) from }
{
    if mode(word) == 0 {
        return [imm(word); 16];
    }
    chosen_row(words, from)
}

// The add unit's results by element.
#[tactic(auto, using(crate::proofs::Fronts::front_more), unfolding(crate::specs::Operands::sums))]
fn sums<C: Choices>(op: u8, x: &Row, y: &Row, words: &C) -> Row
    requires { op < 32 }
    ensures { result ≡ sums op x.now y.now (C.listed words.now) }
{
    let mut row = [0; 16];
    for e in 0..16 {
        row[e] = add_result(op, x[e], y[e]).unwrap_or(words.word(1 + e as u64));
    }
    row
}

/// What the add unit comes to.
#[tactic(auto, unfolding(crate::specs::Operands::add_row))]
pub(crate) fn add_row<C: Choices>(thread: &Thread, word: u64, uniform: u32, words: &C) -> Row
    ensures { result ≡ add_row thread.now word uniform (C.listed words.now) }
{
    if is_add_packed(word) {
        return chosen_row(words, 1);
    }
    if is_load_imm(word) {
        return immediate_row(word, words, 1);
    }
    let x = operand(thread, word, add_a(word), uniform, words);
    let y = operand(thread, word, add_b(word), uniform, words);
    sums(op_add(word), &x, &y, words)
}

// The multiply unit's results by element.
#[tactic(auto, using(crate::proofs::Fronts::front_more), unfolding(crate::specs::Operands::products))]
fn products<C: Choices>(op: u8, x: &Row, y: &Row, words: &C) -> Row
    requires { op < 8 }
    ensures { result ≡ products op x.now y.now (C.listed words.now) }
{
    let mut row = [0; 16];
    for e in 0..16 {
        row[e] = mul_result(op, x[e], y[e]).unwrap_or(words.word(17 + e as u64));
    }
    row
}

/// What the multiply unit comes to.
#[tactic(auto, unfolding(crate::specs::Operands::mul_row, crate::specs::Operands::is_rotated))]
pub(crate) fn mul_row<C: Choices>(thread: &Thread, word: u64, uniform: u32, words: &C) -> Row
    ensures { result ≡ mul_row thread.now word uniform (C.listed words.now) }
{
    let is_rotated = has_small(word) && 48 <= raddr_b(word);
    if is_mul_packed(word) || is_rotated {
        return chosen_row(words, 17);
    }
    if is_load_imm(word) {
        return immediate_row(word, words, 17);
    }
    let x = operand(thread, word, mul_a(word), uniform, words);
    let y = operand(thread, word, mul_b(word), uniform, words);
    products(op_mul(word), &x, &y, words)
}
