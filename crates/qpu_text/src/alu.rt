//! ALU instructions.
ghost use Rattle.std.specs.Prelude.{◌≡◌, ◌++◌, OnOk};
ghost use Rattle.qpu_text.specs.Alu.{file_b, operand_text, place_text, is_copy, is_multiply_copy, is_unary, add_count, multiply_count, flags_by_multiply, add_half, multiply_half, source_text, half_text, adds, multiplies, halves_text, has_operand, read_text, reads_text, rotation_text, alu_text};
ghost use Rattle.qpu_text.specs.Seen.{half_seen};

use crate::pieces::{if_so, named, put_all};
use crate::tables::{
    ACCUMULATORS, ADD, CONDITIONS, MULTIPLY, PACK_A, PACK_MULTIPLY, READ_A, READ_B, SIGNALS, SMALL,
    UNPACK, WRITE_A, WRITE_B,
};
use qpu_isa::word::{
    add_a, add_b, cond_add, cond_mul, has_small, mul_a, mul_b, op_add, op_mul, pack, pm, raddr_a,
    raddr_b, sf, sig, unpack, waddr_add, waddr_mul, ws,
};
use std::alloc::AllocError;

/// Half of an instruction, one unit's: what `specs::Alu::Half` says.
#[derive(Drop)]
pub struct Half {
    pub name: &'static str,
    pub sets: bool,
    pub condition: u8,
    pub place: &'static str,
    pub pack: &'static str,
    pub first: u8,
    pub second: u8,
    pub count: u8,
}

#[tactic(auto, unfolding(crate::specs::Alu::file_b))]
fn file_b(word: u64) -> &'static str
    ensures { result.now ≡ file_b word }
{
    if has_small(word) {
        named(&SMALL, raddr_b(word))
    } else {
        named(&READ_B, raddr_b(word))
    }
}

#[tactic(auto, unfolding(crate::specs::Alu::operand_text))]
fn put_operand(out: &mut Vec<u8>, word: u64, selector: u8) -> Result<(), AllocError>
    ensures { OnOk result (out.new.items ≡ out.old.items ++ operand_text word selector) }
{
    let part = named(&UNPACK, unpack(word));
    if selector == 6 {
        put_all(
            out,
            &[named(&READ_A, raddr_a(word)), if_so(!pm(word), part)],
        )
    } else if selector == 7 {
        out.extend_from_slice(file_b(word).as_bytes())
    } else {
        let is_part = pm(word) && selector == 4;
        put_all(out, &[named(&ACCUMULATORS, selector), if_so(is_part, part)])
    }
}

#[tactic(auto, unfolding(crate::specs::Alu::place_text))]
pub(crate) fn place(on_a: bool, address: u8) -> &'static str
    ensures { result.now ≡ place_text on_a address }
{
    if on_a {
        named(&WRITE_A, address)
    } else {
        named(&WRITE_B, address)
    }
}

#[tactic(auto, unfolding(crate::specs::Alu::is_copy))]
fn is_copy(word: u64) -> bool
    ensures { result ≡ is_copy word }
{
    op_add(word) == 21 && add_a(word) == add_b(word)
}

#[tactic(auto, unfolding(crate::specs::Alu::is_multiply_copy))]
fn is_multiply_copy(word: u64) -> bool
    ensures { result ≡ is_multiply_copy word }
{
    op_mul(word) == 4 && mul_a(word) == mul_b(word)
}

#[tactic(auto, unfolding(crate::specs::Alu::is_unary))]
fn is_unary(operation: u8) -> bool
    ensures { result ≡ is_unary operation }
{
    (operation == 7 || operation == 8) || (operation == 23 || operation == 24)
}

#[tactic(auto, unfolding(crate::specs::Alu::add_count))]
fn add_count(word: u64) -> u8
    ensures { result ≡ add_count word }
{
    if op_add(word) == 0 {
        0
    } else if is_copy(word) || is_unary(op_add(word)) {
        1
    } else {
        2
    }
}

#[tactic(auto, unfolding(crate::specs::Alu::multiply_count))]
fn multiply_count(word: u64) -> u8
    ensures { result ≡ multiply_count word }
{
    if op_mul(word) == 0 {
        0
    } else if is_multiply_copy(word) {
        1
    } else {
        2
    }
}

#[tactic(auto, unfolding(crate::specs::Alu::flags_by_multiply))]
fn flags_by_multiply(word: u64) -> bool
    ensures { result ≡ flags_by_multiply word }
{
    op_add(word) == 0 && (op_mul(word) != 0 || waddr_add(word) == 39)
}

#[tactic(auto, unfolding(crate::specs::Alu::add_half))]
fn add_half(word: u64) -> Half
    ensures { half_seen result ≡ add_half word }
{
    Half {
        name: if is_copy(word) {
            "mov"
        } else {
            named(&ADD, op_add(word))
        },
        sets: sf(word) && !flags_by_multiply(word),
        condition: cond_add(word),
        place: place(!ws(word), waddr_add(word)),
        pack: if_so(!pm(word) && !ws(word), named(&PACK_A, pack(word))),
        first: add_a(word),
        second: add_b(word),
        count: add_count(word),
    }
}

#[tactic(auto, unfolding(crate::specs::Alu::multiply_half))]
fn multiply_half(word: u64) -> Half
    ensures { half_seen result ≡ multiply_half word }
{
    Half {
        name: if is_multiply_copy(word) {
            "mov"
        } else {
            named(&MULTIPLY, op_mul(word))
        },
        sets: sf(word) && flags_by_multiply(word),
        condition: cond_mul(word),
        place: place(ws(word), waddr_mul(word)),
        pack: if pm(word) {
            named(&PACK_MULTIPLY, pack(word))
        } else {
            if_so(ws(word), named(&PACK_A, pack(word)))
        },
        first: mul_a(word),
        second: mul_b(word),
        count: multiply_count(word),
    }
}

#[tactic(auto, unfolding(crate::specs::Alu::source_text))]
fn put_source(out: &mut Vec<u8>, word: u64, selector: u8, has: bool) -> Result<(), AllocError>
    ensures { OnOk result (out.new.items ≡ out.old.items ++ source_text word selector has) }
{
    if has {
        out.extend_from_slice(b", ")?;
        put_operand(out, word, selector)?;
    }
    Ok(())
}

#[tactic(auto, unfolding(crate::specs::Alu::half_text))]
fn put_half(out: &mut Vec<u8>, word: u64, half: Half) -> Result<(), AllocError>
    ensures { OnOk result (out.new.items ≡ out.old.items ++ half_text word (half_seen half)) }
{
    let flags = if_so(half.sets, ".sf");
    let condition = named(&CONDITIONS, half.condition);
    put_all(
        out,
        &[half.name, flags, condition, " ", half.place, half.pack],
    )?;
    put_source(out, word, half.first, half.count > 0)?;
    put_source(out, word, half.second, half.count > 1)
}

#[tactic(auto, unfolding(crate::specs::Alu::adds))]
fn adds(word: u64) -> bool
    ensures { result ≡ adds word }
{
    !(op_add(word) == 0 && waddr_add(word) == 39)
}

#[tactic(auto, unfolding(crate::specs::Alu::multiplies))]
fn multiplies(word: u64) -> bool
    ensures { result ≡ multiplies word }
{
    !(op_mul(word) == 0 && waddr_mul(word) == 39)
}

#[tactic(auto, unfolding(crate::specs::Alu::halves_text))]
fn put_halves(out: &mut Vec<u8>, word: u64) -> Result<(), AllocError>
    ensures { OnOk result (out.new.items ≡ out.old.items ++ halves_text word) }
{
    if adds(word) {
        put_half(out, word, add_half(word))?;
        if multiplies(word) {
            out.extend_from_slice(b"; ")?;
            put_half(out, word, multiply_half(word))?;
        }
        Ok(())
    } else if multiplies(word) {
        put_half(out, word, multiply_half(word))
    } else {
        put_all(out, &["nop", if_so(sf(word), ".sf")])
    }
}

#[tactic(auto, unfolding(crate::specs::Alu::has_operand))]
fn has_operand(word: u64, selector: u8) -> bool
    ensures { result ≡ has_operand word selector }
{
    let adds = add_count(word);
    let multiplies = multiply_count(word);
    ((adds > 0 && add_a(word) == selector) || (adds > 1 && add_b(word) == selector))
        || ((multiplies > 0 && mul_a(word) == selector)
            || (multiplies > 1 && mul_b(word) == selector))
}

#[tactic(auto, unfolding(crate::specs::Alu::read_text))]
fn put_read(out: &mut Vec<u8>, is: bool, name: &'static str) -> Result<(), AllocError>
    ensures { OnOk result (out.new.items ≡ out.old.items ++ read_text is name.now) }
{
    if is {
        put_all(out, &["; reads ", name])?;
    }
    Ok(())
}

#[tactic(auto, unfolding(crate::specs::Alu::reads_text))]
fn put_reads(out: &mut Vec<u8>, word: u64) -> Result<(), AllocError>
    ensures { OnOk result (out.new.items ≡ out.old.items ++ reads_text word) }
{
    let reads_a = raddr_a(word) != 39 && !has_operand(word, 6);
    let reads_b = !has_small(word) && (raddr_b(word) != 39 && !has_operand(word, 7));
    put_read(out, reads_a, named(&READ_A, raddr_a(word)))?;
    put_read(out, reads_b, named(&READ_B, raddr_b(word)))
}

#[tactic(auto, unfolding(crate::specs::Alu::rotation_text))]
fn put_rotation(out: &mut Vec<u8>, word: u64) -> Result<(), AllocError>
    ensures { OnOk result (out.new.items ≡ out.old.items ++ rotation_text word) }
{
    if has_small(word) && raddr_b(word) > 47 {
        put_all(out, &["; ", named(&SMALL, raddr_b(word))])?;
    }
    Ok(())
}

/// Appends what an ALU instruction does.
#[tactic(auto, unfolding(crate::specs::Alu::alu_text))]
pub(crate) fn put_alu(out: &mut Vec<u8>, word: u64) -> Result<(), AllocError>
    ensures { OnOk result (out.new.items ≡ out.old.items ++ alu_text word) }
{
    put_halves(out, word)?;
    put_rotation(out, word)?;
    put_reads(out, word)?;
    out.extend_from_slice(named(&SIGNALS, sig(word)).as_bytes())
}
