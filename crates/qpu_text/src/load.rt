//! Load immediates.
ghost use Rattle.std.specs.Prelude.{◌≡◌, ◌++◌, OnOk};
ghost use Rattle.qpu_text.specs.Load.{target_text, add_target, multiply_target, targets_text, hex_text, load_text};

use crate::alu::place;
use crate::pieces::{if_so, named, put_all};
use crate::tables::{CONDITIONS, MODES, PACK_A, PACK_MULTIPLY};
use qpu_isa::word::{cond_add, cond_mul, imm, mode, pack, pm, sf, waddr_add, waddr_mul, ws};
use std::alloc::AllocError;

#[tactic(auto, unfolding(crate::specs::Load::target_text))]
fn put_target(
    out: &mut Vec<u8>,
    condition: u8,
    place: &'static str,
    pack: &'static str,
) -> Result<(), AllocError>
    ensures { OnOk result (out.new.items ≡ out.old.items
        ++ target_text condition place.now pack.now) }
{
    put_all(
        out,
        &["load", named(&CONDITIONS, condition), " ", place, pack],
    )
}

#[tactic(auto, unfolding(crate::specs::Load::add_target))]
fn put_add_target(out: &mut Vec<u8>, word: u64) -> Result<(), AllocError>
    ensures { OnOk result (out.new.items ≡ out.old.items ++ add_target word) }
{
    let packed = if_so(!pm(word) && !ws(word), named(&PACK_A, pack(word)));
    put_target(
        out,
        cond_add(word),
        place(!ws(word), waddr_add(word)),
        packed,
    )
}

#[tactic(auto, unfolding(crate::specs::Load::multiply_target))]
fn put_multiply_target(out: &mut Vec<u8>, word: u64) -> Result<(), AllocError>
    ensures { OnOk result (out.new.items ≡ out.old.items ++ multiply_target word) }
{
    let packed = if pm(word) {
        named(&PACK_MULTIPLY, pack(word))
    } else {
        if_so(ws(word), named(&PACK_A, pack(word)))
    };
    put_target(
        out,
        cond_mul(word),
        place(ws(word), waddr_mul(word)),
        packed,
    )
}

#[tactic(auto, unfolding(crate::specs::Load::targets_text))]
fn put_targets(out: &mut Vec<u8>, word: u64) -> Result<(), AllocError>
    ensures { OnOk result (out.new.items ≡ out.old.items ++ targets_text word) }
{
    if waddr_mul(word) == 39 {
        put_add_target(out, word)
    } else if waddr_add(word) == 39 {
        put_multiply_target(out, word)
    } else {
        put_add_target(out, word)?;
        out.extend_from_slice(b"; ")?;
        put_multiply_target(out, word)
    }
}

/// Appends a value as `0x` and eight hexadecimal digits.
///
/// # Errors
/// Want of memory is the only one.
#[tactic(auto, unfolding(crate::specs::Load::hex_text))]
pub fn put_hex(out: &mut Vec<u8>, value: u32) -> Result<(), AllocError>
    ensures { OnOk result (out.new.items ≡ out.old.items ++ hex_text value) }
{
    let mut digits = *b"........";
    hex::encode_to_slice(value.to_be_bytes(), &mut digits).unwrap();
    out.extend_from_slice(b"0x")?;
    out.extend_from_slice(&digits)
}

/// Appends what a load immediate does.
#[tactic(auto, unfolding(crate::specs::Load::load_text))]
pub(crate) fn put_load(out: &mut Vec<u8>, word: u64) -> Result<(), AllocError>
    ensures { OnOk result (out.new.items ≡ out.old.items ++ load_text word) }
{
    put_targets(out, word)?;
    out.extend_from_slice(b", ")?;
    put_hex(out, imm(word))?;
    put_all(out, &[named(&MODES, mode(word)), if_so(sf(word), ".sf")])
}
