//! Branches.
ghost use Rattle.std.specs.Prelude.{◌≡◌, ◌++◌, decimal, OnOk};
ghost use Rattle.qpu_text.specs.Branch.{distance_text, register_text, link_text, branch_text};

use crate::alu::place;
use crate::pieces::{named, put_all};
use crate::tables::{BRANCHES, READ_A};
use itoa::Buffer;
use qpu_isa::word::{cond, imm, raddr, register, relative, waddr_add, waddr_mul, ws};
use std::alloc::AllocError;

fn put_number(out: &mut Vec<u8>, number: u64) -> Result<(), AllocError>
    ensures { OnOk result (out.new.items ≡ out.old.items ++ decimal number) }
{
    let mut buffer = Buffer::new();
    out.extend_from_slice(buffer.format(number).as_bytes())
}

#[tactic(auto, unfolding(crate::specs::Branch::distance_text))]
fn put_distance(out: &mut Vec<u8>, relative: bool, immediate: u32) -> Result<(), AllocError>
    ensures { OnOk result (out.new.items ≡ out.old.items ++ distance_text relative immediate) }
{
    let distance = u64::from(immediate);
    if !relative {
        out.extend_from_slice(b"to ")?;
        put_number(out, distance)
    } else if distance < 1 << 31 {
        out.extend_from_slice(b"+")?;
        put_number(out, distance)
    } else {
        out.extend_from_slice(b"-")?;
        put_number(out, (1 << 32) - distance)
    }
}

#[tactic(auto, unfolding(crate::specs::Branch::register_text))]
fn put_register(out: &mut Vec<u8>, word: u64) -> Result<(), AllocError>
    ensures { OnOk result (out.new.items ≡ out.old.items ++ register_text word) }
{
    if register(word) {
        put_all(out, &[" + ", named(&READ_A, raddr(word))])?;
    }
    Ok(())
}

#[tactic(auto, unfolding(crate::specs::Branch::link_text))]
fn put_link(out: &mut Vec<u8>, on_a: bool, address: u8) -> Result<(), AllocError>
    ensures { OnOk result (out.new.items ≡ out.old.items ++ link_text on_a address) }
{
    if address != 39 {
        put_all(out, &[", link ", place(on_a, address)])?;
    }
    Ok(())
}

/// Appends what a branch does.
#[tactic(auto, unfolding(crate::specs::Branch::branch_text))]
pub(crate) fn put_branch(out: &mut Vec<u8>, word: u64) -> Result<(), AllocError>
    ensures { OnOk result (out.new.items ≡ out.old.items ++ branch_text word) }
{
    put_all(out, &["branch ", named(&BRANCHES, cond(word)), ", "])?;
    put_distance(out, relative(word), imm(word))?;
    put_register(out, word)?;
    put_link(out, !ws(word), waddr_add(word))?;
    put_link(out, ws(word), waddr_mul(word))
}
