//! Instruction words.
ghost use Rattle.std.specs.Prelude.{◌≡◌, ◌++◌, OnOk};
ghost use Rattle.qpu_text.specs.Word.{familiar_text};

use crate::alu::put_alu;
use crate::branch::put_branch;
use crate::load::put_load;
use qpu_isa::word::{is_branch, is_load_imm};
use std::alloc::AllocError;

/// Appends the familiar text of an instruction word, which has no line feed: `add tmu0_s, r1, uniform`. Each of the 2^64 words has one.
///
/// # Errors
/// Want of memory is the only one.
#[tactic(auto, unfolding(crate::specs::Word::familiar_text))]
pub fn put_familiar(out: &mut Vec<u8>, word: u64) -> Result<(), AllocError>
    ensures { OnOk result (out.new.items ≡ out.old.items ++ familiar_text word) }
{
    if is_branch(word) {
        put_branch(out, word)
    } else if is_load_imm(word) {
        put_load(out, word)
    } else {
        put_alu(out, word)
    }
}
