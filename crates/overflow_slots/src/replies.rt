//! Scripts of calls, and their answers.
ghost use Rattle.std.specs.Prelude.{◌≡◌, ◌≤◌, ◌<◌, ◌^◌, length, IfOk, IfErr, OnOk, None};
ghost use Rattle.script.specs.Replies.{Adds, IsScriptFault};
ghost use Rattle.overflow_slots.specs.Calls.{fault_line, is_formed as formed, IsInRange};
ghost use Rattle.overflow_slots.specs.Desk.{Agrees};
ghost use Rattle.overflow_slots.specs.SlotRun.{Run, after};
ghost use Rattle.overflow_slots.specs.Laws.{StaysOrdered};
ghost use Rattle.overflow_slots.specs.Text.{refused_line, number_line, block_line, line_of, line_reply, after_line, replies};

use super::call::{Call, read_call};
use super::pool::{Block, Pool};
use field_words::Stop;
use script::{Clerk, answer};
use std::alloc::{AllocError, Global};
use std::fmt::Write;

#[tactic(auto, unfolding(crate::specs::Text::refused_line))]
fn put_refused(out: &mut String, refusal: u8) -> Result<(), AllocError>
    ensures { OnOk result (Adds out.old out.new (refused_line refusal)) }
{
    write!(out, "refused O{refusal}\n")
}

// This word and a number, or the refusal.
#[tactic(auto, unfolding(crate::specs::Text::number_line))]
fn put_number(out: &mut String, word: &str, answer: Result<u32, u8>) -> Result<(), AllocError>
    ensures { OnOk result (Adds out.old out.new (number_line word.now answer)) }
{
    match answer {
        Ok(number) => write!(out, "{word} {number}\n"),
        Err(refusal) => put_refused(out, refusal),
    }
}

#[tactic(auto, unfolding(crate::specs::Text::block_line))]
fn put_block(out: &mut String, answer: Result<Block, u8>) -> Result<(), AllocError>
    ensures { OnOk result (Adds out.old out.new (block_line answer)) }
{
    match answer {
        Ok(block) => {
            let slot = block.slot;
            let at = block.at;
            write!(out, "block {slot} {at}\n")
        }
        Err(refusal) => put_refused(out, refusal),
    }
}

// Makes a call, and puts the line that answers it.
#[tactic(auto, unfolding(crate::specs::Text::line_of))]
fn put_answer(out: &mut String, pool: &mut Pool, call: Call) -> Result<(), AllocError>
    requires { IsInRange call }
    ensures line { (run : Run) → Agrees run pool.old
        → OnOk result (Adds out.old out.new (line_of run call)) }
    ensures kept { (run : Run) → Agrees run pool.old → Agrees (after run call) pool.new }
{
    match call {
        Call::Begin { job, tiles } => put_number(out, "slot", pool.begin(job, tiles)),
        Call::Take { job } => put_block(out, pool.take(job)),
        Call::Overflow { job } => put_number(out, "slot", pool.overflow(job)),
        Call::End { job } => put_number(out, "free", pool.end(job)),
    }
}

impl Clerk for Pool {
    ghost Past = { Run };

    ghost Stands = { λ _ run pool. Agrees run pool };

    ghost formed = { formed };

    ghost reply = { line_reply };

    ghost after = { after_line };

    #[tactic(auto, unfolding(crate::specs::Calls::is_formed))]
    fn is_formed(line: &[u8]) -> bool {
        read_call(line).is_some()
    }

    fn put_reply(
        &mut self,
        _alloc: Global,
        out: &mut String,
        line: &[u8],
    ) -> Result<(), AllocError> {
        match read_call(line) {
            Some(call) => put_answer(out, self, call),
            None => Ok(()),
        }
    }
}

/// Answers a script of calls on a pool of so many slots, all free at first: a line for each of its lines. The fault is the number,
/// from 1, of the first line that is no call; no call is made then. An empty script is answered by nothing.
///
/// A script's lines end at line feeds, and the last one may lack it. A line is `begin <job> <tiles>`, `take <job>`,
/// `overflow <job>` or `end <job>`, with one space before each number. Jobs are below 32, and tiles up to 65,025.
#[tactic(auto, unfolding(crate::specs::Calls::fault_line, crate::specs::Text::replies))]
pub fn script(alloc: Global, slots: u32, text: &[u8]) -> Result<Vec<u8>, Stop<u32>>
    requires some { 1 ≤ slots }
    requires few { slots ≤ 32 }
    requires length { length text.now < 2 ^ 32 }
    ensures answers { IfOk result (λ bytes. (fault_line text.now ≡ None)
        × (bytes.items ≡ replies slots text.now)) }
    ensures fault { IfErr result (IsScriptFault (fault_line text.now)) }
{
    let mut pool = Pool::new(slots);
    answer(alloc, &mut pool, text)
}

/// A law: after any list of calls no slot belongs to two jobs; each block that a running job was given lies in a slot of that job,
/// past the bytes of the slot's front; and no two blocks of running jobs have a byte in common.
pub fn stays_ordered()
    ensures { StaysOrdered }
{}
