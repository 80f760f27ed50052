//! The calls of a script.
ghost use Rattle.std.specs.Prelude.{◌≡◌, ◌++◌, is_some, IfOk};
ghost use Rattle.script.specs.Number.{number_within};
ghost use Rattle.job_queue.specs.Calls.{last_number, are_numbers as numbers_reported, are_buffers as buffers_reported, buffers_of, call_of, is_submit as submit_reported};

use script::{cut_at, read_number};
use std::alloc::AllocError;

/// A call on a queue. A submitted job's buffers stand on its line.
#[derive(Clone, Copy)]
pub enum Call {
    Submit,
    Start,
    Bin,
    Render,
}

const LAST_NUMBER: u64 = 4_294_967_295;

fn is_number(word: &[u8]) -> bool
    ensures { result ≡ is_some (number_within last_number word.now) }
{
    read_number(word, LAST_NUMBER).is_some()
}

// Whether it is numbers parted by commas.
fn are_numbers(word: &[u8]) -> bool
    ensures { result ≡ numbers_reported word.now }
{
    let mut rest = word;
    loop {
        let cut = cut_at(rest, b',');
        if !is_number(cut.first) {
            return false;
        }
        if cut.first.len() == rest.len() {
            return true;
        }
        rest = cut.rest;
    }
}

// Whether it is buffers: `-`, or numbers.
#[tactic(auto, unfolding(crate::specs::Calls::are_buffers))]
fn are_buffers(word: &[u8]) -> bool
    ensures { result ≡ buffers_reported word.now }
{
    word == b"-".as_slice() || are_numbers(word)
}

// Whether it is `submit` and two words of buffers.
fn is_submit(line: &[u8]) -> bool
    ensures { result ≡ submit_reported line.now }
{
    let cut = cut_at(line, b' ');
    let buffers = cut_at(cut.rest, b' ');
    cut.first == b"submit".as_slice() && are_buffers(buffers.first) && are_buffers(buffers.rest)
}

/// The numbers that a word is, after those that are there.
pub fn put_numbers(numbers: &mut Vec<u32>, word: &[u8]) -> Result<(), AllocError>
    ensures { IfOk result (λ _. numbers.new.items ≡ numbers.old.items ++ buffers_of word.now) }
{
    let mut rest = word;
    while !rest.is_empty() {
        let cut = cut_at(rest, b',');
        if let Some(number) = read_number(cut.first, LAST_NUMBER) {
            numbers.push(number as u32)?;
        }
        rest = cut.rest;
    }
    Ok(())
}

/// The call that a line is, or `None` exactly where it is none.
#[tactic(auto, unfolding(crate::specs::Calls::call_of))]
pub fn read_call(line: &[u8]) -> Option<Call>
    ensures { result ≡ call_of line.now }
{
    if line == b"start".as_slice() {
        return Some(Call::Start);
    }
    if line == b"bin".as_slice() {
        return Some(Call::Bin);
    }
    if line == b"render".as_slice() {
        return Some(Call::Render);
    }
    if is_submit(line) {
        return Some(Call::Submit);
    }
    None
}
