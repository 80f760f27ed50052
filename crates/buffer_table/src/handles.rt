//! The handles of a job: which buffers it may name.
ghost use Rattle.std.specs.Prelude.{◌≡◌, ◌<◌, ◌≤◌, length, slice_index, IfOk, IfSome};
ghost use Rattle.std.specs.Option.{SomeIff};
ghost use Rattle.field_words.specs.Questions.{Answers, NamesFirst, NeverHidesFault, first_of};
ghost use Rattle.buffer_table.specs.Handles.{handle_questions, handles_questions, AreNumbersOf, IsData, IsCode, data_of, code_of};

use crate::buffer::Kind;
use crate::table::Table;
use field_words::Stop;
use std::alloc::Global;
use std::marker::Model;

/// The numbers of the buffers that a job may name, by handle.
#[derive(Drop)]
pub struct Handles<'a> {
    numbers: &'a [u32],
}

impl<'a> Model for Handles<'a> {
    ghost use Rattle.std.specs.Prelude.{List, ℕ};

    ghost Value = { List ℕ };

    ghost view = { λ h. h.numbers.now };
}

/// Whether a handle is no buffer's number, or names a buffer of another client.
#[tactic(auto, unfolding(crate::specs::Handles::handle_questions))]
fn handle_fault(table: &Table, client: u32, numbers: &[u32], index: usize) -> Option<u32>
    requires inside { index < length numbers.now }
    requires few { length numbers.now ≤ 1024 }
    ensures { result ≡ first_of (handle_questions table.now client numbers.now index) }
{
    let number = numbers[index] as usize;
    if number >= table.count() || table.buffer(number).client != client {
        return Some(index as u32);
    }
    None
}

/// The first handle at which H1 is broken.
fn handles_fault(table: &Table, client: u32, numbers: &[u32]) -> Option<u32>
    requires few { length numbers.now ≤ 1024 }
    ensures { result ≡ first_of (handles_questions table.now client numbers.now) }
{
    for index in 0..numbers.len() {
        if let Some(fault) = handle_fault(table, client, numbers, index) {
            return Some(fault);
        }
    }
    None
}

impl<'a> Handles<'a> {
    /// The handles of a job of `client`, which are lent. The fault is the least index at which H1 is broken: the
    /// number is no buffer's, or the buffer belongs to another client. No memory is taken.
    pub fn make(
        _alloc: Global,
        table: &Table,
        client: u32,
        numbers: &'a [u32],
    ) -> Result<Handles<'a>, Stop<u32>>
        requires few { length numbers.now ≤ 1024 }
        ensures made { Answers (handles_questions table.now client numbers.now)
            (λ h. h ≡ numbers.now) result }
        ensures first { NamesFirst (handles_questions table.now client numbers.now) result }
        ensures memory { NeverHidesFault (handles_questions table.now client numbers.now) result }
        ensures numbers { IfOk result (λ h. AreNumbersOf table.now h) }
    {
        if let Some(fault) = handles_fault(table, client, numbers) {
            return Err(Stop::Fault(fault));
        }
        Ok(Handles { numbers })
    }
}

/// The number of the data buffer that a handle names. `None` comes exactly where `index` is
/// outside the handles or the buffer is no data buffer.
#[tactic(auto, unfolding(crate::specs::Handles::data_of))]
pub fn use_data(table: &Table, handles: &Handles, index: u32) -> Option<usize>
    requires made { AreNumbersOf table.now handles.now }
    ensures value { result ≡ data_of table.now handles.now index }
    ensures exact { SomeIff result (IsData table.now handles.now index)
        (slice_index handles.now index) }
    ensures below { IfSome result (λ number. number < length table.now.buffers) }
{
    let number = *handles.numbers.get(index as usize)? as usize;
    match table.buffer(number).kind {
        Kind::Plain => Some(number),
        Kind::Code => None,
    }
}

/// The number of the Code buffer that a handle names. `None` comes exactly where `index` is
/// outside the handles or the buffer isn't Code.
#[tactic(auto, unfolding(crate::specs::Handles::code_of))]
pub fn use_code(table: &Table, handles: &Handles, index: u32) -> Option<usize>
    requires made { AreNumbersOf table.now handles.now }
    ensures value { result ≡ code_of table.now handles.now index }
    ensures exact { SomeIff result (IsCode table.now handles.now index)
        (slice_index handles.now index) }
    ensures below { IfSome result (λ number. number < length table.now.buffers) }
{
    let number = *handles.numbers.get(index as usize)? as usize;
    match table.buffer(number).kind {
        Kind::Plain => None,
        Kind::Code => Some(number),
    }
}
