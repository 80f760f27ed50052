//! The calls of a script.
ghost use Rattle.std.specs.Prelude.{◌≡◌, ◌<◌, IfSome};
ghost use Rattle.overflow_slots.specs.Calls.{begin_of, call_named as named, call_of};
ghost use Rattle.overflow_slots.specs.Calls.{IsInRange};

use script::{cut_at, read_number};

/// The greatest number of a job.
const LAST_JOB: u64 = 31;

/// The most tiles of a job: 255 by 255.
const MOST_TILES: u64 = 65025;

/// A call on a pool.
#[derive(Clone, Copy, Debug, PartialEq, Eq)]
pub enum Call {
    /// `begin <job> <tiles>`
    Begin { job: u8, tiles: u32 },
    /// `take <job>`
    Take { job: u8 },
    /// `overflow <job>`
    Overflow { job: u8 },
    /// `end <job>`
    End { job: u8 },
}

fn read_begin(words: &[u8]) -> Option<Call>
    ensures call { result ≡ begin_of words.now }
    ensures range { IfSome result IsInRange }
{
    let cut = cut_at(words, b' ');
    let job = read_number(cut.first, LAST_JOB)?;
    let tiles = read_number(cut.rest, MOST_TILES)?;
    Some(Call::Begin {
        job: job as u8,
        tiles: tiles as u32,
    })
}

fn call_named(name: &[u8], words: &[u8]) -> Option<Call>
    ensures call { result ≡ named name.now words.now }
    ensures range { IfSome result IsInRange }
{
    if name == b"begin".as_slice() {
        return read_begin(words);
    }
    if name == b"take".as_slice() {
        let job = read_number(words, LAST_JOB)? as u8;
        return Some(Call::Take { job });
    }
    if name == b"overflow".as_slice() {
        let job = read_number(words, LAST_JOB)? as u8;
        return Some(Call::Overflow { job });
    }
    if name == b"end".as_slice() {
        let job = read_number(words, LAST_JOB)? as u8;
        return Some(Call::End { job });
    }
    None
}

/// The call that a line is, or `None` exactly where it is none.
#[tactic(auto, unfolding(crate::specs::Calls::call_of))]
pub fn read_call(line: &[u8]) -> Option<Call>
    ensures call { result ≡ call_of line.now }
    ensures range { IfSome result IsInRange }
{
    let cut = cut_at(line, b' ');
    call_named(cut.first, cut.rest)
}
