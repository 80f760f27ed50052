//! Reading to the end of input, and writing all of a part.
ghost use Rattle.std.specs.Prelude.{◌≤◌, ◌<◌, ◌+◌, ◌≡◌, ◌≢◌, ◌↔◌, Err, length, vec_len, IfOk, OnOk, OnErr, IfSome, IsErrOf};
ghost use Rattle.std.specs.Io.KnownBytes.{Appends, IsAtEnd};
ghost use Rattle.job_io.specs.Faults.{Rose, LastCallFailed};
ghost use Rattle.job_io.specs.Traffic.{piece_size, count_taken, AppendsFront};
ghost use Rattle.job_io.specs.declared.whole.ReadEnd.TheVariants.{ReadFault as Fault, NoMemory as OutOfMemory};

use super::traffic::{Failed, Sink, Source};
use std::alloc::{AllocError, Global};
use thiserror::Error;

/// Why a reading stopped before the end of input.
#[derive(Clone, Copy, Debug, PartialEq, Eq, Error)]
pub enum ReadEnd {
    /// The source failed.
    #[error("reading the input failed")]
    ReadFault,
    /// More bytes came than the limit.
    #[error("the input is longer than the limit")]
    TooLong,
    /// Memory ran out.
    #[error("memory ran out while the input was read")]
    NoMemory,
}

impl From<Failed> for ReadEnd {
    ghost from_gives = { λ _ end. end ≡ Fault };

    fn from(_failed: Failed) -> ReadEnd {
        ReadEnd::ReadFault
    }
}

impl From<AllocError> for ReadEnd {
    ghost from_gives = { λ _ end. end ≡ OutOfMemory };

    fn from(_error: AllocError) -> ReadEnd {
        ReadEnd::NoMemory
    }
}

/// How many bytes one call asks for. A short input touches two pages for it. A long file is read as fast as by larger pieces, a pipe is not.
const PIECE: usize = 8192;

/// How many bytes there is room for at first. So much is a mapping of its own, of which a short input touches a page; a room that grew to
/// it on the heap would leave as much there.
const FIRST_ROOM: usize = 32 * PIECE;

/// Reads to the end of input, at most `limit` bytes. It stops at once where the source fails, and
/// as soon as more than `limit` bytes were taken, which want of memory never hides; it takes at most
/// one piece of 8,192 bytes past the limit. Each turn takes a byte or ends.
pub fn read_all<S: Source>(alloc: Global, source: &mut S, limit: usize) -> Result<Vec<u8>, ReadEnd>
    ensures whole { IfOk result (λ bytes. IfSome (S.left source.old) (λ all. bytes.items ≡ all)) }
    ensures end { OnOk result (IsAtEnd (S.left source.new)) }
    ensures within { IfOk result (λ bytes. vec_len bytes ≤ limit) }

    ensures fault { IsErrOf result ReadEnd.ReadFault
        → Rose (S.faults source.old) (S.faults source.new) }
    ensures last { IsErrOf result ReadEnd.ReadFault
        → LastCallFailed S.left S.faults source.old source.new }
    ensures steady { result ≢ Err Fault → S.faults source.new ≡ S.faults source.old }
    ensures long { IfSome (S.left source.old) (λ _. IsErrOf result ReadEnd.TooLong ↔
        (limit < count_taken (S.left source.old) (S.left source.new))) }
    ensures past { count_taken (S.left source.old) (S.left source.new) ≤ limit + piece_size }
    ensures counted { S.faults source.old ≤ S.faults source.new }
{
    let mut bytes = Vec::with_capacity(alloc, FIRST_ROOM)?;
    let mut piece = [0u8; PIECE];
    'reading: loop {
        let count = source.read(&mut piece)?;
        if count == 0 {
            return Ok(bytes);
        }
        if count > limit - bytes.len() {
            return Err(ReadEnd::TooLong);
        }
        bytes.extend_from_slice(&piece[..count])?;
    }
}

/// Appends all of `part`, in as many writes as the sink wants. A failure ends it at once, and the
/// sink then has a front of the part. Nothing to append leaves the sink alone. It takes no memory.
pub fn write_all<K: Sink>(sink: &mut K, part: &[u8]) -> Result<(), Failed>
    ensures ok { OnOk result (Appends (K.held sink.old) (K.held sink.new) part.now) }
    ensures front { OnErr result (AppendsFront (K.held sink.old) (K.held sink.new) part.now) }
    ensures failed { OnErr result (Rose (K.faults sink.old) (K.faults sink.new)) }
    ensures last { OnErr result (LastCallFailed K.held K.faults sink.old sink.new) }
    ensures steady { OnOk result (K.faults sink.new ≡ K.faults sink.old) }
    ensures nothing { length part.now ≡ 0 → sink.new ≡ sink.old }
    ensures counted { K.faults sink.old ≤ K.faults sink.new }
{
    let mut at = 0;
    while at < part.len() {
        at += sink.write(&part[at..])?;
    }
    Ok(())
}
