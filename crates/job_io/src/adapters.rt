//! The edge to the outside: adapters over std's `Read` and `Write`. They tell what std's contracts
//! tell of their reader or writer.
ghost use Rattle.std.specs.Prelude.{◌≡◌, ◌≤◌, ◌<◌, length, IfOk, OnOk, OnErr};
ghost use Rattle.std.specs.Io.KnownBytes.{ReadConsumes};
ghost use Rattle.job_io.specs.Faults.{Rose, count_after};
ghost use Rattle.job_io.specs.Traffic.{Writes, held_of};

use super::traffic::{Failed, Sink, Source};
use std::io::{Read, Write};
use std::marker::Model;

/// A source over a reader. Each `Err` of the reader counts as a fault.
#[derive(Drop)]
pub struct ReaderSource<R: Read> {
    reader: R,
    faults: u64,
}

impl<R: Read> Model for ReaderSource<R> {
    ghost use Rattle.job_io.specs.Traffic.{Adapted};

    ghost Value = { Adapted R };

    ghost view = { λ s. record { inner = s.reader; faults = s.faults } };
}

impl<R: Read> ReaderSource<R> {
    /// A source over this reader, with the count 0. It takes no memory.
    pub fn new(reader: R) -> ReaderSource<R>
        ensures { result ≡ record { inner = reader; faults = 0 } }
    {
        ReaderSource { reader, faults: 0 }
    }
}

impl<R: Read> Source for ReaderSource<R> {
    ghost left = { λ s. R.remaining s.inner };

    ghost faults = { λ s. s.faults };

    /// One `read` of the reader. It takes no memory.
    fn read(&mut self, buf: &mut [u8]) -> Result<usize, Failed>
        ensures within { IfOk result (λ n. n ≤ length buf.new) }
        ensures bytes { ReadConsumes (R.remaining self.old.inner) (R.remaining self.new.inner)
            result buf.new }
        ensures failed { OnErr result (Rose self.old.faults self.new.faults) }
        ensures steady { OnOk result (self.new.faults ≡ self.old.faults) }
        ensures counted { self.old.faults ≤ self.new.faults }

        ensures err { OnErr result (self.new.faults ≡ count_after self.old.faults) }
    {
        match self.reader.read(buf) {
            Ok(count) => Ok(count),
            Err(_) => {
                self.faults = self.faults.saturating_add(1);
                Err(Failed)
            }
        }
    }
}

/// A sink over a writer, flushed after each write. Each `Err` of the writer or of the flush counts
/// as a fault, and so does a write that takes nothing of a piece that isn't empty. What a failed
/// call left in the writer isn't known, so from the first fault on the sink tells no bytes.
#[derive(Drop)]
pub struct WriterSink<W: Write> {
    writer: W,
    faults: u64,
}

impl<W: Write> Model for WriterSink<W> {
    ghost use Rattle.job_io.specs.Traffic.{Adapted};

    ghost Value = { Adapted W };

    ghost view = { λ s. record { inner = s.writer; faults = s.faults } };
}

impl<W: Write> WriterSink<W> {
    /// A sink over this writer, with the count 0. It takes no memory.
    pub fn new(writer: W) -> WriterSink<W>
        ensures { result ≡ record { inner = writer; faults = 0 } }
    {
        WriterSink { writer, faults: 0 }
    }
}

impl<W: Write> Sink for WriterSink<W> {
    ghost held = { held_of W.contents };

    ghost faults = { λ s. s.faults };

    /// One `write` and one `flush` of the writer. It takes no memory.
    fn write(&mut self, part: &[u8]) -> Result<usize, Failed>
        ensures within { IfOk result (λ n. n ≤ length part.now) }
        ensures some { IfOk result (λ n. 0 < length part.now → 0 < n) }
        ensures bytes { Writes (held_of W.contents self.old) (held_of W.contents self.new)
            result part.now }
        ensures failed { OnErr result (Rose self.old.faults self.new.faults) }
        ensures steady { OnOk result (self.new.faults ≡ self.old.faults) }
        ensures counted { self.old.faults ≤ self.new.faults }

        ensures err { OnErr result (self.new.faults ≡ count_after self.old.faults) }
    {
        if let Ok(count) = self.writer.write(part) {
            if (count > 0 || part.is_empty()) && self.writer.flush().is_ok() {
                return Ok(count);
            }
        }
        self.faults = self.faults.saturating_add(1);
        Err(Failed)
    }
}
