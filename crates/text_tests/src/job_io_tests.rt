//! Sources and sinks over std's readers and writers: those that fail, and large pieces.
use job_io::{Failed, ReadEnd, ReaderSource, Sink, WriterSink, read_all, write_all};
use std::io;
use std::io::{Read, Write};
use std::test::Fail;

/// Gives and takes one byte a call. The call whose number, from 0, is `failing` fails: of a
/// reader a read, and of a writer a flush.
#[derive(Drop)]
struct Faulty {
    calls: u32,
    failing: u32,
}

impl Faulty {
    fn fails(&mut self) -> bool {
        let failed = self.calls == self.failing;
        self.calls = self.calls.saturating_add(1);
        failed
    }
}

impl Read for Faulty {
    fn read(&mut self, buf: &mut [u8]) -> io::Result<usize> {
        if self.fails() {
            return Err(io::Error::from(io::ErrorKind::Other));
        }
        if buf.is_empty() || self.calls > 3 {
            return Ok(0);
        }
        buf[0] = 7;
        Ok(1)
    }
}

impl Write for Faulty {
    fn write(&mut self, buf: &[u8]) -> io::Result<usize> {
        Ok(buf.len().min(1))
    }

    fn flush(&mut self) -> io::Result<()> {
        if self.fails() {
            return Err(io::Error::from(io::ErrorKind::Other));
        }
        Ok(())
    }
}

#[test]
fn a_failing_reader_is_a_read_fault(rt: HostRuntime) -> Result<(), Fail> {
    let mut source = ReaderSource::new(Faulty {
        calls: 0,
        failing: 1,
    });
    assert_eq!(rt;
        read_all(rt.alloc(), &mut source, 10).err(),
        Some(ReadEnd::ReadFault)
    );
    let rest = read_all(rt.alloc(), &mut source, 10)?;
    assert_eq!(rt; rest.as_slice(), [7].as_slice());
    Ok(())
}

#[test]
fn a_failing_flush_is_a_write_fault(rt: HostRuntime) {
    let mut sink = WriterSink::new(Faulty {
        calls: 0,
        failing: 1,
    });
    assert_eq!(rt; sink.write(b"01"), Ok(1));
    assert_eq!(rt; sink.write(b"1"), Err(Failed));
    assert_eq!(rt; sink.write(b"2"), Ok(1));
}

/// A writer of at most 100,000 bytes a call, which knows how many it took and whether all of them were flushed.
#[derive(Drop)]
struct Teller {
    taken: usize,
    flushed: bool,
}

impl Write for Teller {
    fn write(&mut self, buf: &[u8]) -> io::Result<usize> {
        let count = buf.len().min(100_000);
        self.taken = self.taken.saturating_add(count);
        self.flushed = false;
        Ok(count)
    }

    fn flush(&mut self) -> io::Result<()> {
        self.flushed = true;
        Ok(())
    }
}

// Two MiB at once: all are read, in the memory that takes, and all are written and flushed.
#[test]
fn large_pieces_go_through(rt: HostRuntime) -> Result<(), Fail> {
    let alloc = rt.alloc();
    let large = vec![in alloc; 7u8; 2_097_152]?;
    let mut source = ReaderSource::new(large.as_slice());
    let bytes = read_all(alloc, &mut source, 2_097_152)?;
    assert!(rt; bytes.as_slice() == large.as_slice());
    let mut teller = Teller {
        taken: 0,
        flushed: false,
    };
    assert!(rt; write_all(&mut WriterSink::new(&mut teller), &bytes).is_ok());
    assert_eq!(rt; (teller.taken, teller.flushed), (2_097_152, true));
    Ok(())
}
