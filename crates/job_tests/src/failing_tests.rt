//! A source and a sink that fail at each call in turn, and which words name a file.
use super::runs::{SMALLEST, SMALLEST_TEXT, file, run, words};
use commands::Checker;
use entry::Program;
use job_io::{MemSink, MemSource};
use std::test::Fail;

// The smallest job byte by byte, 184 of them and the end of input: a failure of any of these calls is status 3, and nothing is
// written. The next call isn't made.
#[test]
fn any_failing_read_is_status_3(rt: HostRuntime) -> Result<(), Fail> {
    let alloc = rt.alloc();
    for failing in 0..186 {
        let bytes = file(alloc, SMALLEST)?;
        let mut source = MemSource::new(bytes, 1, [failing].to_vec(alloc)?);
        let mut sink = MemSink::new(alloc, 1000, 1000, Vec::new(alloc))?;
        let status = run(alloc, &words(alloc, &["check"])?, &mut source, &mut sink);
        let (wanted, text) = if failing < 185 {
            (3, "")
        } else {
            (0, SMALLEST_TEXT)
        };
        assert_eq!(rt; status, wanted, "call {failing}");
        assert_eq!(rt; sink.bytes(), text.as_bytes(), "call {failing}");
    }
    Ok(())
}

// Its text has 156 bytes, which go out one by one: a failure of any of these calls is status 4, and what was written before it
// stays.
#[test]
fn any_failing_write_is_status_4(rt: HostRuntime) -> Result<(), Fail> {
    let alloc = rt.alloc();
    for failing in 0..157 {
        let mut source = MemSource::new(file(alloc, SMALLEST)?, 100, Vec::new(alloc));
        let mut sink = MemSink::new(alloc, 1, 1000, [failing].to_vec(alloc)?)?;
        let status = run(alloc, &words(alloc, &["check"])?, &mut source, &mut sink);
        assert_eq!(rt; status, if failing < 156 { 4 } else { 0 }, "call {failing}");
        assert_eq!(rt; sink.bytes().len(), failing as usize, "call {failing}");
        assert!(rt;
            SMALLEST_TEXT.as_bytes().starts_with(sink.bytes()),
            "call {failing}"
        );
    }
    Ok(())
}

// A picture of 4 by 70 pixels of four bytes, whose surface goes out in pieces of 1,000 bytes at most: where a write fails, the sink holds
// those before.
#[test]
fn failing_sinks_hold_a_front(rt: HostRuntime) -> Result<(), Fail> {
    let alloc = rt.alloc();
    let tile = words(alloc, &["tile", "t", "4", "4", "70"])?;
    let mut whole = MemSink::new(alloc, 1_000, 100_000, Vec::new(alloc))?;
    let mut pixels = MemSource::new(vec![in alloc; 7u8; 1_120]?, 100, Vec::new(alloc));
    assert_eq!(rt; run(alloc, &tile, &mut pixels, &mut whole), 0);
    assert_eq!(rt; whole.bytes().len(), 12_288);
    for failing in 0..12 {
        let mut pixels = MemSource::new(vec![in alloc; 7u8; 1_120]?, 100, Vec::new(alloc));
        let mut cut = MemSink::new(alloc, 1_000, 100_000, [failing].to_vec(alloc)?)?;
        assert_eq!(rt; run(alloc, &tile, &mut pixels, &mut cut), 4);
        assert_eq!(rt; cut.bytes().is_empty(), failing == 0);
        assert!(rt; whole.bytes().starts_with(cut.bytes()));
    }
    Ok(())
}

// Words that a command doesn't take are names of files.
#[test]
fn last_words_name_files(rt: HostRuntime) -> Result<(), Fail> {
    let alloc = rt.alloc();
    assert_eq!(rt;
        Checker.name_count(&words(alloc, &["check", "one", "two"])?),
        2
    );
    assert_eq!(rt; Checker.name_count(&words(alloc, &["check"])?), 0);
    Ok(())
}
