//! The smallest job, its answer, and runs of a command without what is proved of them, so that a test's own proof isn't about it.

use job_io::{Sink, Source};
use std::alloc::{AllocError, Global};
use std::test::Fail;

/// The smallest job: a tile of a buffer of one page, the lists at place 0.
pub const SMALLEST: &str =
    "5643344a01000000002008000000000000100000001000000100000001000000010000000010\
    0800001000000100000000000000000000000100000000000000010000000000000000000000\
    00000000000000001000100000000000ffffffff000000000000000000000000000000000400\
    0000ffffffff0000000000000000ffffffff0000000000000000ffffffff0000000000000000\
    ffffffff00000000000000000000000000000000000000000000000000000000";

/// What `check` answers to it.
pub const SMALLEST_TEXT: &str = "accepted\nmemory 532480\nbin 00000000 0\nrecords 00000000 0\n\
    uniforms 00000000 0\nrender 00000000 15\nslot 00001000\n\
    00000000 71001008001000100004007300001900\nend\n";

/// The bytes of a file, by their digits.
pub fn file(alloc: Global, text: &str) -> Result<Vec<u8>, Fail> {
    Ok(hex::decode(alloc, text)?)
}

/// The words of a command.
pub fn words(alloc: Global, all: &[&str]) -> Result<Vec<String>, AllocError> {
    let mut words = Vec::new(alloc);
    for word in all {
        words.push(String::from_str(alloc, word)?)?;
    }
    Ok(words)
}

pub fn run<S: Source, K: Sink>(
    alloc: Global,
    words: &Vec<String>,
    source: &mut S,
    sink: &mut K,
) -> u8 {
    commands::run(alloc, words, source, sink)
}
