//! What a program answers.
use entry::{Ended, Program};
use job_io::{SteadySource, WriterSink};
use std::alloc::{AllocError, Global};

/// How a run ended, what it wrote, and what a person read.
#[derive(Drop)]
pub struct Outcome {
    pub status: u8,
    pub output: Vec<u8>,
    pub notice: String,
}

/// The words of a line, parted by blanks.
fn words_of(alloc: Global, line: &str) -> Result<Vec<String>, AllocError> {
    let mut words = Vec::new(alloc);
    for word in line.split(' ') {
        if !word.is_empty() {
            words.push(String::from_str(alloc, word)?)?;
        }
    }
    Ok(words)
}

/// What the program answers to the words of a line and this input.
pub fn answer<P: Program>(
    alloc: Global,
    program: &P,
    line: &str,
    input: Vec<u8>,
) -> Result<Outcome, AllocError> {
    let words = words_of(alloc, line)?;
    let mut output = Vec::new(alloc);
    let mut source = SteadySource::new(input);
    let mut sink = WriterSink::new(&mut output);
    let Ended { status, cause } = program.run(alloc, &words, &mut source, &mut sink);
    let notice = match cause {
        Some(cause) => format!(in alloc; "{cause}")?,
        None => String::from_str(alloc, program.notice(status).unwrap_or(""))?,
    };
    Ok(Outcome {
        status,
        output,
        notice,
    })
}
