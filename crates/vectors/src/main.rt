//! Checks many shaders or job files in one process: an example of how a program of one's own uses the library.
//!
//! With a word, as `shaders`, the input is lines of text: a line has the words of a shader in hexadecimal, then a colon and anything. For each
//! line that does not begin with `#` the answer is printed.
//!
//! With no words the input is a row of job files, each behind its length in bytes (four bytes, little endian), up to 256 MiB. For each one a
//! line is printed: `accepted` with the lengths of the emitted binner list, records, uniforms and renderer list of each job, or the refusal
//! as `vc4check check` prints it. A length that goes past the input ends the reading.
//!
//! The exit status is 0 (done), 3 (reading failed, or of shaders anything), 4 (writing failed), 5 (want of memory) or 6 (more input than the
//! limit).
#![tactic(auto)]

mod job_answer;
mod jobs;
mod shader_answer;

use job_io::{Failed, ReadEnd, ReaderSource, WriterSink, read_all, write_all};
use std::process::ExitCode;
use std::{env, io};

/// The most bytes of input with job files.
const LIMIT: usize = 268_435_456;

/// The lines for all shaders of standard input.
fn check_shaders(rt: &HostRuntime) -> io::Result<()> {
    // One line's room serves them all.
    let mut line = String::new(rt.alloc());
    for _ in 0..u64::MAX {
        line.clear();
        if rt.read_line(&mut line)? == 0 {
            break;
        }
        if !line.starts_with('#') {
            let text = shader_answer::answer(rt.alloc(), line.as_str().trim_end())?;
            println!(rt; "{text}")?;
        }
    }
    Ok(())
}

/// The lines for all job files of standard input; the status says how it ended.
fn check_jobs(rt: &HostRuntime) -> u8 {
    let mut source = ReaderSource::new(rt.stdin());
    let bytes = match read_all(rt.alloc(), &mut source, LIMIT) {
        Ok(bytes) => bytes,
        Err(ReadEnd::ReadFault) => return 3,
        Err(ReadEnd::NoMemory) => return 5,
        Err(ReadEnd::TooLong) => return 6,
    };
    let Ok(lines) = jobs::lines(rt.alloc(), &bytes) else {
        return 5;
    };
    match write_all(&mut WriterSink::new(rt.stdout()), &lines) {
        Ok(()) => 0,
        Err(Failed) => 4,
    }
}

/// Whether there are words.
fn has_words(rt: &HostRuntime) -> io::Result<bool> {
    Ok(env::args(rt)?.nth(1).is_some())
}

fn main(rt: HostRuntime) -> ExitCode {
    let status = match has_words(&rt) {
        Ok(true) if check_shaders(&rt).is_ok() => 0,
        Ok(false) => check_jobs(&rt),
        _ => 3,
    };
    ExitCode::from(status)
}
