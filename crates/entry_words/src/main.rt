//! A program that writes its words, one a line, and then its input, and ends as one that had too much. Its stored run shows what `entry`
//! hands over: two words, all of the input, and the status, whose meaning is said on standard error and not on standard output.
#![tactic(auto)]

use entry::{Ended, Program, Ran};
use job_io::{Failed, Sink, Source, read_all, write_all};
use std::alloc::{AllocError, Global};

/// The most bytes of input that are written again.
const LIMIT: usize = 1024;

fn write_lines<K: Sink>(sink: &mut K, words: &Vec<String>) -> Result<(), Failed> {
    for word in words {
        write_all(sink, word.as_bytes())?;
        write_all(sink, b"\n")?;
    }
    Ok(())
}

// The status of a run.
fn run<S: Source, K: Sink>(alloc: Global, words: &Vec<String>, source: &mut S, sink: &mut K) -> u8 {
    let Ok(input) = read_all(alloc, source, LIMIT) else {
        return 3;
    };
    if write_lines(sink, words).is_err() || write_all(sink, &input).is_err() {
        return 4;
    }
    6
}

struct Words;

impl Program for Words {
    type Cause = &'static str;

    ghost does = { λ X Y words left faults source now held sink_faults sink sink_now ended. Unit {0} };

    ghost promises = { Unit {0} };

    fn name(&self) -> &'static str {
        "entry_words"
    }

    fn name_count(&self, _words: &Vec<String>) -> usize {
        0
    }

    fn takes_several(&self, _words: &Vec<String>) -> bool {
        false
    }

    fn heading(
        &self,
        alloc: Global,
        _words: &Vec<String>,
        _name: &str,
        _count: usize,
    ) -> Result<Vec<u8>, AllocError> {
        Ok(Vec::new(alloc))
    }

    fn names_output(&self, _words: &Vec<String>) -> bool {
        false
    }

    fn excess(&self, _words: &Vec<String>) -> &'static str {
        "more than 1024 bytes"
    }

    fn run<S: Source, K: Sink>(
        &self,
        alloc: Global,
        words: &Vec<String>,
        source: &mut S,
        sink: &mut K,
    ) -> Ended<&'static str> {
        Ended {
            status: run(alloc, words, source, sink),
            cause: None,
        }
    }

    fn notice(&self, status: u8) -> Option<&'static str> {
        if status == 6 {
            return Some("entry_words: the input is longer than it may be");
        }
        None
    }

    fn promised(&self) {}
}

fn main(rt: HostRuntime) -> Ran {
    entry::run(&rt, &Words)
}
