//! A program that writes a line for any input. Its stored run names a file that isn't there: `entry` runs nothing, and its status is 3.
#![tactic(auto)]

use entry::{Ended, Program, Ran};
use job_io::{Sink, Source, write_all};
use std::alloc::{AllocError, Global};

struct Line;

impl Program for Line {
    type Cause = &'static str;

    ghost does = { λ X Y words left faults source now held sink_faults sink sink_now ended. Unit {0} };

    ghost promises = { Unit {0} };

    fn name(&self) -> &'static str {
        "entry_unread"
    }

    fn name_count(&self, words: &Vec<String>) -> usize {
        usize::from(words.len() == 2)
    }

    fn takes_several(&self, _words: &Vec<String>) -> bool {
        false
    }

    fn heading(
        &self,
        alloc: Global,
        _words: &Vec<String>,
        _name: &str,
        _count: usize,
    ) -> Result<Vec<u8>, AllocError> {
        Ok(Vec::new(alloc))
    }

    fn names_output(&self, _words: &Vec<String>) -> bool {
        false
    }

    fn excess(&self, _words: &Vec<String>) -> &'static str {
        "too much"
    }

    fn run<S: Source, K: Sink>(
        &self,
        _alloc: Global,
        _words: &Vec<String>,
        _source: &mut S,
        sink: &mut K,
    ) -> Ended<&'static str> {
        Ended {
            status: if write_all(sink, b"run\n").is_ok() {
                0
            } else {
                4
            },
            cause: None,
        }
    }

    fn notice(&self, _status: u8) -> Option<&'static str> {
        None
    }

    fn promised(&self) {}
}

fn main(rt: HostRuntime) -> Ran {
    entry::run(&rt, &Line)
}
