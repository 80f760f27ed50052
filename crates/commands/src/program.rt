//! The program over any source and sink, for `main`.
ghost use Rattle.commands.specs.Run.{IsRunWithCause, Promises};

use super::cause::Cause;
use super::names::{heading, name_count, takes_several};
use super::notice::notice_of;
use super::runs::run_with_cause;
use super::words::{excess_of, names_output};
use entry::{Ended, Program};
use job_io::{Sink, Source};
use std::alloc::{AllocError, Global};

/// The program that `main` runs.
pub struct Checker;

impl Program for Checker {
    type Cause = Cause;

    ghost does = { λ X Y. IsRunWithCause {X = X} {Y = Y} };

    ghost promises = { Promises };

    fn name(&self) -> &'static str {
        "vc4check"
    }

    fn name_count(&self, words: &Vec<String>) -> usize {
        name_count(words)
    }

    fn takes_several(&self, words: &Vec<String>) -> bool {
        takes_several(words)
    }

    fn heading(
        &self,
        alloc: Global,
        words: &Vec<String>,
        name: &str,
        count: usize,
    ) -> Result<Vec<u8>, AllocError> {
        heading(alloc, words, name, count)
    }

    fn names_output(&self, words: &Vec<String>) -> bool {
        names_output(words)
    }

    fn excess(&self, words: &Vec<String>) -> &'static str {
        excess_of(words)
    }

    fn run<S: Source, K: Sink>(
        &self,
        alloc: Global,
        words: &Vec<String>,
        source: &mut S,
        sink: &mut K,
    ) -> Ended<Cause> {
        run_with_cause(alloc, words, source, sink)
    }

    fn notice(&self, status: u8) -> Option<&'static str> {
        notice_of(status)
    }

    #[tactic(auto, using(crate::proofs::Promised::promises))]
    fn promised(&self) {}
}
