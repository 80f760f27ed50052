//! The top call: from words and input to a status and a text.
ghost use Rattle.commands.specs.Run.{IsRun, IsRunWithCause};

use super::cause::Cause;
use super::command::Task;
use super::example::make;
use super::help::tell;
use super::serve::serve;
use super::words::task_of;
use entry::Ended;
use job_io::{Sink, Source};
use std::alloc::Global;

/// Does what the words ask for: reads the command's input from the source, or makes an example, and appends the text that answers it to
/// the sink. It says how it ended, and why: with status 1 comes what a person reads of the refusal, where there is more to say than the
/// text says, and with status 2 which word is wrong.
///
/// | Status | Meaning | What the sink gets |
/// |---|---|---|
/// | 0 | done | the command's text |
/// | 1 | refused | the refusal's text |
/// | 2 | the words ask for nothing that the program does; nothing is read | nothing |
/// | 3 | the source failed | nothing |
/// | 4 | the sink failed | a front of the text of status 0 or 1 |
/// | 5 | want of memory | nothing |
/// | 6 | more input than the command's limit | nothing |
#[tactic(auto, using(crate::proofs::Headline::safely_accepted, crate::proofs::Promised::promises))]
pub fn run_with_cause<S: Source, K: Sink>(
    alloc: Global,
    words: &Vec<String>,
    source: &mut S,
    sink: &mut K,
) -> Ended<Cause>
    ensures { IsRunWithCause words.now.items S.left S.faults source.old source.new
        K.held K.faults sink.old sink.new result }
{
    match task_of(words) {
        Err(fault) => Ended {
            status: 2,
            cause: Some(Cause::Words(fault)),
        },
        Ok(Task::Read(command)) => serve(alloc, command, source, sink),
        Ok(Task::Make(number)) => Ended::silent(make(alloc, number, sink)),
        Ok(Task::Tell(topic)) => Ended::silent(tell(alloc, topic, sink)),
    }
}

/// The status of such a run.
pub fn run<S: Source, K: Sink>(
    alloc: Global,
    words: &Vec<String>,
    source: &mut S,
    sink: &mut K,
) -> u8
    ensures { IsRun words.now.items S.left S.faults source.old source.new K.held K.faults sink.old
        sink.new result }
{
    run_with_cause(alloc, words, source, sink).status
}
