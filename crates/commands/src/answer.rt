//! An answer to all of the input, and its way into the sink.
ghost use Rattle.std.specs.Prelude.{◌≡◌, ◌≢◌, ◌≤◌, ◌<◌, None};
ghost use Rattle.std.specs.Io.KnownBytes.{Appends};
ghost use Rattle.job_io.specs.Traffic.{AppendsFront};
ghost use Rattle.commands.specs.Run.{FailsAt};

use super::cause::Cause;
use job_io::{Failed, Sink, write_all};

/// Status 0 or 1, the text that goes with it, and what a person reads besides: why it is refused, or the notes of a shader.
#[derive(Debug, Drop)]
pub struct Answer {
    pub status: u8,
    pub text: Vec<u8>,
    pub cause: Option<Cause>,
}

impl Answer {
    /// The text of what was done.
    pub fn done(text: Vec<u8>) -> Answer
        ensures { result ≡ record { status = 0; text = text; cause = None } }
    {
        Answer {
            status: 0,
            text,
            cause: None,
        }
    }

    /// The text of what was done, and what a person reads besides.
    pub fn noted(text: Vec<u8>, cause: Option<Cause>) -> Answer
        ensures { result ≡ record { status = 0; text = text; cause = cause } }
    {
        Answer {
            status: 0,
            text,
            cause,
        }
    }

    /// The text of a refusal, and why.
    pub fn refused(text: Vec<u8>, cause: Option<Cause>) -> Answer
        ensures { result ≡ record { status = 1; text = text; cause = cause } }
    {
        Answer {
            status: 1,
            text,
            cause,
        }
    }
}

/// Writes the answer's text, and says its status; or 4 where the sink failed, which then has a front
/// of the text, where it still tells. It takes no memory.
pub fn reply<K: Sink>(sink: &mut K, answer: &Answer) -> u8
    requires { answer.now.status < 2 }
    ensures status { result ≢ 4 → result ≡ answer.now.status }
    ensures failing { result ≤ 4 }
    ensures written { result ≢ 4 → Appends (K.held sink.old) (K.held sink.new)
        answer.now.text.items }
    ensures cut { result ≡ 4 → AppendsFront (K.held sink.old) (K.held sink.new)
        answer.now.text.items }
    ensures write { FailsAt K.held K.faults sink.old sink.new 4 result }
{
    match write_all(sink, &answer.text) {
        Ok(()) => answer.status,
        Err(Failed) => 4,
    }
}
