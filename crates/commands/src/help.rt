//! What the program says of itself and of rules: `--help`, `COMMAND --help`, `--version` and `explain`.
ghost use Rattle.std.specs.Prelude.{◌≡◌, ◌≢◌, ◌<◌, ◌⊎◌, ◌++◌, IfOk, OnOk};
ghost use Rattle.std.specs.List.{flat_map};
ghost use Rattle.commands.specs.Run.{IsAnswered, IsCut, FailsAt};
ghost use Rattle.commands.specs.Topics.{usage_line, verb_help, program_help, topic_text, IsTopicAnswer};

use super::answer::{Answer, reply};
use super::explain::{FAMILIES, rule_rows};
use super::verb::{VERBS, Verb};
use job_io::Sink;
use rule_words::{RuleName, explain};
use std::alloc::{AllocError, Global};

/// What the program is asked about.
#[derive(Clone, Copy, Debug, PartialEq, Eq)]
pub enum Topic {
    /// `--help`, `-h` and `help`: all that it does.
    Program,
    /// `--help` with a command, and `COMMAND --help`: what a command does.
    Command(Verb),
    /// `--version` and `-V`: its version, and that of the toolchain that it is proved with.
    Version,
    /// `explain RULE`: a rule, or a kind of the assembler's faults.
    Rule(RuleName),
    /// `explain --list`: all rules, each with its sentence.
    Rules,
}

/// What stands before the commands in what `--help` says, and behind them.
const HEAD: &str = "vc4check checks 3D jobs for the VideoCore IV.\n\n";

const FOOT: &str = "
A command reads FILE, or standard input where FILE is - or missing, and writes standard output. With -o OUT behind COMMAND the output goes
to the file OUT instead, which is written at status 0 alone. A file whose name begins with - is named ./-NAME.
vc4check COMMAND --help says more of a command, and vc4check explain --list of all rules; vc4check --version says which version this is.

Exit status: 0 done, 1 refused, 2 wrong words, 3 reading failed, 4 writing failed, 5 out of memory, 6 too much input.
With 1 to 6 a line on standard error says why.
";

const VERSION: &str =
    "vc4check 0.5.0, for job files of versions 1 and 2\nproved with rattle-kit-13f logic dac8208d650f15bf\n";

#[tactic(auto, unfolding(crate::specs::Topics::verb_help))]
fn verb_help(alloc: Global, verb: Verb) -> Result<Vec<u8>, AllocError>
    ensures { IfOk result (λ text. text.items ≡ verb_help verb) }
{
    let (usage, about) = verb.row();
    Ok(format!(in alloc; "vc4check {usage}\n{about}\n")?.into_bytes())
}

#[tactic(auto, unfolding(crate::specs::Topics::usage_line))]
fn put_usage(text: &mut Vec<u8>, verb: Verb) -> Result<(), AllocError>
    ensures { OnOk result (text.new.items ≡ text.old.items ++ usage_line verb) }
{
    text.extend_from_slice(b"vc4check ")?;
    text.extend_from_slice(verb.usage().as_bytes())?;
    text.extend_from_slice(b"\n")?;
    Ok(())
}

/// The lines of these commands.
fn usage_lines(alloc: Global, verbs: &[Verb]) -> Result<Vec<u8>, AllocError>
    ensures { IfOk result (λ text. text.items ≡ flat_map usage_line verbs.now) }
{
    let mut text = Vec::new(alloc);
    for verb in verbs {
        put_usage(&mut text, *verb)?;
    }
    Ok(text)
}

/// What `--help` says.
#[tactic(auto, unfolding(crate::specs::Topics::program_help))]
fn program_help(alloc: Global) -> Result<Vec<u8>, AllocError>
    ensures { IfOk result (λ text. text.items ≡ program_help) }
{
    let mut text = Vec::new(alloc);
    text.extend_from_slice(HEAD.as_bytes())?;
    let lines = usage_lines(alloc, &VERBS)?;
    text.extend_from_slice(&lines)?;
    text.extend_from_slice(FOOT.as_bytes())?;
    Ok(text)
}

/// What the program says of this.
#[tactic(auto, unfolding(crate::specs::Topics::topic_text))]
fn topic_text(alloc: Global, topic: Topic) -> Result<Vec<u8>, AllocError>
    ensures { IfOk result (λ text. text.items ≡ topic_text topic) }
{
    match topic {
        Topic::Program => program_help(alloc),
        Topic::Command(verb) => verb_help(alloc, verb),
        Topic::Version => Vec::from_slice(alloc, VERSION.as_bytes()),
        Topic::Rule(name) => explain(alloc, name),
        Topic::Rules => rule_rows(alloc, &FAMILIES),
    }
}

/// Appends what the program says of this to the sink. All memory is taken before the first byte is written. Status 0 is done, 4 is a
/// fault of the sink, and 5 want of memory.
pub fn tell<K: Sink>(alloc: Global, topic: Topic, sink: &mut K) -> u8
    ensures statuses { (result ≡ 0) ⊎ ((result ≡ 4) ⊎ (result ≡ 5)) }
    ensures write { FailsAt K.held K.faults sink.old sink.new 4 result }
    ensures report { result < 2 → IsAnswered (IsTopicAnswer topic) result (K.held sink.old)
        (K.held sink.new) }
    ensures cut { result ≡ 4 → IsCut (IsTopicAnswer topic) (K.held sink.old) (K.held sink.new) }
    ensures nothing { 1 < result → result ≢ 4 → sink.new ≡ sink.old }
{
    let Ok(text) = topic_text(alloc, topic) else {
        return 5;
    };
    reply(sink, &Answer::done(text))
}
