//! From the program's words to what they ask for, or to the word that is wrong.
ghost use Rattle.std.specs.Prelude.{ℕ, ◌≡◌, ◌-◌, length, drop, IfOk};
ghost use Rattle.commands.specs.Line.{line_of, texts};
ghost use Rattle.commands.specs.Words.{run_asked, runs, replay, picture, picture_asked, level, example, slots, queue, check, show, disasm, shader, explain, task_asked, put_out, task_behind, help_of, version_alone, strange_by, topic_named, task_or_fault, is_name, names_file, is_command, names_output, excess_of, is_read, ReadsWithin};
ghost use Rattle.commands.specs.Choice.{option_letter};
ghost use Rattle.seeded_runs.specs.Report.{IsLookWithin};
ghost use Rattle.tile_convert.specs.Picture.{IsPictureWithin};

use super::choice::{nearest_topic, option_letter};
use super::command::{Command, Task};
use super::help::Topic;
use super::line::Line;
use super::show::Showing;
use super::surfaces::TexturePart;
use super::verb::{Verb, verb_named};
use super::verdict::Form;
use super::word_fault::{Argument, WordFault};
use job_text::Omitted;
use replay::UnitKind;
use seeded_runs::{Look, Trial};
use tile_convert::Picture;

/// `STEPS SEED`
fn run(
    mut line: Line,
    headed: bool,
    look: Look,
    favoured: Option<UnitKind>,
) -> Result<Task, WordFault>
    requires { (seed : ℕ) → IsLookWithin look seed }
    ensures value { result ≡ run_asked headed look favoured (line_of line.entry) }
    ensures within { IfOk result ReadsWithin }
{
    let steps = line.number(Argument::Steps)?;
    let seed = line.seed()?;
    let trial = Trial {
        look,
        favoured,
        steps,
        seed,
    };
    line.end(Task::Read(Command::Runs { headed, trial }))
}

/// `[--accesses | --seeds A..B] STEPS [SEED]`
fn runs(mut line: Line, headed: bool, favoured: Option<UnitKind>) -> Result<Task, WordFault>
    ensures value { result ≡ runs headed favoured (line_of line.entry) }
    ensures within { IfOk result ReadsWithin }
{
    if line.begins("--accesses") {
        return run(line, headed, Look::Accesses, favoured);
    }
    if !line.begins("--seeds") {
        return run(line, headed, Look::Steps, favoured);
    }
    let seeds = line.seeds()?;
    let steps = line.number(Argument::Steps)?;
    let trial = Trial {
        look: Look::Seeds(seeds.count),
        favoured,
        steps,
        seed: seeds.first,
    };
    line.end(Task::Read(Command::Runs { headed, trial }))
}

/// `[--header] [--favour KIND] [--accesses | --seeds A..B] STEPS [SEED]`
fn replay(mut line: Line) -> Result<Task, WordFault>
    ensures value { result ≡ replay (line_of line.entry) }
    ensures within { IfOk result ReadsWithin }
{
    let headed = line.begins("--header");
    if line.begins("--favour") {
        let kind = line.unit()?;
        return runs(line, headed, Some(kind));
    }
    runs(line, headed, None)
}

/// `[--run [--favour KIND] STEPS SEED]`
fn picture(mut line: Line) -> Result<Task, WordFault>
    ensures value { result ≡ picture (line_of line.entry) }
    ensures within { IfOk result ReadsWithin }
{
    if !line.begins("--run") {
        return line.end(Task::Read(Command::Drawn));
    }
    if line.begins("--favour") {
        let kind = line.unit()?;
        return run(line, false, Look::Picture, Some(kind));
    }
    run(line, false, Look::Picture, None)
}

/// `TILING CPP WIDTH HEIGHT`
fn pictured(mut line: Line) -> Result<Picture, WordFault>
    ensures value { result ≡ picture_asked (line_of line.entry) }
    ensures within { IfOk result IsPictureWithin }
{
    let tiling = line.tiling()?;
    let cpp = line.cpp()?;
    let width = line.number(Argument::Width)?;
    let height = line.number(Argument::Height)?;
    line.end(Picture {
        tiling,
        cpp,
        width,
        height,
    })
}

fn level(mut line: Line) -> Result<Task, WordFault>
    ensures value { result ≡ level (line_of line.entry) }
    ensures within { IfOk result ReadsWithin }
{
    let p0 = line.number(Argument::P0)?;
    let p1 = line.number(Argument::P1)?;
    let p2 = line.number(Argument::P2)?;
    let p3 = line.number(Argument::P3)?;
    let face = line.number(Argument::Face)?;
    let level = line.number(Argument::LevelNumber)?;
    line.end(Task::Read(Command::Level(TexturePart {
        setup: [p0, p1, p2, p3],
        face,
        level,
    })))
}

fn explain(mut line: Line) -> Result<Task, WordFault>
    ensures value { result ≡ explain (line_of line.entry) }
    ensures within { IfOk result ReadsWithin }
{
    if line.begins("--list") {
        return line.end(Task::Tell(Topic::Rules));
    }
    if line.begins("kind") {
        let name = line.kind()?;
        return line.end(Task::Tell(Topic::Rule(name)));
    }
    let name = line.rule()?;
    line.end(Task::Tell(Topic::Rule(name)))
}

fn check(mut line: Line) -> Result<Task, WordFault>
    ensures value { result ≡ check (line_of line.entry) }
    ensures within { IfOk result ReadsWithin }
{
    let strict = line.begins("--strict");
    if line.begins("--quiet") {
        let form = Form::Quiet;
        return line.end(Task::Read(Command::Verdict { strict, form }));
    }
    if line.begins("--json") {
        let form = Form::Json;
        return line.end(Task::Read(Command::Verdict { strict, form }));
    }
    line.end(Task::Read(Command::Check { strict }))
}

fn show(mut line: Line) -> Result<Task, WordFault>
    ensures value { result ≡ show (line_of line.entry) }
    ensures within { IfOk result ReadsWithin }
{
    let strict = line.begins("--strict");
    let draws = line.begins("--draws");
    let contents = line.begins("--no-content");
    let offsets = line.begins("--no-offsets");
    line.end(Task::Read(Command::Show(Showing {
        strict,
        draws,
        omitted: Omitted { contents, offsets },
    })))
}

fn disasm(mut line: Line) -> Result<Task, WordFault>
    ensures value { result ≡ disasm (line_of line.entry) }
    ensures within { IfOk result ReadsWithin }
{
    let notes = line.begins("--notes");
    line.end(Task::Read(Command::Disasm { notes }))
}

fn shader(mut line: Line) -> Result<Task, WordFault>
    ensures value { result ≡ shader (line_of line.entry) }
    ensures within { IfOk result ReadsWithin }
{
    let strict = line.begins("--strict");
    if line.begins("--asm") {
        return line.end(Task::Read(Command::ShaderText { strict }));
    }
    line.end(Task::Read(Command::Shader { strict }))
}

fn example(mut line: Line) -> Result<Task, WordFault>
    ensures value { result ≡ example (line_of line.entry) }
    ensures within { IfOk result ReadsWithin }
{
    let number = line.number(Argument::Example)?;
    line.end(Task::Make(number))
}

fn slots(mut line: Line) -> Result<Task, WordFault>
    ensures value { result ≡ slots (line_of line.entry) }
    ensures within { IfOk result ReadsWithin }
{
    let slots = line.number(Argument::SlotCount)?;
    line.end(Task::Read(Command::Slots(slots)))
}

fn queue(mut line: Line) -> Result<Task, WordFault>
    ensures value { result ≡ queue (line_of line.entry) }
    ensures within { IfOk result ReadsWithin }
{
    let buffers = line.number(Argument::Buffers)?;
    line.end(Task::Read(Command::Queue(buffers)))
}

/// What the words behind a command's name ask of it.
fn asked(line: Line) -> Result<Task, WordFault>
    ensures value { result ≡ task_asked line.entry.verb (line_of line.entry) }
    ensures within { IfOk result ReadsWithin }
{
    match line.verb {
        Verb::Check => check(line),
        Verb::Replay => replay(line),
        Verb::Picture => picture(line),
        Verb::Upgrade => line.end(Task::Read(Command::Upgrade)),
        Verb::Bound => line.end(Task::Read(Command::Bound)),
        Verb::Show => show(line),
        Verb::Make => line.end(Task::Read(Command::FromText)),
        Verb::Gen => example(line),
        Verb::Slots => slots(line),
        Verb::Queue => queue(line),
        Verb::Session => line.end(Task::Read(Command::Session)),
        Verb::Untile => Ok(Task::Read(Command::Untile(pictured(line)?))),
        Verb::Tile => Ok(Task::Read(Command::Tile(pictured(line)?))),
        Verb::Level => level(line),
        Verb::Asm => line.end(Task::Read(Command::Asm)),
        Verb::Disasm => disasm(line),
        Verb::Shader => shader(line),
        Verb::Explain => explain(line),
    }
}

/// The task of words before which `-o OUT` may stand.
fn put_out(mut line: Line) -> Result<Task, WordFault>
    ensures value { result ≡ put_out line.entry.verb (line_of line.entry) }
    ensures within { IfOk result ReadsWithin }
{
    if line.begins("-o") {
        line.output()?;
        return asked(line);
    }
    asked(line)
}

/// What a command and the words behind it ask for: `--help` alone, or `-h`, asks what the command does.
fn task_behind(mut line: Line) -> Result<Task, WordFault>
    ensures value { result ≡ task_behind (line_of line.entry) }
    ensures within { IfOk result ReadsWithin }
{
    if line.begins("--help") {
        return line.end(Task::Tell(Topic::Command(line.verb)));
    }
    if line.begins("-h") {
        return line.end(Task::Tell(Topic::Command(line.verb)));
    }
    put_out(line)
}

/// What the program does, or the command that is the only word.
fn help_of(behind: &[String]) -> Result<Task, WordFault>
    ensures value { result ≡ help_of (texts behind.now) }
    ensures within { IfOk result ReadsWithin }
{
    match behind {
        [] => Ok(Task::Tell(Topic::Program)),
        [word] => match verb_named(word.as_str()) {
            Some(verb) => Ok(Task::Tell(Topic::Command(verb))),
            None => Err(WordFault::Unknown(2)),
        },
        _ => Err(WordFault::Alone),
    }
}

/// The program's version, behind which no word stands.
fn version_alone(behind: &[String]) -> Result<Task, WordFault>
    ensures value { result ≡ version_alone (texts behind.now) }
    ensures within { IfOk result ReadsWithin }
{
    if behind.is_empty() {
        return Ok(Task::Tell(Topic::Version));
    }
    Err(WordFault::Alone)
}

/// Why a first word asks for nothing.
fn strange(first: &str) -> WordFault
    ensures { result ≡ strange_by (option_letter first.now) }
{
    match option_letter(first.as_bytes()) {
        Some(letter) => WordFault::NoTopic(nearest_topic(letter)),
        None => WordFault::Unknown(1),
    }
}

/// What a first word that is no command asks for, with these words behind it.
fn topic_named(first: &str, behind: &[String]) -> Result<Task, WordFault>
    ensures value { result ≡ topic_named first.now (texts behind.now) }
    ensures within { IfOk result ReadsWithin }
{
    match first {
        "--help" => help_of(behind),
        "-h" => help_of(behind),
        "help" => help_of(behind),
        "--version" => version_alone(behind),
        "-V" => version_alone(behind),
        _ => Err(strange(first)),
    }
}

/// What the words ask for; or why they ask for nothing that the program does: the first word that isn't what it may be, or that is missing,
/// or the last where there are too many. It takes no memory.
#[tactic(auto, unfolding(crate::specs::Words::task_or_fault))]
pub fn task_of(words: &[String]) -> Result<Task, WordFault>
    ensures value { result ≡ task_or_fault (texts words.now) }
    ensures within { IfOk result ReadsWithin }
{
    let Some((first, behind)) = words.split_first() else {
        return Err(WordFault::Nothing);
    };
    let Some(verb) = verb_named(first.as_str()) else {
        return topic_named(first.as_str(), behind);
    };
    task_behind(Line {
        verb,
        count: words.len(),
        words: behind,
    })
}

fn is_read(task: Result<Task, WordFault>) -> bool
    ensures { result ≡ is_read task }
{
    matches!(task, Ok(Task::Read(_)))
}

/// Whether the last of these words isn't meant as an option.
fn ends_in_name(words: &[String]) -> bool
    ensures { result ≡ is_name (drop (length words.now - 1) words.now) }
{
    match words {
        [.., last] => option_letter(last.as_bytes()).is_none(),
        [] => false,
    }
}

/// Whether the last of these words is the name of a file to read: it isn't meant as an option, all of them ask for nothing, and the words
/// before it for a command that reads. It takes no memory.
pub fn names_file(words: &[String]) -> bool
    ensures { result ≡ names_file words.now }
{
    let count = words.len();
    if count == 0 || !ends_in_name(words) || task_of(words).is_ok() {
        return false;
    }
    is_read(task_of(&words[..count - 1]))
}

/// Whether a word names a command.
#[tactic(auto, unfolding(crate::specs::Words::is_command))]
fn is_command(word: &str) -> bool
    ensures { result ≡ is_command word.now }
{
    verb_named(word).is_some()
}

/// Whether the third of these words is the name of a file for the output: a command and `-o` stand before it.
pub fn names_output(words: &[String]) -> bool
    ensures { result ≡ names_output (texts words.now) }
{
    match words {
        [first, second, _, ..] => is_command(first.as_str()) && second.as_str() == "-o",
        _ => false,
    }
}

/// How much input is more than is read for these words.
pub fn excess_of(words: &[String]) -> &'static str
    ensures { result.now ≡ excess_of (task_or_fault (texts words.now)) }
{
    match task_of(words) {
        Ok(Task::Read(command)) => command.excess(),
        _ => "more than it may have",
    }
}
