//! A command from its input to its text in the sink.
ghost use Rattle.std.specs.Prelude.{◌≡◌, ◌≢◌, ◌≤◌, ◌<◌, ◌⊎◌, ◌↔◌, true, false, None, length, IfOk, IfSome};
ghost use Rattle.std.specs.Io.KnownBytes.{IsAtEnd};
ghost use Rattle.job_io.specs.Faults.{Rose};
ghost use Rattle.job_io.specs.Traffic.{count_taken};
ghost use Rattle.commands.specs.Answer.{IsAnswer, IsReplyTo};
ghost use Rattle.commands.specs.Cause.{IsCause, is_reported};
ghost use Rattle.commands.specs.Run.{IsAnswered, IsCut, FailsAt};
ghost use Rattle.commands.specs.Words.{limit_of, IsWithin};

use super::asm::asm_answer;
use super::bound::bound_answer;
use super::cause::Cause;
use super::check::check_answer;
use super::command::Command;
use super::disasm::disasm_answer;
use super::make::make_answer;
use super::picture::picture_answer;
use super::replays::replay_answer;
use super::reply::{Reply, print};
use super::scripts::{queue_answer, session_answer, slots_answer};
use super::shader::{shader_answer, shader_text_answer};
use super::show::show_answer;
use super::surfaces::{level_answer, tile_answer, untile_answer};
use super::upgrade::upgrade_answer;
use super::verdict::verdict_answer;
use entry::Ended;
use field_words::NoMemory;
use job_io::{ReadEnd, Sink, Source, read_all};
use std::alloc::Global;

/// What the command answers to these bytes.
fn answer_to(alloc: Global, command: Command, bytes: &[u8]) -> Result<Reply<'_>, NoMemory>
    requires few { length bytes.now ≤ limit_of command }
    requires within { IsWithin command }
    ensures { IfOk result (IsReplyTo command bytes.now) }
{
    let answer = match command {
        Command::Check { strict } => return check_answer(alloc, strict, bytes),
        Command::Verdict { strict, form } => verdict_answer(alloc, strict, form, bytes),
        Command::Runs { headed, trial } => replay_answer(alloc, headed, trial, bytes),
        Command::Drawn => picture_answer(alloc, bytes),
        Command::Upgrade => upgrade_answer(alloc, bytes),
        Command::Bound => bound_answer(alloc, bytes),
        Command::Show(showing) => show_answer(alloc, showing, bytes),
        Command::FromText => make_answer(alloc, bytes),
        Command::Asm => asm_answer(alloc, bytes),
        Command::Disasm { notes } => disasm_answer(alloc, notes, bytes),
        Command::Shader { strict } => shader_answer(alloc, strict, bytes),
        Command::ShaderText { strict } => shader_text_answer(alloc, strict, bytes),
        Command::Slots(slots) => slots_answer(alloc, slots, bytes),
        Command::Queue(buffers) => queue_answer(alloc, buffers, bytes),
        Command::Session => session_answer(alloc, bytes),
        Command::Untile(picture) => untile_answer(alloc, picture, bytes),
        Command::Tile(picture) => tile_answer(alloc, picture, bytes),
        Command::Level(part) => level_answer(alloc, part, bytes),
    };
    Ok(Reply::Text(answer?))
}

// The cause goes with the statuses of which something is reported.
fn ended(command: Command, status: u8, cause: Option<Cause>) -> Ended<Cause>
    ensures status { result.status ≡ status }
    ensures report { is_reported command status ≡ true → result.cause ≡ cause }
    ensures quiet { is_reported command status ≡ false → result.cause ≡ None }
{
    if command.is_reported(status) {
        Ended { status, cause }
    } else {
        Ended::silent(status)
    }
}

/// Appends the answer to these bytes to the sink, and says what a person reads of them. All memory is taken before the first byte is written.
fn respond<K: Sink>(alloc: Global, command: Command, bytes: &[u8], sink: &mut K) -> Ended<Cause>
    requires few { length bytes.now ≤ limit_of command }
    requires within { IsWithin command }
    ensures statuses { (result.status < 2) ⊎ ((result.status ≡ 4) ⊎ (result.status ≡ 5)) }
    ensures short { result.status ≢ 6 }
    ensures write { FailsAt K.held K.faults sink.old sink.new 4 result.status }
    ensures answered { result.status < 2
        → IsAnswered (IsAnswer command bytes.now) result.status (K.held sink.old)
        (K.held sink.new) }
    ensures cut { result.status ≡ 4
        → IsCut (IsAnswer command bytes.now) (K.held sink.old) (K.held sink.new) }
    ensures nothing { 1 < result.status → result.status ≢ 4 → sink.new ≡ sink.old }
    ensures cause { is_reported command result.status ≡ true → IsCause command bytes.now result.cause }
    ensures quiet { is_reported command result.status ≡ false → result.cause ≡ None }
{
    let Ok(answer) = answer_to(alloc, command, bytes) else {
        return Ended::silent(5);
    };
    let why = answer.cause();
    ended(command, print(sink, answer), why)
}

/// Reads all of the command's input, appends its answer to the sink, and says what a person reads of the input. All memory is taken before the
/// first byte is written.
///
/// Status 0 is done and 1 refused, of which, and of 4, all input was read; 3 and 4 are faults of the source and of the sink, 5 is want of
/// memory, and 6 is more input than the command's limit.
pub fn serve<S: Source, K: Sink>(
    alloc: Global,
    command: Command,
    source: &mut S,
    sink: &mut K,
) -> Ended<Cause>
    requires { IsWithin command }
    ensures statuses { result.status ≤ 6 }
    ensures asked { result.status ≢ 2 }
    ensures read { FailsAt S.left S.faults source.old source.new 3 result.status }
    ensures write { FailsAt K.held K.faults sink.old sink.new 4 result.status }
    ensures all { ((result.status < 2) ⊎ (result.status ≡ 4)) → IsAtEnd (S.left source.new) }
    ensures long { IfSome (S.left source.old) (λ _. (result.status ≡ 6) ↔
        (limit_of command < count_taken (S.left source.old) (S.left source.new))) }
    ensures within { IfSome (S.left source.old)
        (λ bytes. length bytes ≤ limit_of command → result.status ≢ 6) }
    ensures answered { result.status < 2 → IfSome (S.left source.old) (λ bytes.
        IsAnswered (IsAnswer command bytes) result.status (K.held sink.old) (K.held sink.new)) }
    ensures cut { result.status ≡ 4 → IfSome (S.left source.old) (λ bytes.
        IsCut (IsAnswer command bytes) (K.held sink.old) (K.held sink.new)) }
    ensures complete { (Rose (S.faults source.old) (S.faults source.new) → ⊥)
        → (Rose (K.faults sink.old) (K.faults sink.new) → ⊥)
        → result.status ≢ 6 → ((result.status < 2) ⊎ (result.status ≡ 5)) }
    ensures nothing { 1 < result.status → result.status ≢ 4 → sink.new ≡ sink.old }
    ensures cause { is_reported command result.status ≡ true
        → IfSome (S.left source.old) (λ bytes. IsCause command bytes result.cause) }
    ensures quiet { is_reported command result.status ≡ false → result.cause ≡ None }
{
    match read_all(alloc, source, command.limit()) {
        Err(ReadEnd::ReadFault) => Ended::silent(3),
        Err(ReadEnd::TooLong) => Ended::silent(6),
        Err(ReadEnd::NoMemory) => Ended::silent(5),
        Ok(bytes) => respond(alloc, command, &bytes, sink),
    }
}
