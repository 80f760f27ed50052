//! The command `gen`.
ghost use Rattle.std.specs.Prelude.{◌≡◌, ◌≢◌, ◌<◌, ◌⊎◌, IfOk};
ghost use Rattle.commands.specs.Answer.{text_of, IsExampleAnswer};
ghost use Rattle.commands.specs.Run.{IsAnswered, IsCut, FailsAt};

use super::answer::{Answer, reply};
use dumper::example_text;
use example_job::make_job;
use field_words::{NoMemory, Stop};
use job_check::check_bytes;
use job_io::Sink;
use std::alloc::Global;

/// What becomes of the example of this number. No rule is broken by it.
#[tactic(auto, unfolding(crate::specs::Answer::text_of), using(example_law::proofs::Whole::never_refused))]
fn example_answer(alloc: Global, number: u32) -> Result<Answer, NoMemory>
    ensures { IfOk result (λ a. IsExampleAnswer number a.status a.text.items) }
{
    let bytes = make_job(alloc, number)?;
    match check_bytes(alloc, &bytes) {
        Ok(checked) => {
            let input = bytes.len() as u64;
            let text = example_text(alloc, number, input, &checked.memory, &checked.lengths[0])?;
            Ok(Answer {
                status: 0,
                text,
                cause: None,
            })
        }
        Err(Stop::Fault(_)) => unreachable!(),
        Err(Stop::NoMemory) => Err(NoMemory),
    }
}

/// Makes the example of this number, and appends what becomes of it to the sink. All memory is taken before the first byte is
/// written. Status 0 is done, 4 is a fault of the sink, and 5 want of memory.
pub fn make<K: Sink>(alloc: Global, number: u32, sink: &mut K) -> u8
    ensures statuses { (result ≡ 0) ⊎ ((result ≡ 4) ⊎ (result ≡ 5)) }
    ensures write { FailsAt K.held K.faults sink.old sink.new 4 result }
    ensures made { result < 2 → IsAnswered (IsExampleAnswer number) result (K.held sink.old)
        (K.held sink.new) }
    ensures cut { result ≡ 4 → IsCut (IsExampleAnswer number) (K.held sink.old) (K.held sink.new) }
    ensures nothing { 1 < result → result ≢ 4 → sink.new ≡ sink.old }
{
    let Ok(answer) = example_answer(alloc, number) else {
        return 5;
    };
    reply(sink, &answer)
}
