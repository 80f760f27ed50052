//! The first instruction at which a program may wait for ever.
ghost use Rattle.std.specs.Prelude.{◌≡◌};
ghost use Rattle.field_words.specs.Questions.{first_of};
ghost use Rattle.shader_flow.specs.Flow.{IsFlow};
ghost use Rattle.strict_rules.specs.Rules.{wait_questions};

use crate::here::Here;
use crate::rules::waits;
use crate::step::{start, step};
use shader_flow::{Flow, checked};

/// The first checked instruction at which a program may wait for ever, by the room that the hardware has: it loads what nobody asked
/// for, writes to a texture and memory unit (TMU) that has no slot for a set-up word or no room for a result, or stands where ways
/// meet while a request is outstanding. The program end is such an instruction where it leaves set-up words or requests, whose room a
/// later program lacks.
pub fn first_wait(code: &[u64], flow: &Flow) -> Option<u32>
    requires { IsFlow code.now flow.now }
    ensures { result ≡ first_of (wait_questions code.now) }
{
    let last = checked(code, flow.end);
    let mut walked = start(code);
    for at in 0..last {
        let here = Here {
            code,
            flow,
            at,
            walked: &walked,
        };
        if waits(&here) {
            return Some(at as u32);
        }
        step(code, last, at, &mut walked);
    }
    None
}
