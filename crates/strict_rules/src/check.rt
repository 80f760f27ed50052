//! The strict check of a shader.
ghost use Rattle.std.specs.Prelude.{IfErr};
ghost use Rattle.field_words.specs.Least.{IsLeast};
ghost use Rattle.field_words.specs.Questions.{GoesOn};
ghost use Rattle.shader_flow.specs.Flow.{IsFlow};
ghost use Rattle.strict_rules.specs.Least.{IsUpTo};
ghost use Rattle.strict_rules.specs.Rules.{strict_questions};

use crate::here::Here;
use crate::rule::StrictFault;
use crate::rules::broken;
use crate::step::{start, step};
use shader_flow::{Flow, checked};

/// Asks the strict rules E1 to E7 of a shader, at each checked instruction in the order of the indexes. A fault is the first
/// rule that is broken, by index and then by number; there is none if and only if no rule is broken anywhere.
pub fn check_strict(code: &[u64], flow: &Flow) -> Result<(), StrictFault>
    requires { IsFlow code.now flow.now }
    ensures answers { GoesOn (strict_questions code.now) (λ made. Unit {0}) result }
    ensures least { IfErr result (λ fault. IsLeast IsUpTo (strict_questions code.now) fault) }
{
    let last = checked(code, flow.end);
    let mut walked = start(code);
    for at in 0..last {
        let here = Here {
            code,
            flow,
            at,
            walked: &walked,
        };
        if let Some(rule) = broken(&here) {
            return Err(StrictFault {
                rule,
                at: at as u32,
            });
        }
        step(code, last, at, &mut walked);
    }
    Ok(())
}
