//! What a person reads of a refusal, in one line.
ghost use Rattle.std.specs.Prelude.{◌≡◌, Some, IfOk};
ghost use Rattle.refusal_facts.specs.Line.{front_text, end_text, line_text, line_of};

use crate::fact::Facts;
use crate::facts::facts_of;
use field_words::NoMemory;
use job_format::{Refusal, Rule};
use rule_words::{RuleName, Spot};
use std::alloc::Global;
use std::fmt;

/// A refusal as a person reads it: the rule, its sentence, which is `there is no rule of this name` where there is none, the place, and
/// the facts. It is printed as `vc4check: F2: SENTENCE (header, byte 0) [needs 36 bytes, has 12]; see vc4check explain F2`, without a line
/// feed, and takes no memory, also to print.
#[derive(Clone, Copy, Debug, PartialEq, Eq)]
pub struct Line {
    pub refusal: Refusal,
    pub facts: Facts,
}

/// The front of a line: the rule, its sentence and the place.
#[derive(Clone, Copy)]
struct Front {
    refusal: Refusal,
}

impl fmt::Display for Front {
    ghost output = { λ front. Some (front_text front.refusal) };

    #[tactic(auto, unfolding(crate::specs::Line::front_text))]
    fn fmt<W: fmt::Write>(&self, f: &mut fmt::Formatter<W>) -> fmt::Result {
        let refusal = self.refusal;
        let rule = refusal.rule;
        let sentence = RuleName::of_rule(rule).sentence();
        let place = Spot { refusal };
        write!(f, "vc4check: {}: {} ({})", rule, sentence, place)
    }
}

/// The end of a line: where there is more to read.
#[derive(Clone, Copy)]
struct End {
    rule: Rule,
}

impl fmt::Display for End {
    ghost output = { λ end. Some (end_text end.rule) };

    #[tactic(auto, unfolding(crate::specs::Line::end_text))]
    fn fmt<W: fmt::Write>(&self, f: &mut fmt::Formatter<W>) -> fmt::Result {
        write!(f, "; see vc4check explain {}", self.rule)
    }
}

impl fmt::Display for Line {
    ghost output = { λ line. Some (line_text line) };

    #[tactic(auto, unfolding(crate::specs::Line::line_text))]
    fn fmt<W: fmt::Write>(&self, f: &mut fmt::Formatter<W>) -> fmt::Result {
        let refusal = self.refusal;
        let front = Front { refusal };
        let end = End { rule: refusal.rule };
        write!(f, "{}{}{}", front, self.facts, end)
    }
}

/// The line of a refusal of these bytes.
pub fn line_of(alloc: Global, bytes: &[u8], refusal: Refusal) -> Result<Line, NoMemory>
    ensures { IfOk result (λ line. line ≡ line_of bytes.now refusal) }
{
    let facts = facts_of(alloc, bytes, refusal)?;
    Ok(Line { refusal, facts })
}
