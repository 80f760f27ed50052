//! Where a refusal points, as a person reads it.
ghost use Rattle.std.specs.Prelude.{◌≡◌, Some};
ghost use Rattle.rule_words.specs.Spot.{is_one, part_name, count_in, place_text};

use job_format::{Part, Place, Refusal, Stage};
use std::fmt;

/// Whether a file has one such part, which has no number.
#[tactic(auto, unfolding(crate::specs::Spot::is_one))]
fn is_one(part: Part) -> bool
    ensures { result ≡ is_one part }
{
    match part {
        Part::File | Part::Header => true,
        _ => false,
    }
}

/// The name of a part, before its number.
#[tactic(auto, unfolding(crate::specs::Spot::part_name))]
fn part_name(part: Part) -> &'static str
    ensures { result.now ≡ part_name part }
{
    match part {
        Part::File => "file",
        Part::Header => "header",
        Part::Entry => "entry of buffer",
        Part::JobEntry => "entry of job",
        Part::Contents => "contents of buffer",
        Part::Handles => "handles of job",
        Part::BinnerList => "binner list of job",
        Part::Records => "shader records of job",
        Part::Uniforms => "uniforms of job",
    }
}

/// A place as a person counts, where a rule of this stage is broken: the name of what it is in, what is counted there, and its number:
/// an instruction of a shader, a handle, a surface from 1 on, or a byte.
#[tactic(auto, unfolding(crate::specs::Spot::count_in))]
fn count_in(stage: Stage, place: Place) -> (&'static str, &'static str, u64)
    ensures name { result.0.now ≡ (count_in place.part stage place.at).0 }
    ensures unit { result.1.now ≡ (count_in place.part stage place.at).1 }
    ensures number { result.2 ≡ (count_in place.part stage place.at).2 }
{
    match (place.part, stage) {
        (Part::JobEntry, Stage::G) if place.at >= 36 => {
            ("frame of job", "surface", (place.at - 24) / 12)
        }
        (Part::Contents, Stage::S | Stage::E) => ("shader of buffer", "instruction", place.at / 8),
        (Part::Handles, Stage::H) => ("handles of job", "handle", place.at / 4),
        (part, _) => (part_name(part), "byte", place.at),
    }
}

/// The place of a refusal as a person reads it: `shader of buffer 3, instruction 12`. It takes no memory, also to print.
#[derive(Clone, Copy, Debug, PartialEq, Eq)]
pub struct Spot {
    pub refusal: Refusal,
}

impl fmt::Display for Spot {
    ghost output = { λ spot. Some (place_text spot.refusal) };

    #[tactic(auto, unfolding(crate::specs::Spot::place_text, crate::specs::Spot::owner_text))]
    fn fmt<W: fmt::Write>(&self, f: &mut fmt::Formatter<W>) -> fmt::Result {
        let Refusal { rule, place } = self.refusal;
        let (name, unit, number) = count_in(rule.stage, place);
        if is_one(place.part) {
            write!(f, "{}, {} {}", name, unit, number)
        } else {
            write!(f, "{} {}, {} {}", name, place.index, unit, number)
        }
    }
}
