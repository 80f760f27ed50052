//! The rules by which a file is refused, as the program prints them.
ghost use Rattle.std.specs.Prelude.{◌≡◌, Some};
ghost use Rattle.job_format.specs.Rules.{letter, rule_text, format_rule_number};

use std::fmt;
use thiserror::Error;

/// The part of the check that a rule belongs to, in the order of refusal: format, memory table,
/// shaders, handles, binner list, shader records, textures, frame and surfaces, layout, and last
/// the strict rules, which are asked where they are wanted.
#[derive(Clone, Copy, Debug, PartialEq, Eq)]
pub enum Stage {
    F,
    M,
    S,
    H,
    B,
    A,
    U,
    G,
    X,
    E,
}

/// A rule, by its letter and number, such as M4.
#[derive(Clone, Copy, Debug, PartialEq, Eq)]
pub struct Rule {
    pub stage: Stage,
    pub number: u8,
}

/// A part of a job file: the file as a whole, its header, the entry of a buffer or of a job, the
/// contents of a buffer, and the four parts of a job.
#[derive(Clone, Copy, Debug, PartialEq, Eq, Error)]
pub enum Part {
    #[error("file")]
    File,
    #[error("header")]
    Header,
    #[error("entry")]
    Entry,
    #[error("job entry")]
    JobEntry,
    #[error("contents")]
    Contents,
    #[error("handles")]
    Handles,
    #[error("binner list")]
    BinnerList,
    #[error("records")]
    Records,
    #[error("uniforms")]
    Uniforms,
}

/// `at` bytes into a part; of a buffer or job, that of number `index`, which is 0 for the file and
/// the header.
#[derive(Clone, Copy, Debug, PartialEq, Eq, Error)]
#[error("byte {at} of {part} {index}")]
pub struct Place {
    pub part: Part,
    pub index: u32,
    pub at: u64,
}

/// Why a file was refused: the first broken rule, and the place that it is about.
#[derive(Clone, Copy, Debug, PartialEq, Eq, Error)]
#[error("{rule} at {place}")]
pub struct Refusal {
    pub rule: Rule,
    pub place: Place,
}

/// The rules of the format.
#[derive(Clone, Copy, Debug, PartialEq, Eq)]
pub enum FormatRule {
    /// The first four bytes aren't `VC4J`, or the version is neither 1 nor 2.
    NotAJobFile,
    /// The file ends before the part's end.
    EndsEarly,
    /// Bytes follow the last part.
    BytesFollow,
    /// A number is over the limit of its version, or there is no job.
    OverLimit,
    /// A field holds what has no meaning.
    WithoutMeaning,
    /// There are tile slots, in version 2, but fewer than jobs.
    LacksSlots,
}

impl FormatRule {
    /// The rule's number, after the letter F.
    pub fn number(self) -> u8
        ensures { result ≡ format_rule_number self }
    {
        match self {
            FormatRule::NotAJobFile => 1,
            FormatRule::EndsEarly => 2,
            FormatRule::BytesFollow => 3,
            FormatRule::OverLimit => 4,
            FormatRule::WithoutMeaning => 5,
            FormatRule::LacksSlots => 7,
        }
    }
}

/// The first broken format rule: F`number`, and the place that it is about.
#[derive(Clone, Copy, Debug, PartialEq, Eq, Error)]
#[error("F{number} at {place}")]
pub struct FormatFault {
    pub number: u8,
    pub place: Place,
}

impl fmt::Display for Stage {
    ghost output = { λ stage. Some (letter stage) };

    fn fmt<W: fmt::Write>(&self, f: &mut fmt::Formatter<W>) -> fmt::Result {
        f.write_str(match self {
            Stage::F => "F",
            Stage::M => "M",
            Stage::S => "S",
            Stage::H => "H",
            Stage::B => "B",
            Stage::A => "A",
            Stage::U => "U",
            Stage::G => "G",
            Stage::X => "X",
            Stage::E => "E",
        })
    }
}

impl fmt::Display for Rule {
    ghost output = { λ rule. Some (rule_text rule) };

    fn fmt<W: fmt::Write>(&self, f: &mut fmt::Formatter<W>) -> fmt::Result {
        write!(f, "{}{}", self.stage, self.number)
    }
}
