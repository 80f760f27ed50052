//! Which of the words is wrong, where they ask for nothing that the program does.
ghost use Rattle.std.specs.Prelude.{◌≡◌, ◌<◌, Some};
ghost use Rattle.commands.specs.WordFault.{argument_row, values_of, values_text, argument_text, surplus_text, strange_option_text, word_fault_text};

use super::choice::Choice;
use super::verb::Verb;
use std::fmt;

/// The most steps of a run.
const MOST_STEPS: u32 = 1_000_000;

/// The most slots of a pool.
const MOST_SLOTS: u32 = 32;

/// The most buffers that jobs of a queue name.
const MOST_QUEUED: u32 = 1024;

/// The most pixels of a picture's side.
const MOST_SIDE: u32 = 4096;

/// What an argument may be.
#[derive(Clone, Copy, Debug, PartialEq, Eq)]
pub enum Values {
    /// A number from one to another, which are among them.
    Number(u32, u32),
    /// Any number of 64 bits.
    SeedNumber,
    /// `t` or `lt`.
    Tiling,
    /// The number of bytes of a pixel.
    Pixel,
    /// The name of a rule.
    RuleName,
    /// The number of a kind of the assembler's faults.
    KindNumber,
    /// A kind of unit.
    UnitName,
    /// Seeds from one to before another.
    Seeds,
    /// The name of a file.
    FileName,
}

/// A word that a command takes behind its name.
#[derive(Clone, Copy, Debug, PartialEq, Eq)]
pub enum Argument {
    Steps,
    Seed,
    Example,
    SlotCount,
    Buffers,
    PictureTiling,
    Cpp,
    Width,
    Height,
    P0,
    P1,
    P2,
    P3,
    Face,
    LevelNumber,
    Rule,
    Kind,
    Favoured,
    SeedNumbers,
    Output,
}

/// Why words ask for nothing that the program does. It is printed as one line without a line feed, and takes no memory, also to print.
#[derive(Clone, Copy, Debug, PartialEq, Eq)]
pub enum WordFault {
    /// There is no word.
    Nothing,
    /// The word of this number is no command.
    Unknown(u64),
    /// Words follow `--version`, or more than one `--help`.
    Alone,
    /// The first word is no option of the program, of which this one is the nearest.
    NoTopic(Choice),
    /// The word of this number is no option that the command takes there, of which this one is the nearest.
    NoOption(Verb, u64, Choice),
    /// The word of this number, from 1 on, isn't what the command takes there.
    Wrong(Verb, u64, Argument),
    /// The command takes one more word.
    Missing(Verb, Argument),
    /// The last word, which has this number, is one too many.
    Surplus(Verb, u64),
}

/// The commands, as a line names them.
const COMMANDS: &str =
    "check, replay, picture, upgrade, bound, show, make, gen, slots, queue, session, untile, tile, level, asm, disasm, shader or explain; vc4check --help says more";

impl Argument {
    /// What the usage calls it, and what it may be.
    fn row(self) -> (&'static str, Values)
        ensures name { result.0.now ≡ (argument_row self).0 }
        ensures values { result.1 ≡ values_of self }
    {
        match self {
            Argument::Steps => ("STEPS", Values::Number(0, MOST_STEPS)),
            Argument::Seed => ("SEED", Values::SeedNumber),
            Argument::Example => ("NUMBER", Values::Number(0, u32::MAX)),
            Argument::SlotCount => ("SLOTS", Values::Number(1, MOST_SLOTS)),
            Argument::Buffers => ("BUFFERS", Values::Number(0, MOST_QUEUED)),
            Argument::PictureTiling => ("TILING", Values::Tiling),
            Argument::Cpp => ("CPP", Values::Pixel),
            Argument::Width => ("WIDTH", Values::Number(1, MOST_SIDE)),
            Argument::Height => ("HEIGHT", Values::Number(1, MOST_SIDE)),
            Argument::P0 => ("P0", Values::Number(0, u32::MAX)),
            Argument::P1 => ("P1", Values::Number(0, u32::MAX)),
            Argument::P2 => ("P2", Values::Number(0, u32::MAX)),
            Argument::P3 => ("P3", Values::Number(0, u32::MAX)),
            Argument::Face => ("FACE", Values::Number(0, u32::MAX)),
            Argument::LevelNumber => ("LEVEL", Values::Number(0, u32::MAX)),
            Argument::Rule => ("RULE", Values::RuleName),
            Argument::Kind => ("RULE", Values::KindNumber),
            Argument::Favoured => ("KIND", Values::UnitName),
            Argument::SeedNumbers => ("A..B", Values::Seeds),
            Argument::Output => ("OUT", Values::FileName),
        }
    }

    /// What the argument may be.
    pub fn values(self) -> Values
        ensures { result ≡ values_of self }
    {
        self.row().1
    }
}

impl fmt::Display for Values {
    ghost output = { λ values. Some (values_text values) };

    #[tactic(auto, unfolding(crate::specs::WordFault::values_text))]
    fn fmt<W: fmt::Write>(&self, f: &mut fmt::Formatter<W>) -> fmt::Result {
        match self {
            Values::Number(least, most) => write!(f, "a number from {} to {}", least, most),
            Values::SeedNumber => f.write_str("a number from 0 to 18446744073709551615"),
            Values::Tiling => f.write_str("t or lt"),
            Values::Pixel => f.write_str("1, 2, 4 or 8"),
            Values::RuleName => f.write_str(
                "a letter of F, M, S, H, B, A, U, G, X, E, O, Q, J and V and a number, such as S24, or kind and a number, or --list for all",
            ),
            Values::KindNumber => {
                f.write_str("the number of a kind of the assembler's faults, from 1 to 5")
            }
            Values::UnitName => f.write_str("qpu, texture, binner or renderer"),
            Values::Seeds => f.write_str("seeds from A to before B, 1 to 1000 of them"),
            Values::FileName => f.write_str("the name of a file"),
        }
    }
}

impl fmt::Display for Argument {
    ghost output = { λ argument. Some (argument_text argument) };

    #[tactic(auto, unfolding(crate::specs::WordFault::argument_text))]
    fn fmt<W: fmt::Write>(&self, f: &mut fmt::Formatter<W>) -> fmt::Result {
        let (name, values) = self.row();
        write!(f, "{} is {}", name, values)
    }
}

/// The word of this number is one too many.
#[derive(Clone, Copy)]
struct SurplusWord {
    at: u64,
}

impl fmt::Display for SurplusWord {
    ghost output = { λ word. Some (surplus_text word.at) };

    #[tactic(auto, unfolding(crate::specs::WordFault::surplus_text))]
    fn fmt<W: fmt::Write>(&self, f: &mut fmt::Formatter<W>) -> fmt::Result {
        write!(f, "word {} is one too many", self.at)
    }
}

/// The word of this number is no option that may stand there, of which this one is the nearest.
#[derive(Clone, Copy)]
struct StrangeOption {
    at: u64,
    choice: Choice,
}

impl fmt::Display for StrangeOption {
    ghost output = { λ word. Some (strange_option_text word.at word.choice) };

    #[tactic(auto, unfolding(crate::specs::WordFault::strange_option_text))]
    fn fmt<W: fmt::Write>(&self, f: &mut fmt::Formatter<W>) -> fmt::Result {
        write!(
            f,
            "word {} is no option that may stand here; the nearest is {}",
            self.at, self.choice
        )
    }
}

impl fmt::Display for WordFault {
    ghost output = { λ fault. Some (word_fault_text fault) };

    #[tactic(auto, unfolding(crate::specs::WordFault::word_fault_text))]
    fn fmt<W: fmt::Write>(&self, f: &mut fmt::Formatter<W>) -> fmt::Result {
        match self {
            WordFault::Nothing => write!(
                f,
                "vc4check: a command is missing, which is {}",
                COMMANDS
            ),
            WordFault::Unknown(at) => write!(
                f,
                "vc4check: word {} is no command, which is {}",
                at, COMMANDS
            ),
            WordFault::Alone => {
                f.write_str("vc4check: --version stands alone, and --help with one command at most")
            }
            WordFault::NoTopic(choice) => write!(
                f,
                "vc4check: word 1 is no option of the program; the nearest is {}; usage: vc4check COMMAND [WORDS] [FILE]",
                choice
            ),
            WordFault::NoOption(verb, at, choice) => {
                let word = StrangeOption {
                    at: *at,
                    choice: *choice,
                };
                write!(f, "vc4check: {}; usage: vc4check {}", word, verb)
            }
            WordFault::Wrong(verb, at, argument) => write!(
                f,
                "vc4check: word {} is wrong: {}; usage: vc4check {}",
                at, argument, verb
            ),
            WordFault::Missing(verb, argument) => write!(
                f,
                "vc4check: a word is missing: {}; usage: vc4check {}",
                argument, verb
            ),
            WordFault::Surplus(verb, at) => {
                let word = SurplusWord { at: *at };
                write!(f, "vc4check: {}; usage: vc4check {}", word, verb)
            }
        }
    }
}
