//! Options: words that begin with `-`, and which of them a wrong one is near to.
ghost use Rattle.std.specs.Prelude.{◌≡◌, Some};
ghost use Rattle.commands.specs.Choice.{option_letter, choice_text, nearest, nearest_topic};

use super::verb::Verb;
use std::fmt;

/// An option, as a person reads of it.
#[derive(Clone, Copy, Debug, PartialEq, Eq)]
pub enum Choice {
    Help,
    Version,
    Output,
    Strict,
    Quiet,
    Json,
    Draws,
    NoContent,
    Asm,
    Notes,
    Favour,
    Accesses,
    Seeds,
    Run,
    List,
}

impl Choice {
    /// The option's word.
    #[tactic(auto, unfolding(crate::specs::Choice::choice_text))]
    pub fn word(self) -> &'static str
        ensures { result.now ≡ choice_text self }
    {
        match self {
            Choice::Help => "--help",
            Choice::Version => "--version",
            Choice::Output => "-o",
            Choice::Strict => "--strict",
            Choice::Quiet => "--quiet",
            Choice::Json => "--json",
            Choice::Draws => "--draws",
            Choice::NoContent => "--no-content",
            Choice::Asm => "--asm",
            Choice::Notes => "--notes",
            Choice::Favour => "--favour",
            Choice::Accesses => "--accesses",
            Choice::Seeds => "--seeds",
            Choice::Run => "--run",
            Choice::List => "--list",
        }
    }
}

impl fmt::Display for Choice {
    ghost output = { λ choice. Some (choice_text choice) };

    fn fmt<W: fmt::Write>(&self, f: &mut fmt::Formatter<W>) -> fmt::Result {
        f.write_str(self.word())
    }
}

/// The first letter of a word that is meant as an option: behind one dash or two, and no digit, since that is a number below 0. The word
/// `-` alone is a file's name.
#[tactic(auto, unfolding(crate::specs::Choice::option_letter))]
pub fn option_letter(word: &[u8]) -> Option<u8>
    ensures { result ≡ option_letter word.now }
{
    match word {
        [b'-', b'-', letter, ..] => Some(*letter),
        [b'-', letter, ..] if !letter.is_ascii_digit() => Some(*letter),
        _ => None,
    }
}

/// The command's option that begins with this letter, or else `--help`.
#[tactic(auto, unfolding(crate::specs::Choice::nearest))]
pub fn nearest(verb: Verb, letter: u8) -> Choice
    ensures { result ≡ nearest verb letter }
{
    match (verb, letter) {
        (Verb::Check, b's') => Choice::Strict,
        (Verb::Check, b'q') => Choice::Quiet,
        (Verb::Check, b'j') => Choice::Json,
        (Verb::Show, b's') => Choice::Strict,
        (Verb::Show, b'd') => Choice::Draws,
        (Verb::Show, b'n') => Choice::NoContent,
        (Verb::Disasm, b'n') => Choice::Notes,
        (Verb::Shader, b's') => Choice::Strict,
        (Verb::Shader, b'a') => Choice::Asm,
        (Verb::Replay, b'f') => Choice::Favour,
        (Verb::Replay, b'a') => Choice::Accesses,
        (Verb::Replay, b's') => Choice::Seeds,
        (Verb::Picture, b'r') => Choice::Run,
        (Verb::Picture, b'f') => Choice::Favour,
        (Verb::Explain, b'l') => Choice::List,
        (_, b'o') => Choice::Output,
        _ => Choice::Help,
    }
}

/// The option of the program itself that begins with this letter, or else `--help`.
pub fn nearest_topic(letter: u8) -> Choice
    ensures { result ≡ nearest_topic letter }
{
    match letter {
        b'v' => Choice::Version,
        _ => Choice::Help,
    }
}
