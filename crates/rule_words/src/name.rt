//! The names of rules, and their words.
ghost use Rattle.std.specs.Prelude.{◌≡◌, option_map, Some, IfOk};
ghost use Rattle.rule_words.specs.Names.{name_of, texts_in, rows_in, rows_of, words_in, text_of, words_of, sentence_of, family_text, name_text, explanation_of, family_named, known_rule, rule_named, kind_named};

use crate::answers::{ASSEMBLER, LEVELS, QUEUE, SESSION, SLOTS};
use crate::format::{FORMAT, HANDLES, LAYOUT, TABLE};
use crate::lists::LISTS;
use crate::records::{RECORDS, TEXTURES};
use crate::shaders::SHADERS;
use crate::strict::STRICT;
use crate::surfaces::SURFACES;
use job_format::{Rule, Stage};
use script::read_number;
use std::alloc::{AllocError, Global};
use std::fmt;

/// Who refuses by a rule: a stage of the check, the slot allocator (O), the queue (Q), sessions (J), `level` (V), and the assembler,
/// whose rules are kinds of faults.
#[derive(Clone, Copy, Debug, PartialEq, Eq)]
pub enum Family {
    Check(Stage),
    O,
    Q,
    J,
    V,
    Kind,
}

/// A rule in words: a sentence that says what is wrong, without a full stop, and what else there is to say of it, in one or more
/// lines: why the rule is there, where its offset points, the usual cause and what mends it.
#[derive(Clone, Copy, Debug, PartialEq, Eq)]
pub struct Words {
    pub sentence: &'static str,
    pub explanation: &'static str,
}

/// A rule by its family and number, such as `S24`, or `kind 3` of the assembler.
#[derive(Clone, Copy, Debug, PartialEq, Eq)]
pub struct RuleName {
    pub family: Family,
    pub number: u8,
}

impl Family {
    /// The family of a letter, in either case.
    #[tactic(auto, unfolding(crate::specs::Names::family_named))]
    pub fn of_letter(letter: u8) -> Option<Family>
        ensures { result ≡ family_named letter }
    {
        Some(match letter.to_ascii_uppercase() {
            b'F' => Family::Check(Stage::F),
            b'M' => Family::Check(Stage::M),
            b'S' => Family::Check(Stage::S),
            b'H' => Family::Check(Stage::H),
            b'B' => Family::Check(Stage::B),
            b'A' => Family::Check(Stage::A),
            b'U' => Family::Check(Stage::U),
            b'G' => Family::Check(Stage::G),
            b'X' => Family::Check(Stage::X),
            b'E' => Family::Check(Stage::E),
            b'O' => Family::O,
            b'Q' => Family::Q,
            b'J' => Family::J,
            b'V' => Family::V,
            _ => return None,
        })
    }

    /// The texts of its rules, by number.
    #[tactic(auto, unfolding(crate::specs::Names::rows_of))]
    fn rows(self) -> &'static [&'static str]
        ensures { texts_in result.now ≡ rows_of self }
    {
        match self {
            Family::Check(stage) => rows_in(stage),
            Family::O => &SLOTS,
            Family::Q => &QUEUE,
            Family::J => &SESSION,
            Family::V => &LEVELS,
            Family::Kind => &ASSEMBLER,
        }
    }
}

/// The texts of a stage's rules, by number.
#[tactic(auto, unfolding(crate::specs::Names::rows_in))]
fn rows_in(stage: Stage) -> &'static [&'static str]
    ensures { texts_in result.now ≡ rows_in stage }
{
    match stage {
        Stage::F => &FORMAT,
        Stage::M => &TABLE,
        Stage::S => &SHADERS,
        Stage::H => &HANDLES,
        Stage::B => &LISTS,
        Stage::A => &RECORDS,
        Stage::U => &TEXTURES,
        Stage::G => &SURFACES,
        Stage::X => &LAYOUT,
        Stage::E => &STRICT,
    }
}

/// The words of a table's text: the sentence stands before its first line feed. `None` comes where it has none, so no rule has this text.
fn words_in(text: &'static str) -> Option<Words>
    ensures { option_map text_of result ≡ words_in text.now }
{
    let (sentence, explanation) = text.split_once('\n')?;
    Some(Words {
        sentence,
        explanation,
    })
}

impl RuleName {
    /// The name of the rule of this number.
    pub fn new(family: Family, number: u8) -> RuleName
        ensures { result ≡ record { family = family; number = number } }
    {
        RuleName { family, number }
    }

    /// The name of a rule of the check.
    pub fn of_rule(rule: Rule) -> RuleName
        ensures { result ≡ name_of rule }
    {
        RuleName::new(Family::Check(rule.stage), rule.number)
    }

    /// What there is to say of the rule. `None` comes where there is no rule of this name. It takes no memory.
    #[tactic(auto, unfolding(crate::specs::Names::words_of))]
    pub fn words(self) -> Option<Words>
        ensures { option_map text_of result ≡ words_of self }
    {
        let row = usize::from(self.number).checked_sub(1)?;
        words_in(self.family.rows().get(row)?)
    }

    /// What is wrong where the rule refuses: one line, without a full stop. It is `there is no rule of this name` where there is none.
    #[tactic(auto, unfolding(crate::specs::Names::sentence_of))]
    pub fn sentence(self) -> &'static str
        ensures { result.now ≡ sentence_of self }
    {
        match self.words() {
            Some(words) => words.sentence,
            None => "there is no rule of this name",
        }
    }
}

impl fmt::Display for Family {
    ghost output = { λ family. Some (family_text family) };

    #[tactic(auto, unfolding(crate::specs::Names::family_text))]
    fn fmt<W: fmt::Write>(&self, f: &mut fmt::Formatter<W>) -> fmt::Result {
        match self {
            Family::Check(stage) => write!(f, "{}", stage),
            Family::O => f.write_str("O"),
            Family::Q => f.write_str("Q"),
            Family::J => f.write_str("J"),
            Family::V => f.write_str("V"),
            Family::Kind => f.write_str("kind "),
        }
    }
}

impl fmt::Display for RuleName {
    ghost output = { λ name. Some (name_text name) };

    #[tactic(auto, unfolding(crate::specs::Names::name_text))]
    fn fmt<W: fmt::Write>(&self, f: &mut fmt::Formatter<W>) -> fmt::Result {
        write!(f, "{}{}", self.family, self.number)
    }
}

/// All that is said of a rule: its name and its sentence, an empty line, and its explanation. The text is empty where there is no rule
/// of this name.
#[tactic(auto, unfolding(crate::specs::Names::explanation_of, crate::specs::Names::explained_by))]
pub fn explain(alloc: Global, name: RuleName) -> Result<Vec<u8>, AllocError>
    ensures { IfOk result (λ text. text.items ≡ explanation_of name) }
{
    match name.words() {
        Some(words) => Ok(format!(in alloc;
            "{name}: {}.\n\n{}\n",
            words.sentence, words.explanation
        )?.into_bytes()),
        None => Ok(Vec::new(alloc)),
    }
}

// The rule, where there is one of this name.
#[tactic(auto, unfolding(crate::specs::Names::known_rule))]
fn known(name: RuleName) -> Option<RuleName>
    ensures { result ≡ known_rule name }
{
    match name.words() {
        Some(_) => Some(name),
        None => None,
    }
}

/// The rule of this name, which is a letter in either case and a number: `S24`, `s24`. `None` comes where there is no rule of this
/// name. It takes no memory.
#[tactic(auto, unfolding(crate::specs::Names::rule_named))]
pub fn rule_named(word: &[u8]) -> Option<RuleName>
    ensures { result ≡ rule_named word.now }
{
    match word {
        [letter, digits @ ..] => {
            let family = Family::of_letter(*letter)?;
            let number = read_number(digits, 255)? as u8;
            known(RuleName::new(family, number))
        }
        [] => None,
    }
}

/// The kind of the assembler's faults that has this number. It takes no memory.
#[tactic(auto, unfolding(crate::specs::Names::kind_named))]
pub fn kind_named(digits: &[u8]) -> Option<RuleName>
    ensures { result ≡ kind_named digits.now }
{
    let number = read_number(digits, 255)? as u8;
    known(RuleName::new(Family::Kind, number))
}
