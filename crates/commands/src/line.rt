//! Words behind a command's name, which are read one after the other.
ghost use Rattle.std.specs.Prelude.{◌≡◌, ◌∷◌, ◌-◌, [], length, if◌then◌else◌, IfOk, IfSome, MatchResult, OnOk};
ghost use Rattle.commands.specs.declared.word_fault.WordFault.TheVariants.{Missing, Wrong};
ghost use Rattle.commands.specs.Line.{line_of, texts, number_by, given_number, given_seed, given_unit, given_seeds, given_tiling, given_cpp, given_rule, given_kind, given_output, behind, begins, ended, unfit, IsNumberOf};
ghost use Rattle.commands.specs.Trials.{IsRangeWithin};
ghost use Rattle.commands.specs.WordFault.{values_of};
ghost use Rattle.texture_layouts.specs.Surface.{IsPixelSize};

use super::choice::{nearest, option_letter};
use super::surfaces::{pixel_named, tiling_named};
use super::trial::{SeedRange, seeds_named, unit_named};
use super::verb::Verb;
use super::word_fault::{Argument, Values, WordFault};
use replay::UnitKind;
use rule_words::{RuleName, kind_named, rule_named};
use script::read_number;
use texture_layouts::Tiling;

/// The number that the word is, where the argument may be this number.
fn number_named(argument: Argument, word: &str) -> Option<u32>
    ensures value { result ≡ number_by (values_of argument) word.now }
    ensures within { IfSome result (IsNumberOf (values_of argument)) }
{
    let Values::Number(least, most) = argument.values() else {
        return None;
    };
    let number = read_number(word.as_bytes(), u64::from(most))? as u32;
    if number < least {
        return None;
    }
    Some(number)
}

/// The words behind a command that aren't read yet, of so many words in all.
#[derive(Clone, Copy)]
pub(crate) struct Line<'a> {
    pub(crate) verb: Verb,
    pub(crate) count: usize,
    pub(crate) words: &'a [String],
}

impl<'a> Line<'a> {
    /// Reads the next word, which is to be this argument.
    fn word(&mut self, argument: Argument) -> Result<&'a str, WordFault>
        ensures word { MatchResult result (λ word. texts self.old.words.now ≡ word.now ∷ texts self.new.words.now)
            (λ fault. (texts self.old.words.now ≡ []) × (fault ≡ Missing self.old.verb argument)) }
        ensures same { (self.new.verb ≡ self.old.verb) × (self.new.count ≡ self.old.count) }
    {
        let Some((word, more)) = self.words.split_first() else {
            return Err(WordFault::Missing(self.verb, argument));
        };
        self.words = more;
        Ok(word.as_str())
    }

    /// This word may not stand at the place of this number, for this reason, or as an option.
    #[tactic(auto, unfolding(crate::specs::Line::unfit))]
    fn unfit(&self, at: u64, fault: WordFault, word: &str) -> WordFault
        ensures { result ≡ unfit self.now.verb at fault word.now }
    {
        match option_letter(word.as_bytes()) {
            Some(letter) => WordFault::NoOption(self.verb, at, nearest(self.verb, letter)),
            None => fault,
        }
    }

    /// This word, which was read last, isn't this argument.
    fn wrong(&self, word: &str, argument: Argument) -> WordFault
        ensures { result ≡ unfit self.now.verb (self.now.count - length self.now.words.now)
            (Wrong self.now.verb (self.now.count - length self.now.words.now) argument) word.now }
    {
        let at = self.count.saturating_sub(self.words.len()) as u64;
        self.unfit(at, WordFault::Wrong(self.verb, at, argument), word)
    }

    #[tactic(auto, unfolding(crate::specs::Line::given_number))]
    pub(crate) fn number(&mut self, argument: Argument) -> Result<u32, WordFault>
        ensures value { result ≡ given_number argument (line_of self.old) }
        ensures within { IfOk result (IsNumberOf (values_of argument)) }
        ensures left { OnOk result (line_of self.new ≡ behind (line_of self.old)) }
    {
        let word = self.word(argument)?;
        number_named(argument, word).ok_or(self.wrong(word, argument))
    }

    #[tactic(auto, unfolding(crate::specs::Line::given_seed))]
    pub(crate) fn seed(&mut self) -> Result<u64, WordFault>
        ensures value { result ≡ given_seed (line_of self.old) }
        ensures left { OnOk result (line_of self.new ≡ behind (line_of self.old)) }
    {
        let word = self.word(Argument::Seed)?;
        read_number(word.as_bytes(), u64::MAX).ok_or(self.wrong(word, Argument::Seed))
    }

    #[tactic(auto, unfolding(crate::specs::Line::given_unit))]
    pub(crate) fn unit(&mut self) -> Result<UnitKind, WordFault>
        ensures value { result ≡ given_unit (line_of self.old) }
        ensures left { OnOk result (line_of self.new ≡ behind (line_of self.old)) }
    {
        let word = self.word(Argument::Favoured)?;
        unit_named(word).ok_or(self.wrong(word, Argument::Favoured))
    }

    #[tactic(auto, unfolding(crate::specs::Line::given_seeds))]
    pub(crate) fn seeds(&mut self) -> Result<SeedRange, WordFault>
        ensures value { result ≡ given_seeds (line_of self.old) }
        ensures within { IfOk result IsRangeWithin }
        ensures left { OnOk result (line_of self.new ≡ behind (line_of self.old)) }
    {
        let word = self.word(Argument::SeedNumbers)?;
        seeds_named(word).ok_or(self.wrong(word, Argument::SeedNumbers))
    }

    #[tactic(auto, unfolding(crate::specs::Line::given_tiling))]
    pub(crate) fn tiling(&mut self) -> Result<Tiling, WordFault>
        ensures value { result ≡ given_tiling (line_of self.old) }
        ensures left { OnOk result (line_of self.new ≡ behind (line_of self.old)) }
    {
        let word = self.word(Argument::PictureTiling)?;
        tiling_named(word).ok_or(self.wrong(word, Argument::PictureTiling))
    }

    #[tactic(auto, unfolding(crate::specs::Line::given_cpp))]
    pub(crate) fn cpp(&mut self) -> Result<u32, WordFault>
        ensures value { result ≡ given_cpp (line_of self.old) }
        ensures within { IfOk result IsPixelSize }
        ensures left { OnOk result (line_of self.new ≡ behind (line_of self.old)) }
    {
        let word = self.word(Argument::Cpp)?;
        pixel_named(word).ok_or(self.wrong(word, Argument::Cpp))
    }

    #[tactic(auto, unfolding(crate::specs::Line::given_rule))]
    pub(crate) fn rule(&mut self) -> Result<RuleName, WordFault>
        ensures value { result ≡ given_rule (line_of self.old) }
        ensures left { OnOk result (line_of self.new ≡ behind (line_of self.old)) }
    {
        let word = self.word(Argument::Rule)?;
        rule_named(word.as_bytes()).ok_or(self.wrong(word, Argument::Rule))
    }

    #[tactic(auto, unfolding(crate::specs::Line::given_kind))]
    pub(crate) fn kind(&mut self) -> Result<RuleName, WordFault>
        ensures value { result ≡ given_kind (line_of self.old) }
        ensures left { OnOk result (line_of self.new ≡ behind (line_of self.old)) }
    {
        let word = self.word(Argument::Kind)?;
        kind_named(word.as_bytes()).ok_or(self.wrong(word, Argument::Kind))
    }

    /// Reads the name of the output's file.
    #[tactic(auto, unfolding(crate::specs::Line::given_output))]
    pub(crate) fn output(&mut self) -> Result<(), WordFault>
        ensures value { result ≡ given_output (line_of self.old) }
        ensures left { OnOk result (line_of self.new ≡ behind (line_of self.old)) }
    {
        self.word(Argument::Output)?;
        Ok(())
    }

    /// Whether the next word is this one, which is then read.
    pub(crate) fn begins(&mut self, word: &str) -> bool
        ensures value { result ≡ begins word.now (line_of self.old) }
        ensures left { line_of self.new
            ≡ (if result then behind (line_of self.old) else line_of self.old) }
    {
        match self.words {
            [first, more @ ..] if first.as_str() == word => {
                self.words = more;
                true
            }
            _ => false,
        }
    }

    /// What the words ask for, where no word is left.
    pub(crate) fn end<T: Copy>(self, asked: T) -> Result<T, WordFault>
        ensures value { result ≡ ended asked (line_of self.entry) }
        ensures kept { IfOk result (λ given. given ≡ asked) }
    {
        match self.words {
            [] => Ok(asked),
            [word, more @ ..] => {
                let at = self.count.saturating_sub(more.len()) as u64;
                let fault = WordFault::Surplus(self.verb, self.count as u64);
                Err(self.unfit(at, fault, word.as_str()))
            }
        }
    }
}
