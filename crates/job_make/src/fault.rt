//! What a text is refused for.
ghost use Rattle.std.specs.Prelude.{◌≡◌};
ghost use Rattle.job_make.specs.Sentences.{sentence_of};

use rule_words::{Family, RuleName};

/// What is wrong at a place of a text.
#[derive(Clone, Copy, Debug, PartialEq, Eq)]
pub enum Mistake {
    /// A character is neither a hexadecimal digit nor a blank.
    WrongCharacter,
    /// A digit has no other digit right behind it.
    LoneDigit,
    /// What stands behind `u8:`, `u16:` or `u32:` is no number of so many bits.
    WrongNumber,
    /// No section has the name behind `len:`.
    UnknownSection,
    /// A later section has the same name.
    SecondSection,
    /// No line that says `end` comes behind an `asm`.
    NoEnd,
    /// The assembler text between `asm` and `end` is too long.
    LongBlock,
    /// The assembler's text has a fault of the kind of this number.
    Assembler(u8),
}

impl Mistake {
    /// The mistake as a sentence.
    pub fn sentence(self) -> &'static str
        ensures { result.now ≡ sentence_of self }
    {
        match self {
            Mistake::WrongCharacter | Mistake::LoneDigit =>
                "here may stand two hexadecimal digits a byte, u8:, u16: or u32: and a number, asm, or # and a note",
            Mistake::WrongNumber =>
                "a number is decimal, or 0x and hexadecimal digits, and fits in its bytes",
            Mistake::UnknownSection => "no line says section and this name",
            Mistake::SecondSection => "a later line says section and this name",
            Mistake::NoEnd => "no line behind asm says end",
            Mistake::LongBlock => "assembler text has fewer than 4294967295 bytes",
            Mistake::Assembler(kind) => RuleName::new(Family::Kind, kind).sentence(),
        }
    }
}

/// A fault of a text: where it is, in bytes, and what it is. Lines and columns count from 1.
#[derive(Clone, Copy, Debug, PartialEq, Eq)]
pub struct MakeFault {
    pub line: usize,
    pub column: usize,
    pub mistake: Mistake,
}

impl MakeFault {
    pub(crate) fn new(line: usize, column: usize, mistake: Mistake) -> MakeFault
        ensures { result ≡ record { line = line; column = column; mistake = mistake } }
    {
        MakeFault {
            line,
            column,
            mistake,
        }
    }
}
