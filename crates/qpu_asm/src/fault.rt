//! What a text is refused for.
ghost use Rattle.std.specs.Prelude.{◌≡◌};
ghost use Rattle.qpu_asm.specs.Items.{mistake_number};

/// What is wrong on a line.
#[derive(Clone, Copy, Debug, PartialEq, Eq)]
pub enum Mistake {
    /// The first word or an item's name is unknown, an item lacks `=`, `nop` has items, or a label's line is malformed.
    UnknownWord,
    /// A value is no number or name, an item is repeated or out of order, or `imm` and `to` stand together.
    BadOperand,
    /// A number is over its field.
    OutOfRange,
    /// `to` names no label of the text.
    UnknownLabel,
    /// A label was defined on an earlier line.
    LabelTwice,
}

impl Mistake {
    /// The kind's number.
    pub fn number(self) -> u8
        ensures { result ≡ mistake_number self }
    {
        match self {
            Mistake::UnknownWord => 1,
            Mistake::BadOperand => 2,
            Mistake::OutOfRange => 3,
            Mistake::UnknownLabel => 4,
            Mistake::LabelTwice => 5,
        }
    }
}

/// The first fault of an assembler's text: the least line that has one, counted from 1, and the least kind there.
#[derive(Clone, Copy, Debug, PartialEq, Eq)]
pub struct AsmFault {
    pub line: u32,
    pub kind: u8,
}
