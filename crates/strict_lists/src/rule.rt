//! The strict rules on a binner list.
ghost use Rattle.std.specs.Prelude.{◌≡◌};
ghost use Rattle.strict_lists.specs.Rules.{number_of};

/// A strict rule on a binner list: E9, E10 and E13 in this order.
#[derive(Clone, Copy, Debug, PartialEq, Eq)]
pub enum ListRule {
    PrimitiveKind,
    PrimitiveCount,
    ListFormat,
}

impl ListRule {
    /// The number behind the letter E.
    pub fn number(self) -> u8
        ensures { result ≡ number_of self }
    {
        match self {
            ListRule::PrimitiveKind => 9,
            ListRule::PrimitiveCount => 10,
            ListRule::ListFormat => 13,
        }
    }
}

/// A strict rule that a list breaks, and where the packet begins that does.
#[derive(Clone, Copy, Debug, PartialEq, Eq)]
pub struct ListFault {
    pub rule: ListRule,
    pub at: u32,
}
