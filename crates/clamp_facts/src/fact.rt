//! What can be known of a register.
ghost use Rattle.std.specs.Prelude.{◌≡◌};
ghost use Rattle.clamp_facts.specs.Readings.{is_value, has_bound, bound_in, is_from_zero};

/// What is known of a register's value.
#[derive(Clone, Copy, Debug, PartialEq, Eq)]
pub enum Fact {
    /// Nothing.
    Nothing,
    /// It is this value.
    Immediate(u32),
    /// It isn't negative as a signed number.
    NotNegative,
    /// It is a number from 0 up to uniform `k`, by the minimum with that uniform at index `at`.
    Clamped { k: u32, at: u32 },
}

/// What the table keeps of a register: a fact, and the index of the instruction that made it.
#[derive(Clone, Copy, Debug, PartialEq, Eq)]
pub struct Entry {
    pub fact: Fact,
    pub place: u32,
}

impl Fact {
    /// Whether it says that the register is this value.
    pub fn is_value(self, value: u32) -> bool
        ensures { result ≡ is_value self value }
    {
        matches!(self, Fact::Immediate(held) if held == value)
    }

    /// Whether it says that the register isn't negative, and no more.
    pub fn is_from_zero(self) -> bool
        ensures { result ≡ is_from_zero self }
    {
        matches!(self, Fact::NotNegative)
    }

    /// Whether it says that a uniform bounds the register.
    pub fn has_bound(self) -> bool
        ensures { result ≡ has_bound self }
    {
        matches!(self, Fact::Clamped { .. })
    }

    /// The number of the uniform that bounds the register.
    pub fn bound(self) -> Option<u32>
        ensures { result ≡ bound_in self }
    {
        match self {
            Fact::Clamped { k, .. } => Some(k),
            _ => None,
        }
    }
}
