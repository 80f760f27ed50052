//! The strict rules on shaders, and where one is broken.
ghost use Rattle.std.specs.Prelude.{◌≡◌};
ghost use Rattle.strict_rules.specs.Least.{number_of};

/// A strict rule on shaders, E1 to E7 in this order.
#[derive(Clone, Copy, Debug, PartialEq, Eq)]
pub enum StrictRule {
    SetupAtSwitch,
    SetupAtEnd,
    Requests,
    Stretch,
    LastThree,
    Coupled,
    Mutex,
}

impl StrictRule {
    /// The number behind the letter E.
    pub fn number(self) -> u8
        ensures { result ≡ number_of self }
    {
        match self {
            StrictRule::SetupAtSwitch => 1,
            StrictRule::SetupAtEnd => 2,
            StrictRule::Requests => 3,
            StrictRule::Stretch => 4,
            StrictRule::LastThree => 5,
            StrictRule::Coupled => 6,
            StrictRule::Mutex => 7,
        }
    }
}

/// A strict rule that a shader breaks, and the index of the instruction where it does.
#[derive(Clone, Copy, Debug, PartialEq, Eq)]
pub struct StrictFault {
    pub rule: StrictRule,
    pub at: u32,
}
