//! The rules of a binner list.
ghost use Rattle.std.specs.Prelude.{◌≡◌};
ghost use Rattle.bin_list.specs.Faults.{number_of};

/// A rule of a binner list, B1 to B19 in this order.
#[derive(Clone, Copy, Debug, PartialEq, Eq)]
pub enum BinRule {
    /// No packet has this opcode.
    UnknownOpcode,
    /// The packet goes past the list's end.
    CutOff,
    /// A flush isn't the list's last byte.
    FlushNotLast,
    /// A start of binning follows another.
    SecondStart,
    /// A start of binning has no configuration before it.
    StartWithoutConfig,
    /// An increment of the semaphore isn't the list's last byte but one.
    IncrementNotLast,
    /// A primitive has no shader state before it.
    PrimitiveWithoutState,
    /// A primitive has no start of binning before it.
    PrimitiveWithoutStart,
    /// The handle of the index buffer names no data buffer.
    NoIndexBuffer,
    /// The indexes end past their buffer.
    IndexesOutside,
    /// The first index and the length of an array primitive add up to 2^32 or more.
    IndexOverflow,
    /// There are more shader states than declared.
    UndeclaredState,
    /// A shader state's word has a bit above bit 3.
    StateBits,
    /// A configuration follows another.
    SecondConfig,
    /// There are no tiles across or down.
    NoTiles,
    /// Bit 7 or bit 1 of a configuration's flags is set.
    ConfigFlags,
    /// A tile slot has no room for so many tiles.
    TooManyTiles,
    /// The list has no start of binning.
    NoStart,
    /// The list doesn't end with an increment of the semaphore and a flush.
    NoEnd,
}

impl BinRule {
    /// The number behind the letter B.
    pub fn number(self) -> u8
        ensures { result ≡ number_of self }
    {
        match self {
            BinRule::UnknownOpcode => 1,
            BinRule::CutOff => 2,
            BinRule::FlushNotLast => 3,
            BinRule::SecondStart => 4,
            BinRule::StartWithoutConfig => 5,
            BinRule::IncrementNotLast => 6,
            BinRule::PrimitiveWithoutState => 7,
            BinRule::PrimitiveWithoutStart => 8,
            BinRule::NoIndexBuffer => 9,
            BinRule::IndexesOutside => 10,
            BinRule::IndexOverflow => 11,
            BinRule::UndeclaredState => 12,
            BinRule::StateBits => 13,
            BinRule::SecondConfig => 14,
            BinRule::NoTiles => 15,
            BinRule::ConfigFlags => 16,
            BinRule::TooManyTiles => 17,
            BinRule::NoStart => 18,
            BinRule::NoEnd => 19,
        }
    }
}
