//! How a call ended, as C knows it.

/// No rule is broken, and all that was asked for is written.
pub const ACCEPTED: u32 = 0;

/// A rule is broken, and it is reported.
pub const REFUSED: u32 = 1;

/// No rule is broken, and the caller's room is too small for what was asked for.
pub const SHORT: u32 = 2;

/// Memory ran out before the answer was known.
pub const NO_MEMORY: u32 = 3;

/// The shader has more words than a shader may have; no rule was asked.
pub const TOO_LONG: u32 = 4;
