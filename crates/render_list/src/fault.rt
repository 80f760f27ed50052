//! The rules of a frame and its surfaces, and the first that is broken.
ghost use Rattle.std.specs.Prelude.{◌≡◌};
ghost use Rattle.render_list.specs.Surfaces.{number_of, fault};

use thiserror::Error;

/// The item of the frame itself; 1 to 6 are its surfaces.
pub(crate) const FRAME: u8 = 0;

/// The item of the whole.
pub(crate) const WHOLE: u8 = 7;

/// A rule of a frame and its surfaces, G1 to G13 in this order.
#[derive(Clone, Copy, Debug, PartialEq, Eq)]
pub enum FrameRule {
    /// A smallest tile number is over its largest.
    Reversed,
    /// There is a binner list, and the largest tile isn't in its grid.
    OutsideGrid,
    /// The largest tile has no pixel of the frame.
    OutsideFrame,
    /// A flag is set that the surface doesn't have.
    UnknownFlag,
    /// A bit is set outside the fields of the surface's bits.
    UnknownBit,
    /// The handle names no data buffer.
    Unnamed,
    /// There is no such tiling.
    UnlistedTiling,
    /// There is no such format of such a buffer.
    UnlistedFormat,
    /// The offset is no multiple of 16.
    Unaligned,
    /// The frame is over 4,096 pixels wide or high, or the surface goes past its buffer.
    TooLarge,
    /// Depth and stencil are written in full resolution, or a surface in full resolution has bits.
    FullWithBits,
    /// A surface in full resolution goes past its buffer.
    TooLargeFull,
    /// Nothing is written.
    NothingWritten,
}

impl FrameRule {
    /// The number behind the letter G.
    pub fn number(self) -> u8
        ensures { result ≡ number_of self }
    {
        match self {
            FrameRule::Reversed => 1,
            FrameRule::OutsideGrid => 2,
            FrameRule::OutsideFrame => 3,
            FrameRule::UnknownFlag => 4,
            FrameRule::UnknownBit => 5,
            FrameRule::Unnamed => 6,
            FrameRule::UnlistedTiling => 7,
            FrameRule::UnlistedFormat => 8,
            FrameRule::Unaligned => 9,
            FrameRule::TooLarge => 10,
            FrameRule::FullWithBits => 11,
            FrameRule::TooLargeFull => 12,
            FrameRule::NothingWritten => 13,
        }
    }
}

/// The first broken rule of the frame and its surfaces: G`number` at `item`. Item 0 is the
/// frame, 1 to 6 are the surfaces in the frame's order, and 7 is the whole.
#[derive(Clone, Copy, Debug, PartialEq, Eq, Error)]
#[error("G{number} at item {item} of the frame")]
pub struct RenderFault {
    pub number: u8,
    pub item: u8,
}

impl RenderFault {
    /// This rule at this item.
    pub(crate) fn of(rule: FrameRule, item: u8) -> RenderFault
        ensures { result ≡ fault rule item }
    {
        RenderFault {
            number: rule.number(),
            item,
        }
    }
}
