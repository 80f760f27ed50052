//! The rules of samples and textures.
ghost use Rattle.std.specs.Prelude.{◌≡◌};
ghost use Rattle.texture_layouts.specs.Fits.{number_of};

/// A rule of samples and textures, U2 to U9 in this order.
#[derive(Clone, Copy, Debug, PartialEq, Eq)]
pub enum TextureRule {
    /// A direct read's base plus 4 is past the buffer's end.
    BaseOutside,
    /// A direct read's base plus its bound plus 4 is past the buffer's end.
    BoundOutside,
    /// Cube mode, and both the third and the fourth set-up word have a cube stride.
    TwoStrides,
    /// Cube mode, and neither word has a cube stride, or it is 0.
    NoStride,
    /// The type isn't listed.
    UnlistedType,
    /// Level 0 of some face ends past the buffer.
    FaceOutside,
    /// Levels 1 and up take more bytes than there are below the base.
    LevelBelow,
    /// A word has a child image.
    ChildImage,
}

impl TextureRule {
    /// The number behind the letter U.
    pub fn number(self) -> u8
        ensures { result ≡ number_of self }
    {
        match self {
            TextureRule::BaseOutside => 2,
            TextureRule::BoundOutside => 3,
            TextureRule::TwoStrides => 4,
            TextureRule::NoStride => 5,
            TextureRule::UnlistedType => 6,
            TextureRule::FaceOutside => 7,
            TextureRule::LevelBelow => 8,
            TextureRule::ChildImage => 9,
        }
    }
}
