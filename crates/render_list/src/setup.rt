//! The places of a frame's surfaces.

/// The absolute place in memory of each surface that is present, in the order of the frame.
#[derive(Clone, Copy, Debug, PartialEq, Eq)]
pub struct Setup {
    pub places: [Option<u32>; 6],
}

impl Setup {
    ghost use Rattle.std.specs.Prelude.{◌≡◌, ◌<◌};
    ghost use Rattle.render_list.specs.Frame.{place_at};

    /// The place in bytes of the surface of this number, which is one less than its item's.
    /// `None` comes exactly where the surface is absent.
    pub fn place_of(&self, surface: usize) -> Option<u32>
        requires { surface < 6 }
        ensures { result ≡ place_at self.now.places surface }
    {
        self.places[surface]
    }
}
