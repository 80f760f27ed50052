//! One instruction of a shader.
ghost use Rattle.std.specs.Prelude.{◌≡◌, nat_lt};
ghost use Rattle.shader_flow.specs.Flow.{word, checked_of, is_target, IsFlow};

use crate::marks::checked;
use crate::state::Flow;
use std::marker::Model;

/// The instruction at an index of a shader of at most 8,192 words, with the shader's program end.
#[derive(Drop)]
pub struct Site<'a> {
    pub code: &'a [u64],
    pub end: u32,
    pub at: usize,
}

impl<'a> Model for Site<'a> {
    ghost use Rattle.std.specs.Prelude.{◌<◌, length};
    ghost use Rattle.shader_flow.specs.Flow.{EndsAt};
    ghost use Rattle.shader_flow.specs.Site.{SiteModel};

    ghost Value = { SiteModel };

    ghost view = { λ s. record { code = s.code.now; at = s.at } };

    ghost invariant = { λ s. record { ends : EndsAt s.code.now s.end; inside : s.at < length s.code.now } };
}

impl<'a> Site<'a> {
    /// Its word.
    #[inline]
    pub fn word(&self) -> u64
        ensures { result ≡ word self.now.code self.now.at }
    {
        self.code[self.at]
    }

    /// Whether it is one of the instructions that are checked.
    #[inline]
    pub fn is_checked(&self) -> bool
        ensures { result ≡ nat_lt self.now.at (checked_of self.now.code) }
    {
        self.at < checked(self.code, self.end)
    }

    /// Whether a branch leads here, or its slots end here.
    #[inline]
    pub fn is_target(&self, flow: &Flow) -> bool
        requires { IsFlow self.now.code flow.now }
        ensures { result ≡ is_target self.now.code self.now.at }
    {
        flow.targets[self.at]
    }
}
