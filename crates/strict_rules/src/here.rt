//! An instruction, with what the walk knows before it.
ghost use Rattle.std.specs.Prelude.{◌≡◌, ◌≤◌, length};
ghost use Rattle.shader_flow.specs.Flow.{word, checked_of};
ghost use Rattle.strict_rules.specs.Queue.{requests_of, slots_of};

use crate::queues::slots_in;
use crate::state::Walked;
use shader_flow::{Flow, checked};
use std::marker::Model;

/// A checked instruction of a shader, and what the walk carries before it.
#[derive(Drop)]
pub(crate) struct Here<'a> {
    pub(crate) code: &'a [u64],
    pub(crate) flow: &'a Flow,
    pub(crate) at: usize,
    pub(crate) walked: &'a Walked,
}

impl<'a> Model for Here<'a> {
    ghost use Rattle.shader_flow.specs.Site.{SiteModel};
    ghost use Rattle.strict_rules.specs.Walk.{IsHere};

    ghost Value = { SiteModel };

    ghost view = { λ h. record { code = h.code.now; at = h.at } };

    ghost invariant = { λ h. IsHere h.code.now h.flow.now h.at h.walked.now };
}

impl<'a> Here<'a> {
    /// Its word.
    pub(crate) fn word(&self) -> u64
        ensures { result ≡ word self.now.code self.now.at }
    {
        self.code[self.at]
    }

    /// How many instructions are checked.
    pub(crate) fn last(&self) -> usize
        ensures value { result ≡ checked_of self.now.code }
        ensures inside { result ≤ length self.now.code }
    {
        checked(self.code, self.flow.end)
    }

    /// How many requests are outstanding.
    #[tactic(auto, unfolding(crate::specs::Queue::requests_of))]
    pub(crate) fn requests(&self) -> usize
        ensures { result ≡ requests_of self.now.code self.now.at }
    {
        self.walked.unit0.queue.len() + self.walked.unit1.queue.len()
    }

    /// How many slots the outstanding requests and the kept words take.
    #[tactic(auto, unfolding(crate::specs::Queue::slots_of))]
    pub(crate) fn slots(&self) -> u32
        ensures { result ≡ slots_of self.now.code self.now.at }
    {
        let first = &self.walked.unit0;
        let second = &self.walked.unit1;
        (slots_in(first.queue.as_slice()) + slots_in(second.queue.as_slice()))
            + (u32::from(first.pending) + u32::from(second.pending))
    }
}
