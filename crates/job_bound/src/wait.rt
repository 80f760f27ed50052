//! The first instruction at which a program may wait for what isn't there.
ghost use Rattle.std.specs.Prelude.{◌≡◌, ◌<◌, ◌^◌, Some};
ghost use Rattle.field_words.specs.Questions.{first_of};
ghost use Rattle.shader_flow.specs.Flow.{IsFlow};
ghost use Rattle.job_bound.specs.Back.{wait_places};

use shader_flow::Flow;
use strict_rules::first_wait;

/// Where in the file the first instruction of a shader stands at which a program may wait for a request that isn't there, or for room, of
/// which a processor has 8 slots and the results of 4 requests, and a shader that switches threads half. The shader begins at `place` in
/// the file.
#[tactic(auto, using(field_words::proofs::Questions::answered_some, field_words::proofs::Questions::answered_none))]
pub fn find_wait(code: &[u64], flow: &Flow, place: u64) -> Option<u64>
    requires made { IsFlow code.now flow.now }
    requires low { place < 2 ^ 62 }
    ensures { result ≡ first_of (wait_places (Some code.now) place) }
{
    let at = first_wait(code, flow)?;
    Some(place + 8 * u64::from(at))
}
