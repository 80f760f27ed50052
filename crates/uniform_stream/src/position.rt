//! Where the position in the uniform stream is known.
ghost use Rattle.std.specs.Prelude.{◌≡◌, ◌<◌, ◌-◌, ◌&&◌, ◌||◌, not, length};
ghost use Rattle.shader_flow.specs.Bounded.{is_back};
ghost use Rattle.shader_flow.specs.Flow.{is_target, IsFlow};
ghost use Rattle.uniform_stream.specs.Stream.{writes_address, is_restart, is_known};

use qpu_isa::writes::is_address_write;
use shader_flow::{Flow, Site};

/// Whether the instruction is checked and sets the address of the uniforms.
#[tactic(auto, unfolding(crate::specs::Stream::writes_address))]
pub(crate) fn writes_address(site: &Site) -> bool
    ensures { result ≡ writes_address site.now.code site.now.at }
{
    site.is_checked() && is_address_write(site.word())
}

// The stream begins anew here.
#[tactic(auto, unfolding(crate::specs::Stream::is_restart, shader_flow::specs::Bounded::is_back))]
fn is_restart(site: &Site) -> bool
    ensures { result ≡ is_restart site.now.code site.now.at }
{
    site.at == 0
        || (1 <= site.at
            && writes_address(&Site {
                code: site.code,
                end: site.end,
                at: site.at - 1,
            }))
}

// It stays known, or begins to be, where no branch leads to.
fn goes_on(target: bool, restart: bool, before: bool) -> bool
    ensures { result ≡ (not target && (restart || before)) }
{
    !target && (restart || before)
}

/// Whether the position is known here, where `before` tells it of the instruction before.
pub(crate) fn known_after(site: &Site, flow: &Flow, before: bool) -> bool
    requires made { IsFlow site.now.code flow.now }
    requires known { 0 < site.now.at → before ≡ is_known site.now.code (site.now.at - 1) }
    ensures { result ≡ is_known site.now.code site.now.at }
{
    goes_on(site.is_target(flow), is_restart(site), before)
}

/// Whether the position in the uniform stream is known at the instruction `at`: from the start or a write of the stream's
/// address on, up to `at`, there is no target.
pub fn known(code: &[u64], flow: &Flow, at: u32) -> bool
    requires inside { at < length code.now }
    requires made { IsFlow code.now flow.now }
    ensures { result ≡ is_known code.now at }
{
    let mut now = false;
    for i in 0..at as usize + 1 {
        let site = Site {
            code,
            end: flow.end,
            at: i,
        };
        now = known_after(&site, flow, now);
    }
    now
}
