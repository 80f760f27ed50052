//! What a shader uses that not each kind of program may.
ghost use Rattle.std.specs.Prelude.{◌≡◌};
ghost use Rattle.shader_flow.specs.Flow.{IsFlow};
ghost use Rattle.strict_rules.specs.Rules.{has_vpm_part, has_tile_part};

use crate::words::{uses_tile, uses_vpm};
use shader_flow::{Flow, checked};

/// Whether a shader reads or writes the VPM, which a fragment shader may not.
pub fn has_vpm_part(code: &[u64], flow: &Flow) -> bool
    requires { IsFlow code.now flow.now }
    ensures { result ≡ has_vpm_part code.now }
{
    for at in 0..checked(code, flow.end) {
        if uses_vpm(code[at]) {
            return true;
        }
    }
    false
}

/// Whether a shader uses the tile buffer, the scoreboard or varyings, which a vertex or coordinate shader may not.
pub fn has_tile_part(code: &[u64], flow: &Flow) -> bool
    requires { IsFlow code.now flow.now }
    ensures { result ≡ has_tile_part code.now }
{
    for at in 0..checked(code, flow.end) {
        if uses_tile(code[at]) {
            return true;
        }
    }
    false
}
