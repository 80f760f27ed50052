//! The facts of surfaces.
ghost use Rattle.std.specs.Prelude.{◌≡◌};
ghost use Rattle.refusal_facts.specs.Whole.{is_wide, large_facts, surface_facts, frame_facts};

use crate::fact::{Facts, PixelsFact};
use crate::known::{Known, end_at, name_at};
use job_format::{Frame, Surface};
use render_list::{full_end, plain_end};

// Whether one of a frame's sides is over the limit.
#[tactic(auto, unfolding(crate::specs::Whole::is_wide))]
fn is_wide(frame: &Frame) -> bool
    ensures { result ≡ is_wide frame.now }
{
    frame.width > 4096 || frame.height > 4096
}

// G10 of a surface: the frame's sides, or where the surface ends.
#[tactic(auto, unfolding(crate::specs::Whole::large_facts))]
fn large_facts(known: &Known, k: usize, surface: &Surface) -> Option<Facts>
    ensures { result ≡ large_facts known.now k surface.now }
{
    let frame = &known.job.frame;
    if is_wide(frame) {
        return Some(Facts::Pixels(PixelsFact {
            width: frame.width,
            height: frame.height,
        }));
    }
    let end = plain_end(frame, k, surface);
    Some(Facts::Surface(end_at(known, surface.hindex, end)?))
}

// G6, G10 and G12, of surface `k`.
#[tactic(auto, unfolding(crate::specs::Whole::surface_facts))]
fn surface_facts(known: &Known, number: u8, k: usize, surface: &Surface) -> Option<Facts>
    ensures { result ≡ surface_facts known.now number k surface.now }
{
    match number {
        6 => Some(Facts::Name(name_at(known, surface.hindex))),
        10 => large_facts(known, k, surface),
        12 => {
            let end = full_end(&known.job.frame, surface);
            Some(Facts::Tile(end_at(known, surface.hindex, end)?))
        }
        _ => None,
    }
}

/// G6, G10 and G12, of surface `k` of a job, where there is one.
pub(crate) fn frame_facts(known: &Known, number: u8, k: usize) -> Option<Facts>
    ensures { result ≡ frame_facts known.now number k }
{
    let surface = known.job.frame.surfaces.get(k)?;
    surface_facts(known, number, k, surface)
}
