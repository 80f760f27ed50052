//! Refusals: a rule, and the place in the file that it is about.
ghost use Rattle.std.specs.Prelude.{◌≡◌, ◌<◌, ◌^◌};
ghost use Rattle.job_format.specs.Places.{place_in};
ghost use Rattle.job_check.specs.Faults.{refusal_by, table_refused, shader_refused, bin_refused, record_refused, surface_at, surface_refused};

use bin_list::ListFault;
use buffer_table::TableFault;
use job_format::{Part, Place, Refusal, Rule, Stage};
use render_list::RenderFault;
use shader_check::ShaderFault;
use shader_records::RecordFault;

/// A refusal by a rule, at this byte of the part of this number.
pub fn refusal(stage: Stage, number: u8, part: Part, index: usize, at: u64) -> Refusal
    requires { index < 2 ^ 32 }
    ensures { result ≡ refusal_by stage number (place_in part index at) }
{
    Refusal {
        rule: Rule { stage, number },
        place: Place {
            part,
            index: index as u32,
            at,
        },
    }
}

/// A memory rule that is broken.
#[tactic(auto, unfolding(crate::specs::Faults::item_place))]
pub(crate) fn table_refusal(fault: &TableFault) -> Refusal
    ensures { result ≡ table_refused fault.now }
{
    let (part, index, at) = match fault.item {
        0 => (Part::Header, 0, 8),
        1 => (Part::Header, 0, 12),
        2 => (Part::Header, 0, 20),
        item => (Part::Entry, item as usize - 3, 0),
    };
    refusal(Stage::M, fault.number, part, index, at)
}

/// A rule on the shader in buffer `b` that is broken.
pub(crate) fn shader_refusal(b: usize, fault: &ShaderFault) -> Refusal
    requires { b < 2 ^ 32 }
    ensures { result ≡ shader_refused b fault.now }
{
    let (part, at) = match fault.number {
        1 => (Part::Entry, 16),
        _ => (Part::Contents, 8 * u64::from(fault.index)),
    };
    refusal(Stage::S, fault.number, part, b, at)
}

/// A rule on the binner list of job `j` that is broken, at a packet of it or at its end.
pub(crate) fn bin_refusal(j: usize, fault: &ListFault) -> Refusal
    requires { j < 2 ^ 32 }
    ensures { result ≡ bin_refused j fault.now }
{
    refusal(
        Stage::B,
        fault.number,
        Part::BinnerList,
        j,
        u64::from(fault.at),
    )
}

/// A rule on the shader records or uniforms of job `j` that is broken.
pub(crate) fn record_refusal(j: usize, fault: &RecordFault) -> Refusal
    requires { j < 2 ^ 32 }
    ensures { result ≡ record_refused j fault.now }
{
    let part = if fault.in_uniforms {
        Part::Uniforms
    } else {
        Part::Records
    };
    refusal(fault.stage, fault.number, part, j, u64::from(fault.at))
}

/// A rule on the frame of job `j` and its surfaces that is broken.
#[tactic(auto, unfolding(crate::specs::Faults::surface_at))]
pub(crate) fn surface_refusal(j: usize, fault: &RenderFault) -> Refusal
    requires { j < 2 ^ 32 }
    ensures { result ≡ surface_refused j fault.now }
{
    let at = match fault.item {
        0 => 32,
        7 => 36,
        item => 36 + 12 * (u64::from(item) - 1),
    };
    refusal(Stage::G, fault.number, Part::JobEntry, j, at)
}
