//! The heat of a run.
ghost use Rattle.std.specs.Prelude.{◌≡◌, ◌≤◌, ◌<◌, ◌^◌, ◌++◌, length, OnOk};
ghost use Rattle.pictures.specs.Forest.{forest_text};
ghost use Rattle.pictures.specs.Parts.{each};
ghost use Rattle.pictures.specs.Heat.{heat_part, heat_at, ground, heat_strip, tone_part, tone_parts, heat_legend, heat};

use crate::parts::{decimal, push_box, push_label};
use crate::svg::{Drawn, begin, end_leaf, numbered, worded};
use std::alloc::Global;

/// The row of the drawing at which the two strips begin.
pub(crate) const TOP: u64 = 712;

/// How many tones there are.
const TONES: u64 = 7;

/// A strip of the heat: its boxes' class without the tone, its title, and the column of the drawing
/// at which it begins.
#[derive(Clone, Copy)]
struct Strip {
    class: &'static str,
    title: &'static str,
    x: u64,
}

#[tactic(auto, unfolding(crate::specs::Heat::heat_part))]
fn push_heat(alloc: Global, out: &mut Vec<u8>, strip: Strip, n: u64, count: u64) -> Drawn
    requires left { strip.x < 2 ^ 32 }
    requires few { n < 2 ^ 32 }
    ensures { OnOk result (out.new.items ≡ out.old.items
        ++ forest_text (heat_part strip.class.now strip.x n count)) }
{
    if count == 0 {
        return Ok(());
    }
    let tone = (decimal(alloc, count)?.len() as u64).min(TONES);
    let name = strip.class;
    let class = format!(in alloc; "{name}{tone}")?;
    let x = strip.x + 18 * (n % 16);
    push_box(out, x, TOP + 12 * (n / 16), class.as_str())
}

#[tactic(auto, using(crate::proofs::Each::each_more))]
fn push_heats(alloc: Global, out: &mut Vec<u8>, strip: Strip, counts: &[u64]) -> Drawn
    requires left { strip.x < 2 ^ 32 }
    requires few { length counts.now < 2 ^ 32 }
    ensures { OnOk result (out.new.items ≡ out.old.items
        ++ forest_text (each (heat_at strip.class.now strip.x counts.now) (length counts.now))) }
{
    for n in 0..counts.len() {
        push_heat(alloc, out, strip, n as u64, counts[n])?;
    }
    Ok(())
}

#[tactic(auto, unfolding(crate::specs::Heat::ground))]
fn push_ground(out: &mut Vec<u8>, x: u64) -> Drawn
    requires { 96 ≤ x }
    ensures { OnOk result (out.new.items ≡ out.old.items ++ forest_text (ground x)) }
{
    begin(out, "use")?;
    worded(out, "href", "#strip")?;
    numbered(out, "x", x - 96)?;
    numbered(out, "y", TOP - 72)?;
    worded(out, "class", "pale")?;
    end_leaf(out)
}

#[tactic(auto, unfolding(crate::specs::Heat::heat_strip))]
fn push_strip(alloc: Global, out: &mut Vec<u8>, strip: Strip, counts: &[u64]) -> Drawn
    requires right { 96 ≤ strip.x }
    requires left { strip.x < 2 ^ 32 }
    requires few { length counts.now < 2 ^ 32 }
    ensures { OnOk result (out.new.items ≡ out.old.items
        ++ forest_text (heat_strip strip.class.now strip.title.now strip.x counts.now)) }
{
    push_label(out, strip.x, TOP - 12, "note", strip.title.as_bytes())?;
    push_ground(out, strip.x)?;
    push_heats(alloc, out, strip, counts)
}

#[tactic(auto, unfolding(crate::specs::Heat::tone_part))]
fn push_tone(alloc: Global, out: &mut Vec<u8>, n: u64) -> Drawn
    requires { n < 7 }
    ensures { OnOk result (out.new.items ≡ out.old.items ++ forest_text (tone_part n)) }
{
    let tone = n + 1;
    let read = format!(in alloc; "read{tone}")?;
    let write = format!(in alloc; "write{tone}")?;
    let least = decimal(alloc, 10u64.pow(n as u32))?;
    push_box(out, 724, TOP + 20 * n, read.as_str())?;
    push_box(out, 742, TOP + 20 * n, write.as_str())?;
    push_label(out, 840, TOP + 11 + 20 * n, "end", &least)
}

#[tactic(auto, unfolding(crate::specs::Heat::tone_parts), using(crate::proofs::Each::each_more))]
fn push_tones(alloc: Global, out: &mut Vec<u8>) -> Drawn
    ensures { OnOk result (out.new.items ≡ out.old.items ++ forest_text tone_parts) }
{
    for n in 0..TONES {
        push_tone(alloc, out, n)?;
    }
    Ok(())
}

#[tactic(auto, unfolding(crate::specs::Heat::heat_legend))]
fn push_legend(alloc: Global, out: &mut Vec<u8>) -> Drawn
    ensures { OnOk result (out.new.items ≡ out.old.items ++ forest_text heat_legend) }
{
    push_label(out, 724, TOP - 12, "note", b"accesses of a box, from")?;
    push_tones(alloc, out)
}

/// Appends both strips, of so many reads and writes for each box, and what their tones mean.
#[tactic(auto, unfolding(crate::specs::Heat::heat))]
pub(crate) fn push_heat_strips(
    alloc: Global,
    out: &mut Vec<u8>,
    reads: &[u64],
    writes: &[u64],
) -> Drawn
    requires reads { length reads.now < 2 ^ 32 }
    requires writes { length writes.now < 2 ^ 32 }
    ensures { OnOk result (out.new.items ≡ out.old.items
        ++ forest_text (heat reads.now writes.now)) }
{
    let read = Strip {
        class: "read",
        title: "reads",
        x: 96,
    };
    let write = Strip {
        class: "write",
        title: "writes",
        x: 408,
    };
    push_strip(alloc, out, read, reads)?;
    push_strip(alloc, out, write, writes)?;
    push_legend(alloc, out)
}
