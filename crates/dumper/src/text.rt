//! The texts of an accepted file and of a refusal.
ghost use Rattle.std.specs.Prelude.{◌≡◌, ◌<◌, ◌++◌, length, IfOk, OnOk, string_bytes};
ghost use Rattle.dumper.specs.Text.{place_text, list_line, slot_line, layout_text, lines_of, job_line, jobs_text, layouts_text, head_text, AreOfVersion, refused_text};

use field_words::NoMemory;
use job_format::{Refusal, offset_of};
use relocation::{Layout, Lengths};
use std::alloc::{AllocError, Global};

/// The last line of the text of an accepted file.
pub const IMAGE_END: &[u8; 4] = b"end\n";

#[tactic(auto, using(crate::proofs::Rows::place_shown))]
pub(crate) fn place_text(alloc: Global, place: u64) -> Result<String, AllocError>
    ensures { IfOk result (λ text. string_bytes text ≡ place_text place) }
{
    format!(in alloc; "{place:08x}")
}

#[tactic(auto, unfolding(crate::specs::Text::list_line))]
fn list_line(alloc: Global, name: &str, place: u64, length: u32) -> Result<String, AllocError>
    ensures { IfOk result (λ line. string_bytes line ≡ list_line name.now place length) }
{
    let place = place_text(alloc, place)?;
    format!(in alloc; "{name} {place} {length}\n")
}

#[tactic(auto, unfolding(crate::specs::Text::slot_line))]
fn slot_line(alloc: Global, place: u64) -> Result<String, AllocError>
    ensures { IfOk result (λ line. string_bytes line ≡ slot_line place) }
{
    let place = place_text(alloc, place)?;
    format!(in alloc; "slot {place}\n")
}

#[tactic(auto, unfolding(crate::specs::Text::layout_text))]
fn push_layout(
    alloc: Global,
    out: &mut Vec<u8>,
    layout: &Layout,
    lengths: &Lengths,
) -> Result<(), AllocError>
    ensures { OnOk result (out.new.items ≡ out.old.items ++ layout_text layout.now lengths.now) }
{
    let place = u64::from(layout.place);
    let bin = place + u64::from(layout.bin);
    let records = place + u64::from(layout.records);
    let uniforms = place + u64::from(layout.uniforms);
    let render = place + u64::from(layout.render);
    out.extend_from_slice(list_line(alloc, "bin", bin, lengths.bin)?.as_bytes())?;
    out.extend_from_slice(list_line(alloc, "records", records, lengths.records)?.as_bytes())?;
    out.extend_from_slice(list_line(alloc, "uniforms", uniforms, lengths.uniforms)?.as_bytes())?;
    out.extend_from_slice(list_line(alloc, "render", render, lengths.render)?.as_bytes())?;
    out.extend_from_slice(slot_line(alloc, u64::from(layout.slot))?.as_bytes())
}

#[tactic(auto, unfolding(crate::specs::Text::job_line, crate::specs::Text::lines_of))]
fn push_job(
    alloc: Global,
    out: &mut Vec<u8>,
    layouts: &[Layout],
    lengths: &[Lengths],
    job: usize,
) -> Result<(), AllocError>
    requires layout { job < length layouts.now }
    requires lengths { job < length lengths.now }
    ensures { OnOk result (out.new.items ≡ out.old.items
        ++ (job_line job ++ lines_of layouts.now lengths.now job)) }
{
    let line = format!(in alloc; "job {job}\n")?;
    out.extend_from_slice(line.as_bytes())?;
    push_layout(alloc, out, &layouts[job], &lengths[job])
}

fn push_jobs(
    alloc: Global,
    out: &mut Vec<u8>,
    layouts: &[Layout],
    lengths: &[Lengths],
) -> Result<(), AllocError>
    requires { length lengths.now ≡ length layouts.now }
    ensures { OnOk result (out.new.items ≡ out.old.items
        ++ jobs_text layouts.now lengths.now (length layouts.now)) }
{
    for job in 0..layouts.len() {
        push_job(alloc, out, layouts, lengths, job)?;
    }
    Ok(())
}

#[tactic(auto, unfolding(crate::specs::Text::layouts_text, crate::specs::Text::lines_of))]
fn push_layouts(
    alloc: Global,
    out: &mut Vec<u8>,
    version: u32,
    layouts: &[Layout],
    lengths: &[Lengths],
) -> Result<(), AllocError>
    requires { AreOfVersion version layouts.now lengths.now }
    ensures { OnOk result (out.new.items ≡ out.old.items
        ++ layouts_text version layouts.now lengths.now) }
{
    if version == 1 {
        return push_layout(alloc, out, &layouts[0], &lengths[0]);
    }
    push_jobs(alloc, out, layouts, lengths)
}

/// The text of an accepted file of version 1 or 2 up to its rows: the memory's size, and where the parts of its jobs lie. There is one
/// layout and one record of lengths for each job, of which a file of version 1 has one. Places have eight hexadecimal digits, or more
/// where they need more; lengths and the memory's size in bytes are decimal. In version 2 the lines of a job stand behind its number.
/// The rows come from [`put_part`](crate::put_part), and [`IMAGE_END`] stands behind them.
#[tactic(auto, unfolding(crate::specs::Text::head_text, crate::specs::Text::memory_line))]
pub fn image_head(
    alloc: Global,
    version: u32,
    size: u32,
    layouts: &[Layout],
    lengths: &[Lengths],
) -> Result<Vec<u8>, NoMemory>
    requires { AreOfVersion version layouts.now lengths.now }
    ensures { IfOk result (λ text. text.items ≡ head_text version size layouts.now lengths.now) }
{
    let mut out = Vec::new(alloc);
    out.extend_from_slice(b"accepted\n")?;
    let line = format!(in alloc; "memory {size}\n")?;
    out.extend_from_slice(line.as_bytes())?;
    push_layouts(alloc, &mut out, version, layouts, lengths)?;
    Ok(out)
}

/// The text of a refusal of a file of these bytes: the rule's letter and number, and the offset of what it is about.
#[tactic(auto, unfolding(crate::specs::Text::refused_text))]
pub fn refusal_text(alloc: Global, bytes: &[u8], refusal: &Refusal) -> Result<Vec<u8>, NoMemory>
    ensures { IfOk result (λ text. text.items ≡ refused_text bytes.now refusal.now) }
{
    let rule = refusal.rule;
    let offset = offset_of(bytes, refusal.place);
    let line = format!(in alloc; "refused {rule} at {offset}\n")?;
    Ok(line.into_bytes())
}
