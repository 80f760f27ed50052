//! The text of an example job.
ghost use Rattle.std.specs.Prelude.{◌≡◌, ◌<◌, ◌++◌, IfOk, OnOk};
ghost use Rattle.std.specs.List.{sum};
ghost use Rattle.dumper.specs.Example.{number_line, lengths_text, example_text};

use field_words::NoMemory;
use phys_mem::PhysMem;
use relocation::Lengths;
use std::alloc::{AllocError, Global};

/// Room for all lines.
const ALL_LINES: usize = 256;

/// The sum of all bytes of the memory.
#[tactic(auto, using(crate::proofs::Sums::sum_more, crate::proofs::Sums::sum_all))]
fn sum_of(memory: &PhysMem) -> u64
    ensures { result ≡ sum memory.now }
{
    let mut sum = 0;
    for place in 0..memory.len() {
        sum += u64::from(memory.read_byte(place));
    }
    sum
}

#[tactic(auto, unfolding(crate::specs::Example::number_line))]
fn push_line(alloc: Global, out: &mut Vec<u8>, name: &str, number: u64) -> Result<(), AllocError>
    ensures { OnOk result (out.new.items ≡ out.old.items ++ number_line name.now number) }
{
    let line = format!(in alloc; "{name} {number}\n")?;
    out.extend_from_slice(line.as_bytes())
}

#[tactic(auto, unfolding(crate::specs::Example::lengths_text))]
fn push_lengths(alloc: Global, out: &mut Vec<u8>, lengths: &Lengths) -> Result<(), AllocError>
    ensures { OnOk result (out.new.items ≡ out.old.items ++ lengths_text lengths.now) }
{
    push_line(alloc, out, "bin", u64::from(lengths.bin))?;
    push_line(alloc, out, "records", u64::from(lengths.records))?;
    push_line(alloc, out, "uniforms", u64::from(lengths.uniforms))?;
    push_line(alloc, out, "render", u64::from(lengths.render))
}

/// The text of an accepted example job: its number, how many bytes its file has, how many bytes of each list were emitted, and the
/// sum of all bytes of the memory that it runs in, a line each.
#[tactic(auto, unfolding(crate::specs::Example::example_text))]
pub fn example_text(
    alloc: Global,
    number: u32,
    input: u64,
    memory: &PhysMem,
    lengths: &Lengths,
) -> Result<Vec<u8>, NoMemory>
    ensures { IfOk result (λ text. text.items ≡ example_text number input memory.now lengths.now) }
{
    let mut out = Vec::with_capacity(alloc, ALL_LINES)?;
    push_line(alloc, &mut out, "gen", u64::from(number))?;
    push_line(alloc, &mut out, "input", input)?;
    out.extend_from_slice(b"accepted\n")?;
    push_lengths(alloc, &mut out, lengths)?;
    push_line(alloc, &mut out, "sum", sum_of(memory))?;
    Ok(out)
}
