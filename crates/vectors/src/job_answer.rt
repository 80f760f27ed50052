//! The answer to one job file.
use dumper::refusal_text;
use field_words::{MOST_MEMORY, NoMemory, Stop};
use job_check::check_places;
use relocation::Lengths;
use std::alloc::Global;

fn push_lengths(alloc: Global, line: &mut Vec<u8>, lengths: &Lengths) -> Result<(), NoMemory> {
    let bin = lengths.bin;
    let records = lengths.records;
    let uniforms = lengths.uniforms;
    let render = lengths.render;
    let text = format!(in alloc; " {bin} {records} {uniforms} {render}")?;
    line.extend_from_slice(text.as_bytes())?;
    Ok(())
}

fn accepted_line(alloc: Global, all: &[Lengths]) -> Result<Vec<u8>, NoMemory> {
    let mut line = b"accepted".to_vec(alloc)?;
    for lengths in all {
        push_lengths(alloc, &mut line, lengths)?;
    }
    line.push(b'\n')?;
    Ok(line)
}

/// The line for these bytes: accepted, with the emitted lengths of each job, or the first broken rule. No memory of the jobs is made.
pub fn answer(alloc: Global, bytes: &[u8]) -> Result<Vec<u8>, NoMemory> {
    match check_places(alloc, MOST_MEMORY, bytes) {
        Ok(region) => accepted_line(alloc, &region.lengths),
        Err(Stop::Fault(refusal)) => refusal_text(alloc, bytes, &refusal),
        Err(Stop::NoMemory) => Err(NoMemory),
    }
}
