//! The file of an example.
ghost use Rattle.std.specs.Prelude.{◌≡◌, ◌≤◌, ◌<◌, ◌∷◌, [], map, None, IfOk};
ghost use Rattle.field_words.specs.Questions.{first_of};
ghost use Rattle.job_format.specs.Model.{job_view, file_view};
ghost use Rattle.job_format.specs.Text.{file_text};
ghost use Rattle.job_format.specs.File.{IsFileOf};
ghost use Rattle.job_format.specs.Faults.{format_questions};
ghost use Rattle.job_format.specs.Reading.{file_at};
ghost use Rattle.example_job.specs.Example.{across_of, down_of, count_of, frame_of, job_of, code_buffer, vertex_buffer, frame_buffer, shader, vertex_bytes, file_of, example};
ghost use Rattle.example_job.specs.Noise.{noise};

use super::lists::{bin_list, records};
use super::noise::noise;
use buffer_table::{Buffer, Kind, Regions};
use field_words::NoMemory;
use job_format::{Frame, Job, JobFile, Surface, write_job};
use std::alloc::{AllocError, Global};

// A program end with two idle instructions in its slots.
const SHADER: [u8; 24] = [
    0x00, 0x70, 0x9e, 0x00, 0xe7, 0x09, 0x00, 0x30, 0x00, 0x70, 0x9e, 0x00, 0xe7, 0x09, 0x00, 0x10,
    0x00, 0x70, 0x9e, 0x00, 0xe7, 0x09, 0x00, 0x10,
];

const VERTEX_BYTES: u32 = 0x10_0000;

const ABSENT: Surface = Surface {
    hindex: u32::MAX,
    offset: 0,
    bits: 0,
    flags: 0,
};

// Colour write stands in the third buffer, four bytes a pixel in T tiles.
const COLOUR_WRITE: Surface = Surface {
    hindex: 2,
    offset: 0,
    bits: 0x44,
    flags: 0,
};

fn frame(across: u8, down: u8) -> Frame
    requires across { 1 ≤ across }
    requires down { 1 ≤ down }
    ensures { result ≡ frame_of across down }
{
    Frame {
        width: 64 * u16::from(across),
        height: 64 * u16::from(down),
        min_x: 0,
        min_y: 0,
        max_x: across - 1,
        max_y: down - 1,
        surfaces: [ABSENT, COLOUR_WRITE, ABSENT, ABSENT, ABSENT, ABSENT],
        clear: false,
        clear_color: [0; 2],
        clear_z: 0,
        clear_s: 0,
    }
}

fn job(alloc: Global, across: u8, down: u8, count: u32) -> Result<Job, AllocError>
    requires across { 1 ≤ across }
    requires down { 1 ≤ down }
    requires count { count ≤ 4000 }
    ensures { IfOk result (λ job. job_view job ≡ job_of across down count) }
{
    Ok(Job {
        client: 1,
        handles: [0, 1, 2].to_vec(alloc)?,
        bin: bin_list(alloc, across, down, count)?,
        records: records(alloc, count)?,
        declared: count,
        uniforms: Vec::new(alloc),
        frame: frame(across, down),
    })
}

fn buffers(alloc: Global, tiles: u32) -> Result<Vec<Buffer>, AllocError>
    requires { tiles ≤ 510 }
    ensures { IfOk result (λ buffers. buffers.items ≡ code_buffer ∷ vertex_buffer
        ∷ frame_buffer tiles ∷ []) }
{
    let code = Buffer {
        place: 0x48_0000,
        size: 0x1000,
        client: 1,
        kind: Kind::Code,
        content: 24,
    };
    let vertices = Buffer {
        place: 0x48_1000,
        size: VERTEX_BYTES,
        client: 1,
        kind: Kind::Plain,
        content: VERTEX_BYTES,
    };
    let frame = Buffer {
        place: 0x58_1000,
        size: 16384 * tiles,
        client: 1,
        kind: Kind::Plain,
        content: 0,
    };
    [code, vertices, frame].to_vec(alloc)
}

fn contents(alloc: Global, seed: u32) -> Result<Vec<Vec<u8>>, AllocError>
    ensures { IfOk result (λ contents. map (λ c. c.items) contents.items ≡ shader
        ∷ noise seed vertex_bytes ∷ [] ∷ []) }
{
    let mut contents = Vec::new(alloc);
    contents.push(SHADER.to_vec(alloc)?)?;
    contents.push(noise(alloc, u64::from(seed), VERTEX_BYTES)?)?;
    contents.push(Vec::new(alloc))?;
    Ok(contents)
}

#[tactic(auto, unfolding(crate::specs::Example::file_of))]
fn file(alloc: Global, seed: u32, across: u8, down: u8, count: u32) -> Result<JobFile, AllocError>
    requires across { 1 ≤ across }
    requires wide { across ≤ 30 }
    requires down { 1 ≤ down }
    requires high { down ≤ 17 }
    requires count { count ≤ 4000 }
    ensures { IfOk result (λ file. file_view file ≡ file_of seed across down count) }
{
    let tiles = u32::from(across) * u32::from(down);
    let mut jobs = Vec::new(alloc);
    jobs.push(job(alloc, across, down, count)?)?;
    Ok(JobFile {
        version: 1,
        mem_size: 0x58_1000 + 16384 * tiles,
        regions: Regions {
            lists_place: 0,
            lists_size: 0x40_0000,
            tile_place: 0x40_0000,
            tile_slots: 1,
        },
        buffers: buffers(alloc, tiles)?,
        contents: contents(alloc, seed)?,
        jobs,
    })
}

/// The text of the example job of this number: a job file of version 1. Its memory has the lists at 0, one tile slot at 4 MiB, a
/// shader, 1 MiB of vertices that look random, and a frame of `number % 30 + 1` by `number / 30 % 17 + 1` tiles of 64 by 64 pixels.
/// It draws `number % 4000 + 1` triangles.
///
/// # Errors
/// Want of memory alone.
#[tactic(auto, unfolding(crate::specs::Example::across_of, crate::specs::Example::down_of, crate::specs::Example::count_of, crate::specs::Example::example), using(crate::proofs::Formed::well_formed))]
pub fn make_job(alloc: Global, number: u32) -> Result<Vec<u8>, NoMemory>
    ensures text { IfOk result (λ bytes. bytes.items ≡ file_text (example number)) }
    // The bytes spell that file, and no rule of the format is broken by them.
    ensures spells { IfOk result (λ bytes. IsFileOf bytes.items (example number)) }
    ensures again { IfOk result (λ bytes. (first_of (format_questions bytes.items) ≡ None)
        × (file_at bytes.items ≡ example number)) }
{
    let across = (number % 30 + 1) as u8;
    let down = (number / 30 % 17 + 1) as u8;
    let file = file(alloc, number, across, down, number % 4000 + 1)?;
    write_job(alloc, &file)
}
