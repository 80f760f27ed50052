//! The text of a job file.
ghost use Rattle.std.specs.Prelude.{◌≡◌, ◌≤◌, ◌<◌, ◌^◌, ◌++◌, ℕ, List, None, length, map, OnOk, IfOk};
ghost use Rattle.std.specs.List.{flat_map, AllByRecursion};
ghost use Rattle.field_words.specs.Words.{IsBytes};
ghost use Rattle.field_words.specs.Pieces.{joined_texts};
ghost use Rattle.job_format.specs.Model.{FileModel, job_view, file_view};
ghost use Rattle.field_words.specs.WordBytes.{half, word};
ghost use Rattle.job_format.specs.Text.{kind_number, header_text, buffer_text, surface_text, frame_text, job_text, parts_text, file_text};
ghost use Rattle.field_words.specs.Questions.{first_of};
ghost use Rattle.job_format.specs.Faults.{format_questions};
ghost use Rattle.job_format.specs.Reading.{file_at};
ghost use Rattle.job_format.specs.Offsets.{most_buffers, most_jobs};
ghost use Rattle.job_format.specs.File.{HeaderFits, BufferFits, SurfaceFits, FrameFits, JobEntryFits, JobPartsFit, Fits, IsJobWellFormed, IsWellFormed, IsFileOf};

use crate::file::{Frame, Job, JobFile, Surface};
use crate::sizes::MAGIC;
use buffer_table::{Buffer, Kind};
use field_words::NoMemory;
use std::alloc::{AllocError, Global};

fn put_words(out: &mut Vec<u8>, words: &[u32]) -> Result<(), AllocError>
    ensures text { OnOk result (out.new.items ≡ out.old.items ++ flat_map word words.now) }
    ensures fits { AllByRecursion (λ w. w < 2 ^ 32) words.now }
{
    for n in words {
        out.extend_from_slice(&n.to_le_bytes())?;
    }
    Ok(())
}

fn put_half(out: &mut Vec<u8>, n: u16) -> Result<(), AllocError>
    ensures text { OnOk result (out.new.items ≡ out.old.items ++ half n) }
    ensures fits { n < 2 ^ 16 }
{
    out.extend_from_slice(&n.to_le_bytes())?;
    Ok(())
}

fn put_bytes(out: &mut Vec<u8>, bytes: &[u8]) -> Result<(), AllocError>
    ensures text { OnOk result (out.new.items ≡ out.old.items ++ bytes.now) }
    ensures fits { IsBytes bytes.now }
{
    out.extend_from_slice(bytes)?;
    Ok(())
}

#[tactic(auto, unfolding(crate::specs::Text::header_text))]
fn put_header(out: &mut Vec<u8>, file: &JobFile) -> Result<(), AllocError>
    requires buffers { length file.now.buffers.items ≤ most_buffers }
    requires jobs { length file.now.jobs.items ≤ most_jobs }
    ensures text { OnOk result (out.new.items ≡ out.old.items ++ header_text (file_view file.now)) }
    ensures fits { HeaderFits (file_view file.now) }
{
    put_words(
        out,
        &[
            MAGIC,
            file.version,
            file.mem_size,
            file.regions.lists_place,
            file.regions.lists_size,
            file.regions.tile_place,
            file.regions.tile_slots,
            file.buffers.len() as u32,
            file.jobs.len() as u32,
        ],
    )
}

fn number_of(kind: Kind) -> u32
    ensures { result ≡ kind_number kind }
{
    match kind {
        Kind::Plain => 0,
        Kind::Code => 1,
    }
}

#[tactic(auto, unfolding(crate::specs::Text::buffer_text))]
fn put_buffer(out: &mut Vec<u8>, buffer: &Buffer) -> Result<(), AllocError>
    ensures text { OnOk result (out.new.items ≡ out.old.items ++ buffer_text buffer.now) }
    ensures fits { BufferFits buffer.now }
{
    put_words(
        out,
        &[
            buffer.place,
            buffer.size,
            buffer.client,
            number_of(buffer.kind),
            buffer.content,
        ],
    )
}

#[tactic(auto, unfolding(crate::specs::Text::surface_text))]
fn put_surface(out: &mut Vec<u8>, surface: &Surface) -> Result<(), AllocError>
    ensures text { OnOk result (out.new.items ≡ out.old.items ++ surface_text surface.now) }
    ensures fits { OnOk result (SurfaceFits surface.now) }
{
    put_words(out, &[surface.hindex, surface.offset])?;
    put_half(out, surface.bits)?;
    put_half(out, surface.flags)
}

fn put_surfaces(out: &mut Vec<u8>, surfaces: &[Surface]) -> Result<(), AllocError>
    ensures text { OnOk result (out.new.items ≡ out.old.items
        ++ flat_map surface_text surfaces.now) }
    ensures fits { OnOk result (AllByRecursion SurfaceFits surfaces.now) }
{
    for surface in surfaces {
        put_surface(out, surface)?;
    }
    Ok(())
}

fn put_six(out: &mut Vec<u8>, surfaces: &[Surface; 6]) -> Result<(), AllocError>
    ensures text { OnOk result (out.new.items ≡ out.old.items
        ++ flat_map surface_text surfaces.now) }
    ensures fits { OnOk result (AllByRecursion SurfaceFits surfaces.now) }
    ensures six { length surfaces.now ≡ 6 }
{
    put_surfaces(out, surfaces)
}

fn put_colors(out: &mut Vec<u8>, colors: &[u32; 2]) -> Result<(), AllocError>
    ensures text { OnOk result (out.new.items ≡ out.old.items ++ flat_map word colors.now) }
    ensures fits { AllByRecursion (λ w. w < 2 ^ 32) colors.now }
    ensures two { length colors.now ≡ 2 }
{
    put_words(out, colors)
}

#[tactic(auto, unfolding(crate::specs::Text::frame_text))]
fn put_frame(out: &mut Vec<u8>, frame: &Frame) -> Result<(), AllocError>
    ensures text { OnOk result (out.new.items ≡ out.old.items ++ frame_text frame.now) }
    ensures fits { OnOk result (FrameFits frame.now) }
{
    put_half(out, frame.width)?;
    put_half(out, frame.height)?;
    put_bytes(out, &[frame.min_x, frame.min_y, frame.max_x, frame.max_y])?;
    put_six(out, &frame.surfaces)?;
    put_colors(out, &frame.clear_color)?;
    put_words(out, &[frame.clear_z])?;
    put_bytes(out, &[frame.clear_s, 0, 0, 0])?;
    Ok(())
}

#[tactic(auto, unfolding(crate::specs::Text::job_text))]
fn put_job(out: &mut Vec<u8>, job: &Job) -> Result<(), AllocError>
    requires { IsJobWellFormed (job_view job.now) }
    ensures text { OnOk result (out.new.items ≡ out.old.items ++ job_text (job_view job.now)) }
    ensures fits { OnOk result (JobEntryFits (job_view job.now)) }
{
    put_words(
        out,
        &[
            job.client,
            u32::from(job.frame.clear),
            job.handles.len() as u32,
            job.bin.len() as u32,
            job.records.len() as u32,
            job.declared,
            job.uniforms.len() as u32,
        ],
    )?;
    put_frame(out, &job.frame)
}

#[tactic(auto, unfolding(crate::specs::Text::parts_text))]
fn put_parts(out: &mut Vec<u8>, job: &Job) -> Result<(), AllocError>
    ensures text { OnOk result (out.new.items ≡ out.old.items ++ parts_text (job_view job.now)) }
    ensures fits { OnOk result (JobPartsFit (job_view job.now)) }
{
    put_words(out, &job.handles)?;
    put_bytes(out, &job.bin)?;
    put_bytes(out, &job.records)?;
    put_bytes(out, &job.uniforms)
}

fn put_buffers(out: &mut Vec<u8>, buffers: &[Buffer]) -> Result<(), AllocError>
    ensures text { OnOk result (out.new.items ≡ out.old.items ++ flat_map buffer_text buffers.now) }
    ensures fits { OnOk result (AllByRecursion BufferFits buffers.now) }
{
    for buffer in buffers {
        put_buffer(out, buffer)?;
    }
    Ok(())
}

fn put_jobs(out: &mut Vec<u8>, jobs: &[Job]) -> Result<(), AllocError>
    requires { AllByRecursion IsJobWellFormed (map job_view jobs.now) }
    ensures text { OnOk result (out.new.items ≡ out.old.items
        ++ flat_map job_text (map job_view jobs.now)) }
    ensures fits { OnOk result (AllByRecursion JobEntryFits (map job_view jobs.now)) }
{
    for job in jobs {
        put_job(out, job)?;
    }
    Ok(())
}

fn put_contents(out: &mut Vec<u8>, contents: &[Vec<u8>]) -> Result<(), AllocError>
    ensures text { OnOk result (out.new.items ≡ out.old.items
        ++ joined_texts (map (λ c. c.items) contents.now)) }
    ensures fits { OnOk result (AllByRecursion IsBytes (map (λ c. c.items) contents.now)) }
{
    for content in contents {
        put_bytes(out, content)?;
    }
    Ok(())
}

fn put_all_parts(out: &mut Vec<u8>, jobs: &[Job]) -> Result<(), AllocError>
    ensures text { OnOk result (out.new.items ≡ out.old.items
        ++ flat_map parts_text (map job_view jobs.now)) }
    ensures fits { OnOk result (AllByRecursion JobPartsFit (map job_view jobs.now)) }
{
    for job in jobs {
        put_parts(out, job)?;
    }
    Ok(())
}

#[tactic(auto, unfolding(crate::specs::Text::file_text))]
fn text(alloc: Global, file: &JobFile) -> Result<Vec<u8>, AllocError>
    requires { IsWellFormed (file_view file.now) }
    ensures text { IfOk result (λ v. v.items ≡ file_text (file_view file.now)) }
    ensures fits { IfOk result (λ _. Fits (file_view file.now)) }
{
    let mut out = Vec::new(alloc);
    put_header(&mut out, file)?;
    put_buffers(&mut out, &file.buffers)?;
    put_jobs(&mut out, &file.jobs)?;
    put_contents(&mut out, &file.contents)?;
    put_all_parts(&mut out, &file.jobs)?;
    Ok(out)
}

/// The text of a job file.
pub fn write_job(alloc: Global, file: &JobFile) -> Result<Vec<u8>, NoMemory>
    requires { IsWellFormed (file_view file.now) }
    ensures text { IfOk result (λ v. v.items ≡ file_text (file_view file.now)) }
    // The bytes spell the file,
    ensures spells { IfOk result (λ v. IsFileOf v.items (file_view file.now)) }
    // so reading them gives the file again.
    ensures again { IfOk result (λ v. (first_of (format_questions v.items) ≡ None)
        × (file_at v.items ≡ file_view file.now)) }
{
    Ok(text(alloc, file)?)
}

/// At most one file belongs to a text.
#[tactic(auto, using(crate::proofs::Laws::one_file))]
pub fn one_file_a_text()
    ensures { (bytes : List ℕ) (f g : FileModel) → IsFileOf bytes f → IsFileOf bytes g → f ≡ g }
{}
