//! The file in which a client's job is checked.
ghost use Rattle.std.specs.Prelude.{◌≡◌, ◌<◌, ◌++◌, IfOk, OnOk};
ghost use Rattle.std.specs.List.{flat_map};
ghost use Rattle.field_words.specs.WordBytes.{word};
ghost use Rattle.job_format.specs.Text.{kind_number, buffer_text};
ghost use Rattle.job_session.specs.Submit.{header_of, with_client as client_set, job_bytes, all_contents, file_of};
ghost use Rattle.job_session.specs.Desk.{held_in};

use super::session::Session;
use buffer_table::{Buffer, Kind};
use field_words::NoMemory;
use job_format::JOB_SIZE;
use session_pages::MEMORY_SIZE;
use std::alloc::{AllocError, Global};

/// The first word of a job file: `VC4J`.
const MAGIC: u32 = 0x4A34_4356;

/// The size of the lists' region, which begins at 0, and where the tile slot stands, right behind it.
const LISTS_SIZE: u32 = 0x0040_0000;

fn put_words(file: &mut Vec<u8>, words: &[u32]) -> Result<(), AllocError>
    ensures { OnOk result (file.new.items ≡ file.old.items ++ flat_map word words.now) }
{
    for number in words {
        file.extend_from_slice(&number.to_le_bytes())?;
    }
    Ok(())
}

fn put_header(file: &mut Vec<u8>, buffers: u32) -> Result<(), AllocError>
    ensures { OnOk result (file.new.items ≡ file.old.items ++ header_of buffers) }
{
    put_words(
        file,
        &[
            MAGIC,
            2,
            MEMORY_SIZE,
            0,
            LISTS_SIZE,
            LISTS_SIZE,
            1,
            buffers,
            1,
        ],
    )
}

fn number_of(kind: Kind) -> u32
    ensures { result ≡ kind_number kind }
{
    match kind {
        Kind::Plain => 0,
        Kind::Code => 1,
    }
}

#[tactic(auto, unfolding(job_format::specs::Text::buffer_text))]
fn put_buffer(file: &mut Vec<u8>, buffer: &Buffer) -> Result<(), AllocError>
    ensures { OnOk result (file.new.items ≡ file.old.items ++ buffer_text buffer.now) }
{
    put_words(
        file,
        &[
            buffer.place,
            buffer.size,
            buffer.client,
            number_of(buffer.kind),
            buffer.content,
        ],
    )
}

fn put_buffers(file: &mut Vec<u8>, buffers: &[Buffer]) -> Result<(), AllocError>
    ensures { OnOk result (file.new.items ≡ file.old.items ++ flat_map buffer_text buffers.now) }
{
    for buffer in buffers {
        put_buffer(file, buffer)?;
    }
    Ok(())
}

// The parts of a job, its client field set as far as it is there.
fn with_client(alloc: Global, client: u8, parts: &[u8]) -> Result<Vec<u8>, AllocError>
    ensures { IfOk result (λ job. job.items ≡ client_set client parts.now) }
{
    let set = parts.len().min(4);
    let mut job = Vec::with_capacity(alloc, parts.len())?;
    job.extend_from_slice(&u32::from(client).to_le_bytes()[..set])?;
    job.extend_from_slice(&parts[set..])?;
    Ok(job)
}

// Puts a job's parts, with the contents of the client's buffers behind its entry. An entry that is cut short ends the file.
fn put_job(
    alloc: Global,
    session: &Session,
    client: u8,
    parts: &[u8],
    file: &mut Vec<u8>,
) -> Result<(), NoMemory>
    requires { client < 8 }
    ensures { OnOk result (file.new.items ≡ file.old.items
        ++ job_bytes (all_contents (held_in session.now client)) parts.now) }
{
    if parts.len() < JOB_SIZE {
        file.extend_from_slice(parts)?;
        return Ok(());
    }
    file.extend_from_slice(&parts[..JOB_SIZE])?;
    session.put_contents(alloc, client, file)?;
    file.extend_from_slice(&parts[JOB_SIZE..])?;
    Ok(())
}

/// The file: the client's live buffers in order of id, and the one job that these parts are.
#[tactic(auto, unfolding(crate::specs::Submit::file_of))]
pub fn job_file(
    alloc: Global,
    session: &Session,
    client: u8,
    parts: &[u8],
) -> Result<Vec<u8>, NoMemory>
    requires { client < 8 }
    ensures { IfOk result (λ file. file.items
        ≡ file_of client (held_in session.now client) parts.now) }
{
    let parts = with_client(alloc, client, parts)?;
    let buffers = session.packed(alloc, client)?;
    let mut file = Vec::new(alloc);
    put_header(&mut file, buffers.len() as u32)?;
    put_buffers(&mut file, &buffers)?;
    put_job(alloc, session, client, &parts, &mut file)?;
    Ok(file)
}
