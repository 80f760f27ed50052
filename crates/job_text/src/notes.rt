//! What a line says of its bytes.
ghost use Rattle.std.specs.Prelude.{◌≡◌, ◌++◌, codes, drop, OnOk};
ghost use Rattle.job_text.specs.Notes.{number_note, value_text, field_text, own_text, meant_text, listed_text, note_text};

use crate::floats::put_float;
use crate::instructions::{put_instruction, put_numbered};
use crate::meanings::{bits_style, put_size};
use crate::names::{put_counted, put_named, put_of_job, put_part, stage_name};
use crate::note::{Field, Meaning, Note, Part, Stage};
use crate::numbers::{instruction, put_number};
use crate::rows::{put_packet_row, put_valued};
use crate::uniforms::put_use;
use field_words::{byte_at, word_at};
use std::alloc::AllocError;

#[tactic(auto, unfolding(crate::specs::Notes::field_text))]
fn put_field(out: &mut Vec<u8>, part: Part, field: Field, bytes: &[u8]) -> Result<(), AllocError>
    ensures { OnOk result (out.new.items ≡ out.old.items ++ field_text part field bytes.now) }
{
    put_part(out, part)?;
    out.extend_from_slice(b": ")?;
    put_valued(out, field, bytes)
}

// Appends the number of a handle's buffer.
#[tactic(auto, unfolding(crate::specs::Names::of_job, crate::specs::Notes::number_note))]
fn put_handle(out: &mut Vec<u8>, job: u32, index: usize, bytes: &[u8]) -> Result<(), AllocError>
    ensures { OnOk result (out.new.items ≡ out.old.items
        ++ number_note job (codes "handle ") index (codes ": buffer ") bytes.now) }
{
    put_counted(out, job, b"handle ", index, b": buffer ")?;
    put_number(out, word_at(bytes, 0) as usize)
}

// Appends a uniform's number.
#[tactic(auto, unfolding(crate::specs::Names::of_job, crate::specs::Notes::number_note))]
fn put_uniform(out: &mut Vec<u8>, job: u32, index: usize, bytes: &[u8]) -> Result<(), AllocError>
    ensures { OnOk result (out.new.items ≡ out.old.items
        ++ number_note job (codes "uniform ") index (codes ": ") bytes.now) }
{
    put_counted(out, job, b"uniform ", index, b": ")?;
    put_number(out, word_at(bytes, 0) as usize)
}

// Appends the value as a float of a word that a shader takes as a number.
fn put_value(out: &mut Vec<u8>, meaning: Meaning, number: u32) -> Result<(), AllocError>
    ensures { OnOk result (out.new.items ≡ out.old.items ++ value_text meaning number) }
{
    match meaning {
        Meaning::Plain => put_float(out, number),
        _ => Ok(()),
    }
}

// Appends which of a shader's uniforms it is, where it is one.
fn put_own(out: &mut Vec<u8>, own: Option<usize>) -> Result<(), AllocError>
    ensures { OnOk result (out.new.items ≡ out.old.items ++ own_text own) }
{
    if let Some(own) = own {
        out.extend_from_slice(b" uniform ")?;
        put_number(out, own)?;
    }
    Ok(())
}

// Appends which shader takes a uniform, as which of its own, and what it makes of it.
#[tactic(auto, unfolding(crate::specs::Notes::meant_text))]
fn put_meant(
    out: &mut Vec<u8>,
    number: usize,
    stage: Stage,
    own: Option<usize>,
    meaning: Meaning,
) -> Result<(), AllocError>
    ensures { OnOk result (out.new.items
        ≡ out.old.items ++ meant_text number stage own meaning) }
{
    out.extend_from_slice(b"; record ")?;
    put_number(out, number)?;
    out.extend_from_slice(b" ")?;
    out.extend_from_slice(stage_name(stage).as_bytes())?;
    put_own(out, own)?;
    out.extend_from_slice(b": ")?;
    put_use(out, meaning)?;
    Ok(())
}

// What stands behind a packet's opcode.
fn behind_opcode(packet: &[u8]) -> &[u8]
    ensures { result.now ≡ drop 1 packet.now }
{
    match packet.split_first() {
        Some((_, behind)) => behind,
        None => packet,
    }
}

#[tactic(auto, unfolding(crate::specs::Names::of_job, crate::specs::Notes::listed_text))]
fn put_packet(
    out: &mut Vec<u8>,
    job: u32,
    buffer: Option<usize>,
    packet: &[u8],
) -> Result<(), AllocError>
    ensures { OnOk result (out.new.items ≡ out.old.items ++ listed_text job buffer packet.now) }
{
    put_of_job(out, job, b"binner list: ")?;
    put_packet_row(out, byte_at(packet, 0), behind_opcode(packet))?;
    put_named(out, buffer)?;
    Ok(())
}

/// Appends what a line says of its bytes.
#[tactic(auto, unfolding(crate::specs::Notes::note_text))]
pub(crate) fn put_note(out: &mut Vec<u8>, note: Note, bytes: &[u8]) -> Result<(), AllocError>
    ensures { OnOk result (out.new.items ≡ out.old.items ++ note_text note bytes.now) }
{
    match note {
        Note::Number(part, field) => put_field(out, part, field, bytes)?,
        Note::Named(part, field, buffer) => {
            put_field(out, part, field, bytes)?;
            put_named(out, buffer)?
        }
        Note::Sized(part, field, width, height) => {
            put_field(out, part, field, bytes)?;
            put_size(out, bits_style(field, word_at(bytes, 0)), width, height)?
        }
        Note::Handle(job, index) => put_handle(out, job, index, bytes)?,
        Note::Packet(job, buffer) => put_packet(out, job, buffer, bytes)?,
        Note::BehindHalt(job) => put_of_job(out, job, b"binner list: behind the halt")?,
        Note::Records(job) => put_of_job(out, job, b"shader records")?,
        Note::Uniform(job, index) => put_uniform(out, job, index, bytes)?,
        Note::Taken(job, index, record, stage, own, meaning) => {
            put_uniform(out, job, index, bytes)?;
            put_value(out, meaning, word_at(bytes, 0))?;
            put_meant(out, record, stage, own, meaning)?
        }
        Note::Data(buffer) => {
            out.extend_from_slice(b"buffer ")?;
            put_number(out, buffer as usize)?;
            out.extend_from_slice(b" content")?
        }
        Note::Instruction(buffer, index, uniform) => {
            put_numbered(out, buffer, index)?;
            put_instruction(out, instruction(bytes), uniform)?
        }
        Note::Unread => out.extend_from_slice(b"unread")?,
    }
    Ok(())
}
