//! The draws of a file as text.
ghost use Rattle.std.specs.Prelude.{ℕ, ◌≡◌, IfOk, OnOk};
ghost use Rattle.bin_list.specs.Packets.{packets, draws};
ghost use Rattle.job_text.specs.Draws.{stretch_of, part_in, job_part, front, behind, by_state, record_taken, IsPacketPut, AreDraws, AreJobDraws, IsDrawsText, jobs_drawn};
ghost use Rattle.job_text.specs.Shown.{look_of};

use crate::cutting::{Job, Pieces, part_at};
use crate::list::{Record, packet_note};
use crate::meanings::put_if;
use crate::note::Cut;
use crate::span::Span;
use crate::streams::known_shaders;
use crate::view::View;
use crate::writing::{put_line, put_lines};
use bin_list::{draws, split_front};
use field_words::{NoMemory, byte_at, word_at};
use job_format::{JOB_SIZE, MOST_BUFFERS, MOST_JOBS, Part, Place, offset_of};
use packets::opcode::GL_SHADER_STATE;
use qpu_isa::ShaderInfo;
use shader_records::source_size;
use std::alloc::Global;

// A file, and what is known of its shaders.
#[derive(Clone, Copy)]
struct Known<'a> {
    bytes: &'a [u8],
    shaders: &'a [Option<ShaderInfo>],
}

// A walk through the list of a job: what is left of its records and uniforms, the number of the next record, and the buffer of indexes.
#[derive(Clone, Copy)]
struct Walk<'a> {
    job: Job<'a>,
    shaders: &'a [Option<ShaderInfo>],
    records: Span<'a>,
    uniforms: Span<'a>,
    number: usize,
    buffer: Option<usize>,
}

// So many bytes of a part of the file, as far as the file goes.
#[tactic(auto, unfolding(crate::specs::Draws::part_in))]
fn part_in(bytes: &[u8], part: Part, index: u32, size: usize) -> Span<'_>
    ensures { stretch_of result ≡ part_in bytes.now part index size }
{
    let start = offset_of(bytes, Place { part, index, at: 0 });
    let at = start.min(bytes.len() as u128) as usize;
    Span {
        at,
        bytes: part_at(bytes, at, size),
    }
}

// A part of a job, whose size its entry has at a byte.
fn job_part(bytes: &[u8], part: Part, job: u32, at: usize) -> Span<'_>
    ensures { stretch_of result ≡ job_part bytes.now part job at }
{
    let entry = part_in(bytes, Part::JobEntry, job, JOB_SIZE);
    part_in(bytes, part, job, word_at(entry.bytes, at) as usize)
}

// The front of some bytes, of a size, and what is behind it.
fn split(span: Span<'_>, size: usize) -> (Span<'_>, Span<'_>)
    ensures front { stretch_of result.0 ≡ front size (stretch_of span.entry) }
    ensures rest { stretch_of result.1 ≡ behind size (stretch_of span.entry) }
{
    let (front, rest) = span.bytes.split_at(size.min(span.bytes.len()));
    (
        Span {
            at: span.at,
            bytes: front,
        },
        Span {
            at: span.at + front.len(),
            bytes: rest,
        },
    )
}

// Behind a shader state so many bytes are taken, behind any other packet none.
#[tactic(auto, unfolding(crate::specs::Draws::by_state))]
fn by_state(packet: &[u8], size: usize) -> usize
    ensures { result ≡ by_state packet.now size }
{
    if byte_at(packet, 0) == GL_SHADER_STATE {
        size
    } else {
        0
    }
}

// The bytes of a state's record, with its handles.
#[tactic(auto, unfolding(crate::specs::Draws::record_taken))]
fn record_taken(packet: &[u8]) -> usize
    ensures { result ≡ record_taken packet.now }
{
    by_state(packet, source_size(word_at(packet, 1)))
}

impl<'a> Walk<'a> {
    // A state's record, cut into pieces.
    fn record_cuts(&self, alloc: Global, packet: &[u8]) -> Result<Vec<Cut>, NoMemory> {
        let mut pieces = Pieces::new(alloc, self.records.bytes.len());
        if byte_at(packet, 0) == GL_SHADER_STATE {
            let (job, number) = (self.job, self.number);
            pieces.push_record(Record { job, number }, word_at(packet, 1))?;
        }
        Ok(pieces.cuts)
    }

    // The pieces of the uniforms that the shaders of a state's record take, and how many bytes of the uniforms are then left.
    fn uniform_pieces(&self, alloc: Global, packet: &[u8]) -> Result<Pieces, NoMemory> {
        let mut pieces = Pieces::new(alloc, self.uniforms.bytes.len());
        let left = self.records.bytes.len();
        let record = (self.number, self.job.records.len().saturating_sub(left));
        if byte_at(packet, 0) == GL_SHADER_STATE
            && !pieces.push_streams(alloc, self.job, self.shaders, record)?
        {
            pieces.push_unknown(self.job)?;
        }
        Ok(pieces)
    }

    // Writes the lines of a packet, and of the record and the uniforms of a state; behind a draw an empty line.
    fn put_packet(
        &mut self,
        alloc: Global,
        out: &mut Vec<u8>,
        packet: Span<'_>,
        view: View<'_>,
    ) -> Result<(), NoMemory>
        ensures { OnOk result ((taken : ℕ)
            × IsPacketPut (look_of view.entry) (stretch_of packet.entry)
            (stretch_of self.old.records) (stretch_of self.old.uniforms) taken out.old.items out.new.items
            × (stretch_of self.new.records
            ≡ behind (record_taken packet.entry.bytes.now) (stretch_of self.old.records))
            × (stretch_of self.new.uniforms
            ≡ behind (by_state packet.entry.bytes.now taken) (stretch_of self.old.uniforms))) }
    {
        self.buffer = self.job.indexes_behind(packet.bytes, self.buffer);
        let note = packet_note(self.job.number, packet.bytes, self.buffer);
        put_line(alloc, out, packet, note, view)?;
        let cuts = self.record_cuts(alloc, packet.bytes)?;
        let (record, records) = split(self.records, record_taken(packet.bytes));
        put_lines(alloc, out, record, &cuts, view)?;
        let pieces = self.uniform_pieces(alloc, packet.bytes)?;
        let size = self.uniforms.bytes.len().saturating_sub(pieces.left);
        let (taken, uniforms) = split(self.uniforms, by_state(packet.bytes, size));
        put_lines(alloc, out, taken, &pieces.cuts, view)?;
        put_if(out, draws(packet.bytes), "\n")?;
        self.records = records;
        self.uniforms = uniforms;
        self.number = self.number.saturating_add(by_state(packet.bytes, 1));
        Ok(())
    }
}

// Writes the lines of a list's packets, and of their states' records and uniforms.
fn put_list(
    alloc: Global,
    out: &mut Vec<u8>,
    walk: Walk<'_>,
    list: Span<'_>,
    view: View<'_>,
) -> Result<(), NoMemory>
    ensures { OnOk result (AreDraws (look_of view.entry) list.entry.at (packets list.entry.bytes.now)
        (stretch_of walk.entry.records) (stretch_of walk.entry.uniforms) out.old.items out.new.items) }
{
    let mut now = walk;
    let mut rest = list.bytes;
    let mut at = list.at;
    while !rest.is_empty() {
        let (packet, behind) = split_front(rest);
        now.put_packet(alloc, out, Span { at, bytes: packet }, view)?;
        at += packet.len();
        rest = behind;
    }
    Ok(())
}

// Writes the lines of the draws of a job, where so much is known of the shaders.
fn put_job(
    alloc: Global,
    out: &mut Vec<u8>,
    file: Known<'_>,
    number: u32,
    view: View<'_>,
) -> Result<(), NoMemory>
    ensures { OnOk result (AreJobDraws (look_of view.entry) file.entry.bytes.now number
        out.old.items out.new.items) }
{
    let bytes = file.bytes;
    let entry = part_in(bytes, Part::JobEntry, number, JOB_SIZE).bytes;
    let handles = part_in(bytes, Part::Handles, number, 4 * word_at(entry, 8) as usize);
    let list = job_part(bytes, Part::BinnerList, number, 12);
    let records = job_part(bytes, Part::Records, number, 16);
    let uniforms = job_part(bytes, Part::Uniforms, number, 24);
    let job = Job {
        number,
        entry,
        handles: handles.bytes,
        list: list.bytes,
        records: records.bytes,
        uniforms: uniforms.bytes,
    };
    let walk = Walk {
        job,
        shaders: file.shaders,
        records,
        uniforms,
        number: 0,
        buffer: job.buffer(0),
    };
    put_list(alloc, out, walk, list, view)
}

/// The draws of any bytes, as far as they are a job file, in lines as `show` has them: of each job's binner list the packets, behind each
/// shader state its record and the uniforms that the record's shaders take, and behind each draw an empty line. So a draw with the state
/// of the draw before has its packets alone. Where a rule refuses a byte of them, its line is marked. Want of memory is the only error.
#[tactic(auto, unfolding(crate::specs::Draws::jobs_drawn))]
pub fn show_draws(alloc: Global, bytes: &[u8], view: View<'_>) -> Result<Vec<u8>, NoMemory>
    ensures { IfOk result (λ text.
        IsDrawsText (look_of view.entry) bytes.now (jobs_drawn bytes.now) text.items) }
{
    let mut out = Vec::new(alloc);
    let (buffers, jobs) = (word_at(bytes, 28), word_at(bytes, 32));
    if buffers > MOST_BUFFERS || jobs > MOST_JOBS {
        return Ok(out);
    }
    let contents = part_in(bytes, Part::Contents, 0, 0);
    let shaders = known_shaders(alloc, bytes, buffers, contents.at)?;
    let file = Known {
        bytes,
        shaders: &shaders,
    };
    for number in 0..jobs {
        put_job(alloc, &mut out, file, number, view)?;
    }
    Ok(out)
}
