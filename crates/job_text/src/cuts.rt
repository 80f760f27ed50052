//! A file cut into parts.

use crate::cutting::{Job, Pieces, part_at};
use crate::note::{Cut, Field, Note, Part, Role};
use crate::streams::known_shaders;
use field_words::{NoMemory, get_u16, word_at};
use job_format::{ENTRY_SIZE, HEADER_SIZE, JOB_SIZE, MOST_BUFFERS};
use qpu_isa::ShaderInfo;
use std::alloc::{AllocError, Global};

const HEADER: [Field; 9] = [
    Field::Word("letters"),
    Field::Plain("version", 4),
    Field::Plain("memory size", 4),
    Field::Word("lists' place"),
    Field::Plain("lists' size", 4),
    Field::Word("tile region's place"),
    Field::Plain("tile slots", 4),
    Field::Plain("buffers", 4),
    Field::Plain("jobs", 4),
];

const BUFFER: [Field; 5] = [
    Field::Word("place"),
    Field::Plain("size", 4),
    Field::Plain("client", 4),
    Field::Kind,
    Field::Plain("bytes of content", 4),
];

/// The fields of a job's entry before its surfaces, and behind them.
const JOB: [Field; 13] = [
    Field::Plain("client", 4),
    Field::Flags,
    Field::Plain("handles", 4),
    Field::Plain("bytes of the binner list", 4),
    Field::Plain("bytes of the records", 4),
    Field::Plain("declared shader states", 4),
    Field::Plain("bytes of the uniforms", 4),
    Field::Width,
    Field::Height,
    Field::Plain("smallest tile x", 1),
    Field::Plain("smallest tile y", 1),
    Field::Plain("largest tile x", 1),
    Field::Plain("largest tile y", 1),
];

const CLEAR: [Field; 5] = [
    Field::Word("clear colour 0"),
    Field::Word("clear colour 1"),
    Field::Plain("clear Z", 4),
    Field::Plain("clear stencil", 1),
    Field::Plain("zeros", 3),
];

/// The surfaces of a job, in order.
const ROLES: [Role; 6] = [
    Role::ColorRead,
    Role::ColorWrite,
    Role::ZsRead,
    Role::ZsWrite,
    Role::SampleColorWrite,
    Role::SampleZsWrite,
];

// The bits of a surface mean what its role says.
fn bits_of(role: Role) -> Field {
    match role {
        Role::ColorWrite => Field::FrameBits,
        Role::SampleColorWrite | Role::SampleZsWrite => Field::Plain("bits", 2),
        _ => Field::GeneralBits,
    }
}

// The note of a surface's bits, with the frame's sides where the surface is there and isn't in full resolution.
fn bits_note(job: Job, role: Role, surface: &[u8]) -> Note {
    let part = Part::Surface(job.number, role);
    let flags = get_u16(surface, 10).unwrap_or(0);
    if word_at(surface, 0) == u32::MAX || flags % 2 == 1 {
        return Note::Number(part, bits_of(role));
    }
    let width = get_u16(job.entry, 28).unwrap_or(0);
    let height = get_u16(job.entry, 30).unwrap_or(0);
    Note::Sized(part, bits_of(role), width, height)
}

// What stands in bytes from an offset on, which is then behind it.
fn next_part<'a>(bytes: &'a [u8], at: &mut usize, size: usize) -> &'a [u8] {
    let part = part_at(bytes, *at, size);
    *at = at.saturating_add(size);
    part
}

// The job whose entry and whose handles begin at these offsets.
fn job_at<'a>(bytes: &'a [u8], number: u32, entry: usize, at: &mut usize) -> Job<'a> {
    let entry = part_at(bytes, entry, JOB_SIZE);
    Job {
        number,
        entry,
        handles: next_part(bytes, at, 4 * word_at(entry, 8) as usize),
        list: next_part(bytes, at, word_at(entry, 12) as usize),
        records: next_part(bytes, at, word_at(entry, 16) as usize),
        uniforms: next_part(bytes, at, word_at(entry, 24) as usize),
    }
}

// How many of so many entries of a size begin in a file, from an offset on.
fn entries_in(bytes: &[u8], first: usize, size: usize, count: u32) -> u32 {
    let mut at = first;
    for number in 0..count {
        if at >= bytes.len() {
            return number;
        }
        at = at.saturating_add(size);
    }
    count
}

// Where the handles of the first job begin, where the first content begins at an offset.
fn contents_end(bytes: &[u8], buffers: u32, start: usize) -> usize {
    let mut at = start;
    for buffer in 0..buffers {
        let entry = HEADER_SIZE + ENTRY_SIZE * buffer as usize;
        at = at.saturating_add(word_at(bytes, entry + 16) as usize);
    }
    at
}

impl Pieces {
    // Appends a surface, which begins the given bytes.
    fn push_surface(&mut self, job: Job, role: Role, surface: &[u8]) -> Result<(), AllocError> {
        let part = Part::Surface(job.number, role);
        let buffer = job.buffer_at(surface, 0);
        self.push(4, Note::Named(part, Field::HandleIndex, buffer))?;
        self.push_fields(part, &[Field::Plain("offset", 4)])?;
        self.push(2, bits_note(job, role, surface))?;
        self.push_fields(part, &[Field::SurfaceFlags])
    }

    // Appends a job's entry.
    fn push_job(&mut self, job: Job) -> Result<(), AllocError> {
        self.push_fields(Part::Job(job.number), &JOB)?;
        let mut at = 36usize;
        for role in ROLES {
            self.push_surface(job, role, next_part(job.entry, &mut at, 12))?;
        }
        self.push_fields(Part::Job(job.number), &CLEAR)
    }

    // Appends a buffer's content, which begins at an offset, and says where it ends.
    fn push_content(&mut self, bytes: &[u8], buffer: u32, at: usize) -> Result<usize, AllocError> {
        let entry = HEADER_SIZE + ENTRY_SIZE * buffer as usize;
        let size = word_at(bytes, entry + 16) as usize;
        let content = part_at(bytes, at, size);
        if word_at(bytes, entry + 12) == 1 {
            self.cuts.push(Cut::Code(buffer, content.len()))?;
        } else {
            self.left = content.len();
            self.push_all(32, Note::Data(buffer))?;
        }
        Ok(at.saturating_add(size))
    }

    // Appends a job's parts.
    fn push_parts(
        &mut self,
        alloc: Global,
        job: Job,
        shaders: &[Option<ShaderInfo>],
    ) -> Result<(), AllocError> {
        let mut starts = Vec::new(alloc);
        self.left = job.handles.len();
        self.push_all(4, Note::Handle(job.number, 0))?;
        self.push_list(job)?;
        self.push_records(job, &mut starts)?;
        self.push_uniforms(alloc, job, shaders, &starts)
    }

    // Appends pieces of bytes that belong to nothing, from an offset on.
    fn push_unread(&mut self, bytes: &[u8], at: usize) -> Result<(), NoMemory> {
        self.left = bytes.len().saturating_sub(at);
        self.push_all(16, Note::Unread)?;
        Ok(())
    }

    // Appends the entries of so many buffers and those of the jobs, as far as the file goes, and says where the parts end. The first
    // content begins at an offset.
    fn push_entries<'a>(
        &mut self,
        bytes: &'a [u8],
        jobs: &mut Vec<Job<'a>>,
        buffers: u32,
        start: usize,
    ) -> Result<usize, AllocError> {
        let first = HEADER_SIZE + ENTRY_SIZE * word_at(bytes, 28) as usize;
        for buffer in 0..buffers {
            self.push_fields(Part::Buffer(buffer), &BUFFER)?;
        }
        let mut at = contents_end(bytes, buffers, start);
        for number in 0..entries_in(bytes, first, JOB_SIZE, word_at(bytes, 32)) {
            let job = job_at(bytes, number, first + JOB_SIZE * number as usize, &mut at);
            self.push_job(job)?;
            jobs.push(job)?;
        }
        Ok(at)
    }

    // Appends what follows the header, as far as the file goes.
    fn push_rest(&mut self, alloc: Global, bytes: &[u8]) -> Result<(), NoMemory> {
        let entries = HEADER_SIZE + ENTRY_SIZE * word_at(bytes, 28) as usize;
        let start = entries + JOB_SIZE * word_at(bytes, 32) as usize;
        let buffers = entries_in(bytes, HEADER_SIZE, ENTRY_SIZE, word_at(bytes, 28));
        let mut jobs = Vec::new(alloc);
        let end = self.push_entries(bytes, &mut jobs, buffers, start)?;
        let mut at = start;
        for buffer in 0..buffers {
            at = self.push_content(bytes, buffer, at)?;
        }
        let shaders = known_shaders(alloc, bytes, buffers, start)?;
        for job in &jobs {
            self.push_parts(alloc, *job, &shaders)?;
        }
        self.push_unread(bytes, end)
    }
}

/// The parts of a file, in order, as far as it goes. Behind the header of one that claims more buffers than a file may have, nothing is
/// read.
pub(crate) fn cuts_of(alloc: Global, bytes: &[u8]) -> Result<Vec<Cut>, NoMemory> {
    let mut out = Pieces::new(alloc, usize::MAX);
    out.push_fields(Part::Header, &HEADER)?;
    if word_at(bytes, 28) > MOST_BUFFERS {
        out.push_unread(bytes, HEADER_SIZE)?;
    } else {
        out.push_rest(alloc, bytes)?;
    }
    Ok(out.cuts)
}
