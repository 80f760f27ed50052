//! A job's uniforms as pieces, by what its shaders make of them.

use crate::cutting::{Job, Pieces, part_at};
use crate::note::{Meaning, Note, STAGES, Stage};
use field_words::{MOST_CODE, NoMemory, Stop, word_at};
use job_check::shader_in;
use job_format::{ENTRY_SIZE, HEADER_SIZE};
use qpu_isa::{Sample, ShaderInfo};
use std::alloc::{AllocError, Global};

// What is known of the shader in a buffer of a kind; nothing where it isn't code, or a rule refuses it.
fn known_shader(alloc: Global, kind: u32, code: &[u8]) -> Result<Option<ShaderInfo>, NoMemory> {
    if kind != 1 || code.len() > MOST_CODE as usize {
        return Ok(None);
    }
    match shader_in(alloc, code) {
        Ok(info) => Ok(Some(info)),
        Err(Stop::Fault(_)) => Ok(None),
        Err(Stop::NoMemory) => Err(NoMemory),
    }
}

/// What is known of the shaders, by the buffers that hold them, where the first content begins at an offset.
pub(crate) fn known_shaders(
    alloc: Global,
    bytes: &[u8],
    buffers: u32,
    start: usize,
) -> Result<Vec<Option<ShaderInfo>>, NoMemory> {
    let mut known = Vec::new(alloc);
    let mut at = start;
    for buffer in 0..buffers {
        let entry = HEADER_SIZE + ENTRY_SIZE * buffer as usize;
        let size = word_at(bytes, entry + 16) as usize;
        let shader = known_shader(alloc, word_at(bytes, entry + 12), part_at(bytes, at, size))?;
        known.push(shader)?;
        at = at.saturating_add(size);
    }
    Ok(known)
}

fn set(meanings: &mut [Meaning], at: usize, meaning: Meaning) {
    if at < meanings.len() {
        meanings[at] = meaning;
    }
}

// The word of a number in a stream; 0 past its end.
fn uniform_at(stream: &[u8], number: usize) -> u32 {
    word_at(stream, number.saturating_mul(4))
}

// A set-up word of a sample in a stream, in front of which stand so many handles; 0 where there is none.
fn setup_word(stream: &[u8], before: usize, word: Option<u32>) -> u32 {
    match word {
        Some(number) => uniform_at(stream, before.saturating_add(number as usize)),
        None => 0,
    }
}

// What the set-up word of a number of a sample is.
fn meaning_of(sample: &Sample, number: u32, index: u8, words: [u32; 4]) -> Meaning {
    match (sample.direct, index) {
        (false, _) => Meaning::Setup(number, index, words),
        (true, 0) => Meaning::Address(number),
        (true, _) => Meaning::Bound(number),
    }
}

// Says of the words of a sample, in front of whose stream's uniforms stand so many handles, what they are.
fn set_sample(out: &mut [Meaning], stream: &[u8], before: usize, sample: &Sample, number: u32) {
    let words = [
        setup_word(stream, before, sample.p[0]),
        setup_word(stream, before, sample.p[1]),
        setup_word(stream, before, sample.p[2]),
        setup_word(stream, before, sample.p[3]),
    ];
    for index in 0..4u8 {
        if let Some(at) = sample.p[index as usize] {
            let meaning = meaning_of(sample, number, index, words);
            set(out, before.saturating_add(at as usize), meaning);
        }
    }
}

// Says of the words that samples and addresses take what they are.
fn set_words(out: &mut [Meaning], info: &ShaderInfo, stream: &[u8]) {
    let before = info.samples.len();
    let mut number = 0u32;
    for sample in &info.samples {
        set_sample(out, stream, before, sample, number);
        number = number.saturating_add(1);
    }
    for at in &info.address_words {
        set(out, before.saturating_add(*at as usize), Meaning::Stream);
    }
}

// What the words of a shader's stream are: a handle for each sample, and the uniforms that its instructions take.
fn meanings_of(
    alloc: Global,
    job: Job,
    info: &ShaderInfo,
    stream: &[u8],
) -> Result<Vec<Meaning>, AllocError> {
    let mut out = Vec::new(alloc);
    let mut number = 0u32;
    for _ in &info.samples {
        let buffer = job.buffer(uniform_at(stream, out.len()));
        out.push(Meaning::Source(number, buffer))?;
        number = number.saturating_add(1);
    }
    for _ in 0..info.uniforms {
        out.push(Meaning::Plain)?;
    }
    set_words(&mut out, info, stream);
    Ok(out)
}

// What is known of the shader that the handle at an offset of a job's records starts.
fn used_shader<'a>(
    job: Job,
    shaders: &'a [Option<ShaderInfo>],
    at: usize,
) -> Option<&'a ShaderInfo> {
    match shaders.get(job.buffer_at(job.records, at)?) {
        Some(Some(info)) => Some(info),
        _ => None,
    }
}

impl Pieces {
    // Appends the words that a shader of a record takes, and says whether all of them are there.
    fn push_stream(
        &mut self,
        alloc: Global,
        job: Job,
        user: (usize, Stage),
        info: &ShaderInfo,
    ) -> Result<bool, AllocError> {
        let at = job.uniforms.len().saturating_sub(self.left);
        let stream = part_at(job.uniforms, at, self.left);
        let total = info.samples.len().saturating_add(info.uniforms as usize);
        if stream.len() / 4 < total {
            return Ok(false);
        }
        let before = info.samples.len();
        let meanings = meanings_of(alloc, job, info, stream)?;
        for (index, meaning) in meanings.iter().enumerate() {
            let number = (at / 4).saturating_add(index);
            let own = index.checked_sub(before);
            self.push(
                4,
                Note::Taken(job.number, number, user.0, user.1, own, *meaning),
            )?;
        }
        Ok(true)
    }

    /// Appends the words that the shaders of a record take, which begins at an offset of the records, in the same way.
    pub fn push_streams(
        &mut self,
        alloc: Global,
        job: Job,
        shaders: &[Option<ShaderInfo>],
        record: (usize, usize),
    ) -> Result<bool, AllocError> {
        let (record, mut at) = record;
        for stage in STAGES {
            let Some(info) = used_shader(job, shaders, at) else {
                return Ok(false);
            };
            if !self.push_stream(alloc, job, (record, stage), info)? {
                return Ok(false);
            }
            at = at.saturating_add(4);
        }
        Ok(true)
    }

    /// Appends the uniforms that are left, as numbers alone.
    pub fn push_unknown(&mut self, job: Job) -> Result<(), AllocError> {
        let taken = job.uniforms.len().saturating_sub(self.left) / 4;
        self.push_all(4, Note::Uniform(job.number, taken))
    }

    /// Appends a job's uniforms, by the shaders of the records that begin at these offsets. Behind a shader that isn't known they are
    /// numbers alone.
    pub fn push_uniforms(
        &mut self,
        alloc: Global,
        job: Job,
        shaders: &[Option<ShaderInfo>],
        starts: &[usize],
    ) -> Result<(), AllocError> {
        self.left = job.uniforms.len();
        for record in 0..starts.len() {
            if !self.push_streams(alloc, job, shaders, (record, starts[record]))? {
                break;
            }
        }
        self.push_unknown(job)
    }
}
