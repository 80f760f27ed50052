//! A binner list and the records of its states as pieces.

use crate::cutting::{Job, Pieces};
use crate::note::{Field, Note, Part, STAGES, Stage};
use bin_list::split_front;
use field_words::{byte_at, word_at};
use packets::opcode::{BUFFER_HANDLES, GL_SHADER_STATE, INDEXED_PRIMITIVE_LIST};
use packets::{attribute_count, is_extended};
use std::alloc::AllocError;

/// The words of a record for one shader.
const CODE: [Field; 2] = [
    Field::Plain("code address", 4),
    Field::Plain("uniforms' address", 4),
];

/// What stands between two shaders.
const FURTHER: [Field; 1] = [Field::Plain("further word", 4)];

/// The fields of an attribute, and the field of an extended record for one.
const ATTRIBUTE: [Field; 5] = [
    Field::Address,
    Field::Plain("size less one", 1),
    Field::Plain("stride", 1),
    Field::Plain("vertex shader's offset", 1),
    Field::Plain("coordinate shader's offset", 1),
];

const HIGH_STRIDE: [Field; 1] = [Field::Plain("high bits of the stride", 4)];

/// A record of a job by its number.
#[derive(Clone, Copy)]
pub(crate) struct Record<'a> {
    pub job: Job<'a>,
    pub number: usize,
}

impl<'a> Record<'a> {
    fn shader(&self, stage: Stage) -> Part {
        Part::Shader(self.job.number, self.number, stage)
    }

    fn attribute(&self, attribute: usize) -> Part {
        Part::Attribute(self.job.number, self.number, attribute)
    }
}

impl Job<'_> {
    /// The buffer of indexes behind a packet of the job's list, by that before it.
    pub fn indexes_behind(&self, packet: &[u8], buffer: Option<usize>) -> Option<usize> {
        if byte_at(packet, 0) == BUFFER_HANDLES {
            return self.buffer_at(packet, 1);
        }
        buffer
    }
}

/// What a packet of a job's list is, where indexes are read from a buffer.
pub(crate) fn packet_note(job: u32, packet: &[u8], buffer: Option<usize>) -> Note {
    match byte_at(packet, 0) {
        BUFFER_HANDLES | INDEXED_PRIMITIVE_LIST => Note::Packet(job, buffer),
        _ => Note::Packet(job, None),
    }
}

impl Pieces {
    /// Appends a job's binner list: its packets, and what stands behind a halt.
    pub fn push_list(&mut self, job: Job) -> Result<(), AllocError> {
        let mut rest = job.list;
        let mut buffer = job.buffer(0);
        self.left = rest.len();
        while !rest.is_empty() {
            let (packet, behind) = split_front(rest);
            buffer = job.indexes_behind(packet, buffer);
            self.push(packet.len(), packet_note(job.number, packet, buffer))?;
            rest = behind;
        }
        self.push_all(16, Note::BehindHalt(job.number))
    }

    // Appends the handle of a part of a record.
    fn push_handle(&mut self, record: Record, part: Part) -> Result<(), AllocError> {
        let at = record.job.records.len().saturating_sub(self.left);
        let buffer = record.job.buffer_at(record.job.records, at);
        self.push(4, Note::Named(part, Field::Plain("handle", 4), buffer))
    }

    fn push_handles(&mut self, record: Record, attributes: usize) -> Result<(), AllocError> {
        for stage in STAGES {
            self.push_handle(record, record.shader(stage))?;
        }
        for attribute in 0..attributes {
            self.push_handle(record, record.attribute(attribute))?;
        }
        Ok(())
    }

    fn push_fixed(&mut self, record: Record) -> Result<(), AllocError> {
        let part = Part::Record(record.job.number, record.number);
        let head = [Field::RecordFlags, Field::Plain("further bytes", 2)];
        self.push_fields(part, &head)?;
        self.push_fields(record.shader(Stage::Fragment), &CODE)?;
        self.push_fields(part, &FURTHER)?;
        self.push_fields(record.shader(Stage::Vertex), &CODE)?;
        self.push_fields(part, &FURTHER)?;
        self.push_fields(record.shader(Stage::Coordinate), &CODE)
    }

    /// Appends a record by its state's word. An extended one has behind its attributes the room of those up to eight, and the strides'
    /// words.
    pub fn push_record(&mut self, record: Record, state: u32) -> Result<(), AllocError> {
        let attributes = attribute_count(state) as usize;
        self.push_handles(record, attributes)?;
        self.push_fixed(record)?;
        for attribute in 0..attributes {
            self.push_fields(record.attribute(attribute), &ATTRIBUTE)?;
        }
        if is_extended(state) {
            let unused = 8usize.saturating_sub(attributes);
            self.push(8 * unused, Note::Records(record.job.number))?;
            for attribute in 0..attributes {
                self.push_fields(record.attribute(attribute), &HIGH_STRIDE)?;
            }
        }
        Ok(())
    }

    /// Appends a job's shader records, which are those of its list's states, and to `starts` where each begins.
    pub fn push_records(&mut self, job: Job, starts: &mut Vec<usize>) -> Result<(), AllocError> {
        let mut rest = job.list;
        self.left = job.records.len();
        while !rest.is_empty() && self.left > 0 {
            let (packet, behind) = split_front(rest);
            if byte_at(packet, 0) == GL_SHADER_STATE {
                let number = starts.len();
                starts.push(job.records.len().saturating_sub(self.left))?;
                self.push_record(Record { job, number }, word_at(packet, 1))?;
            }
            rest = behind;
        }
        self.push_all(16, Note::Records(job.number))
    }
}
