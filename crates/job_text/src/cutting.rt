//! The pieces of a file, as they are appended.
ghost use Rattle.std.specs.Prelude.{◌≡◌, take, drop};

use crate::names::field_size;
use crate::note::{Cut, Field, Note, Part, Piece};
use field_words::get_u32;
use std::alloc::{AllocError, Global};

/// The pieces so far, and how many bytes are left of the part of the file that is being cut.
#[derive(Drop)]
pub(crate) struct Pieces {
    pub cuts: Vec<Cut>,
    pub left: usize,
}

/// A job's entry and parts, as many bytes of each as there are.
#[derive(Clone, Copy)]
pub(crate) struct Job<'a> {
    pub number: u32,
    pub entry: &'a [u8],
    pub handles: &'a [u8],
    pub list: &'a [u8],
    pub records: &'a [u8],
    pub uniforms: &'a [u8],
}

impl<'a> Job<'a> {
    /// The buffer that a handle of this index names.
    pub fn buffer(&self, index: u32) -> Option<usize> {
        Some(get_u32(self.handles, 4 * index as usize)? as usize)
    }

    /// The buffer of the handle whose index stands at a place.
    pub fn buffer_at(&self, bytes: &[u8], at: usize) -> Option<usize> {
        self.buffer(get_u32(bytes, at)?)
    }
}

/// What stands in bytes from an offset on, up to a size.
pub(crate) fn part_at(bytes: &[u8], start: usize, size: usize) -> &[u8]
    ensures { result.now ≡ take size (drop start bytes.now) }
{
    let (_, rest) = bytes.split_at(start.min(bytes.len()));
    &rest[..size.min(rest.len())]
}

// The note of a piece behind so many others, where it counts.
fn numbered(note: Note, number: usize) -> Note {
    match note {
        Note::Handle(job, first) => Note::Handle(job, first.saturating_add(number)),
        Note::Uniform(job, first) => Note::Uniform(job, first.saturating_add(number)),
        other => other,
    }
}

impl Pieces {
    /// No pieces yet, of a part of so many bytes.
    pub fn new(alloc: Global, left: usize) -> Self {
        Pieces {
            cuts: Vec::new(alloc),
            left,
        }
    }

    /// Appends a piece of a size, or of what is left.
    pub fn push(&mut self, size: usize, note: Note) -> Result<(), AllocError> {
        let size = size.min(self.left);
        if size > 0 {
            self.cuts.push(Cut::Line(Piece { size, note }))?;
        }
        self.left -= size;
        Ok(())
    }

    /// Appends what is left, in pieces of a size, of which the last may be shorter.
    pub fn push_all(&mut self, size: usize, note: Note) -> Result<(), AllocError> {
        for number in 0..self.left {
            if self.left == 0 {
                break;
            }
            self.push(size, numbered(note, number))?;
        }
        Ok(())
    }

    /// Appends fields of a part of the file.
    pub fn push_fields(&mut self, part: Part, fields: &[Field]) -> Result<(), AllocError> {
        for field in fields {
            self.push(field_size(*field), Note::Number(part, *field))?;
        }
        Ok(())
    }
}
