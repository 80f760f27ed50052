//! How a file is shown.
ghost use Rattle.std.specs.Prelude.{◌≡◌};
ghost use Rattle.job_text.specs.Shown.{is_content, is_left_out, is_in, is_past};

use crate::note::Note;

/// What a text of a file leaves out, so that the texts of two files can be compared.
#[derive(Clone, Copy, Debug, Default, PartialEq, Eq)]
pub struct Omitted {
    /// The lines of buffers' contents, but for one where the file is refused.
    pub contents: bool,
    /// The offset on each line.
    pub offsets: bool,
}

/// How a file is shown: what is left out; the offset in bytes of the byte at which it is refused, if it is, or behind which, so that the
/// mark has a line of its own; and the reason, of which the first line is shown there.
#[derive(Clone, Copy, Debug)]
pub struct View<'a> {
    pub omitted: Omitted,
    pub refused: Option<u128>,
    pub behind: bool,
    pub why: &'a [u8],
}

// Whether bytes are some of a buffer's contents.
fn is_content(note: Note) -> bool
    ensures { result ≡ is_content note }
{
    match note {
        Note::Data(_) => true,
        Note::Instruction(_, _, _) => true,
        _ => false,
    }
}

impl View<'_> {
    /// Whether the line of a note is left out.
    #[tactic(auto, unfolding(crate::specs::Shown::is_left_out))]
    pub fn leaves_out(&self, note: Note, refused: bool) -> bool
        ensures { result ≡ is_left_out self.now.omitted note refused }
    {
        self.omitted.contents && is_content(note) && !refused
    }

    /// Whether the file is refused in so many bytes from an offset on.
    #[tactic(auto, unfolding(crate::specs::Shown::is_in))]
    pub fn is_refused_in(&self, at: usize, count: usize) -> bool
        ensures { result ≡ is_in at count self.now.refused }
    {
        match self.refused {
            None => false,
            Some(offset) => at as u128 <= offset && offset - (at as u128) < count as u128,
        }
    }

    /// Whether the file is refused behind so many bytes.
    #[tactic(auto, unfolding(crate::specs::Shown::is_past))]
    pub fn is_refused_past(&self, count: usize) -> bool
        ensures { result ≡ is_past count self.now.refused }
    {
        match self.refused {
            None => false,
            Some(offset) => count as u128 <= offset,
        }
    }
}
