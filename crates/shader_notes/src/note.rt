//! The notes, and their words.
ghost use Rattle.std.specs.Prelude.{◌≡◌, ◌||◌, Some, is_some};
ghost use Rattle.shader_notes.specs.Text.{sentence_of, line_text, lines_of, notes_text, has_note};

use std::fmt;

/// What no real shader does.
#[derive(Clone, Copy, Debug, PartialEq, Eq)]
pub enum Note {
    /// The last switch has signal 2.
    LastUnmarked,
    /// A switch of signal 6 isn't the last.
    MarkedEarly,
    /// The tile buffer is accessed, or the scoreboard waited for, before the last switch.
    LockedEarly,
    /// One of the first two instructions accesses the tile buffer.
    TileAtStart,
    /// The program end writes a register of a file.
    EndWrites,
    /// The program end, or one of the two instructions behind it, uses register 14 of a file.
    Register14,
    /// The last of them writes depth.
    DepthLast,
    /// r4 is read in the two instructions behind a special function.
    ReadEarly,
    /// An accumulator is rotated directly behind a write of it.
    RotatedEarly,
}

impl Note {
    /// The note in words.
    #[tactic(auto, unfolding(crate::specs::Text::sentence_of))]
    pub fn sentence(self) -> &'static str
        ensures { result.now ≡ sentence_of self }
    {
        match self {
            Note::LastUnmarked => {
                "the last switch has signal 2, where 6 would say that it is the last"
            }
            Note::MarkedEarly => {
                "signal 6 says that a switch is the last, and another stands behind it"
            }
            Note::LockedEarly => {
                "the tile buffer is accessed, or the scoreboard waited for, before the last switch"
            }
            Note::TileAtStart => "one of the first two instructions accesses the tile buffer",
            Note::EndWrites => "the program end writes a register of file A or B",
            Note::Register14 => {
                "one of the last three instructions uses register 14 of file A or B"
            }
            Note::DepthLast => "the last instruction writes depth (44)",
            Note::ReadEarly => "r4 is read in the two instructions behind a special function",
            Note::RotatedEarly => {
                "a vector is rotated directly behind a write of the rotated accumulator"
            }
        }
    }
}

/// The notes that a shader gets, each with the first instruction that it names. They are printed as lines, without a line feed behind the
/// last, and take no memory, also to print.
#[derive(Clone, Copy, Debug, PartialEq, Eq)]
pub struct Notes {
    pub last_unmarked: Option<u32>,
    pub marked_early: Option<u32>,
    pub locked_early: Option<u32>,
    pub tile_at_start: Option<u32>,
    pub end_writes: Option<u32>,
    pub register_14: Option<u32>,
    pub depth_last: Option<u32>,
    pub read_early: Option<u32>,
    pub rotated_early: Option<u32>,
}

/// The line of a note, where some instruction gets it, and whether another line stands before it.
#[derive(Clone, Copy)]
struct Line {
    begun: bool,
    note: Note,
    at: Option<u32>,
}

impl Line {
    /// The line of the next note.
    fn next(self, note: Note, at: Option<u32>) -> Line
        ensures { result ≡ record { begun = self.begun || is_some self.at; note = note; at = at } }
    {
        Line {
            begun: self.begun || self.at.is_some(),
            note,
            at,
        }
    }
}

impl fmt::Display for Line {
    ghost output = { λ line. Some (line_text line.begun line.note line.at) };

    #[tactic(auto, unfolding(crate::specs::Text::line_text))]
    fn fmt<W: fmt::Write>(&self, f: &mut fmt::Formatter<W>) -> fmt::Result {
        match self.at {
            Some(at) => {
                let feed = if self.begun { "\n" } else { "" };
                let sentence = self.note.sentence();
                write!(f, "{}note: {} (instruction {})", feed, sentence, at)
            }
            None => Ok(()),
        }
    }
}

impl Notes {
    /// Whether there is one.
    #[tactic(auto, unfolding(crate::specs::Text::has_note, crate::specs::Text::lines_of))]
    pub fn has_note(&self) -> bool
        ensures { result ≡ has_note self.now }
    {
        self.last_unmarked.is_some()
            || self.marked_early.is_some()
            || self.locked_early.is_some()
            || self.tile_at_start.is_some()
            || self.end_writes.is_some()
            || self.register_14.is_some()
            || self.depth_last.is_some()
            || self.read_early.is_some()
            || self.rotated_early.is_some()
    }
}

impl fmt::Display for Notes {
    ghost output = { λ notes. Some (notes_text notes) };

    #[tactic(auto, unfolding(crate::specs::Text::notes_text, crate::specs::Text::lines_text, crate::specs::Text::lines_of))]
    fn fmt<W: fmt::Write>(&self, f: &mut fmt::Formatter<W>) -> fmt::Result {
        let first = Line {
            begun: false,
            note: Note::LastUnmarked,
            at: self.last_unmarked,
        };
        let second = first.next(Note::MarkedEarly, self.marked_early);
        let third = second.next(Note::LockedEarly, self.locked_early);
        let fourth = third.next(Note::TileAtStart, self.tile_at_start);
        let fifth = fourth.next(Note::EndWrites, self.end_writes);
        let sixth = fifth.next(Note::Register14, self.register_14);
        let seventh = sixth.next(Note::DepthLast, self.depth_last);
        let eighth = seventh.next(Note::ReadEarly, self.read_early);
        let ninth = eighth.next(Note::RotatedEarly, self.rotated_early);
        write!(
            f,
            "{first}{second}{third}{fourth}{fifth}{sixth}{seventh}{eighth}{ninth}"
        )
    }
}
