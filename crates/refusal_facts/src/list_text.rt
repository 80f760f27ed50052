//! The facts of a job's lists and surfaces as a person reads them.
ghost use Rattle.std.specs.Prelude.{◌≡◌, Some};
ghost use Rattle.refusal_facts.specs.Text.{room_text, stage_text, use_text, width_text, index_text, state_text, said_text, switch_text, thread_text, end_text, kind_text, name_text, pixels_text};

use crate::fact::{
    EndFact, IndexFact, NameFact, PixelsFact, RoomFact, StateFact, ThreadFact, UseFact,
};
use crate::text::Address;
use buffer_table::Kind;
use std::fmt;

/// Which of a record's shaders it is.
#[tactic(auto, unfolding(crate::specs::Text::stage_text))]
fn stage_name(stage: u32) -> &'static str
    ensures { result.now ≡ stage_text stage }
{
    match stage {
        0 => "fragment shader",
        1 => "vertex shader",
        _ => "coordinate shader",
    }
}

impl fmt::Display for UseFact {
    ghost output = { λ shader. Some (use_text shader) };

    #[tactic(auto, unfolding(crate::specs::Text::use_text))]
    fn fmt<W: fmt::Write>(&self, f: &mut fmt::Formatter<W>) -> fmt::Result {
        let name = stage_name(self.stage);
        write!(f, "{}: needs {} bytes, has {}", name, self.needs, self.has)
    }
}

/// What indexes of so many bytes are.
#[tactic(auto, unfolding(crate::specs::Text::width_text))]
fn width_name(bytes: u32) -> &'static str
    ensures { result.now ≡ width_text bytes }
{
    if bytes == 1 {
        "indexes of 1 byte"
    } else {
        "indexes of 2 bytes"
    }
}

impl fmt::Display for IndexFact {
    ghost output = { λ indexes. Some (index_text indexes) };

    #[tactic(auto, unfolding(crate::specs::Text::index_text))]
    fn fmt<W: fmt::Write>(&self, f: &mut fmt::Formatter<W>) -> fmt::Result {
        let address = Address {
            address: self.address,
        };
        let width = width_name(self.bytes);
        write!(
            f,
            "{}; address {}, {} {}",
            self.buffer, address, self.count, width
        )
    }
}

impl fmt::Display for StateFact {
    ghost output = { λ states. Some (state_text states) };

    #[tactic(auto, unfolding(crate::specs::Text::state_text))]
    fn fmt<W: fmt::Write>(&self, f: &mut fmt::Formatter<W>) -> fmt::Result {
        write!(
            f,
            "declares {}, the list has {}",
            self.declared, self.states
        )
    }
}

/// What the flags say.
#[tactic(auto, unfolding(crate::specs::Text::said_text))]
fn said(single: bool) -> &'static str
    ensures { result.now ≡ said_text single }
{
    if single {
        "the flags say single-threaded"
    } else {
        "the flags don't say single-threaded"
    }
}

/// What a shader does.
#[tactic(auto, unfolding(crate::specs::Text::switch_text))]
fn switched(threaded: bool) -> &'static str
    ensures { result.now ≡ switch_text threaded }
{
    if threaded {
        "switches threads"
    } else {
        "has no thread switch"
    }
}

impl fmt::Display for ThreadFact {
    ghost output = { λ threads. Some (thread_text threads) };

    #[tactic(auto, unfolding(crate::specs::Text::thread_text))]
    fn fmt<W: fmt::Write>(&self, f: &mut fmt::Formatter<W>) -> fmt::Result {
        let said = said(self.single);
        let switched = switched(self.threaded);
        write!(f, "{}; buffer {} {}", said, self.buffer, switched)
    }
}

/// What something needs, and what there is.
#[derive(Clone, Copy)]
pub(crate) struct Needs {
    there: &'static str,
    room: RoomFact,
}

impl RoomFact {
    /// The room where these words say what has it.
    pub(crate) fn at(self, there: &'static str) -> Needs
        ensures there { result.there.now ≡ there.now }
        ensures room { result.room ≡ self }
    {
        Needs { there, room: self }
    }
}

impl fmt::Display for Needs {
    ghost output = { λ n. Some (room_text n.there.now n.room) };

    #[tactic(auto, unfolding(crate::specs::Text::room_text))]
    fn fmt<W: fmt::Write>(&self, f: &mut fmt::Formatter<W>) -> fmt::Result {
        let RoomFact { needs, has } = self.room;
        write!(f, "needs {} bytes, {} {}", needs, self.there, has)
    }
}

/// Where in a buffer something ends.
#[derive(Clone, Copy)]
pub(crate) struct Ending {
    what: &'static str,
    end: EndFact,
}

impl EndFact {
    /// The end of a thing of this name.
    pub(crate) fn of(self, what: &'static str) -> Ending
        ensures what { result.what.now ≡ what.now }
        ensures end { result.end ≡ self }
    {
        Ending { what, end: self }
    }
}

impl fmt::Display for Ending {
    ghost output = { λ ending. Some (end_text ending.what.now ending.end) };

    #[tactic(auto, unfolding(crate::specs::Text::end_text))]
    fn fmt<W: fmt::Write>(&self, f: &mut fmt::Formatter<W>) -> fmt::Result {
        let EndFact { buffer, end } = self.end;
        write!(f, "{}; {} ends at {}", buffer, self.what, end)
    }
}

/// The name of a kind.
#[tactic(auto, unfolding(crate::specs::Text::kind_text))]
fn kind_name(kind: Kind) -> &'static str
    ensures { result.now ≡ kind_text kind }
{
    match kind {
        Kind::Plain => "Plain",
        Kind::Code => "Code",
    }
}

impl fmt::Display for NameFact {
    ghost output = { λ name. Some (name_text name.index name.handles name.named) };

    #[tactic(auto, unfolding(crate::specs::Text::name_text))]
    fn fmt<W: fmt::Write>(&self, f: &mut fmt::Formatter<W>) -> fmt::Result {
        match self.named {
            None => write!(f, "handle {}; the job has {}", self.index, self.handles),
            Some(buffer) => {
                let kind = kind_name(buffer.kind);
                write!(
                    f,
                    "handle {}: buffer {} is {}",
                    self.index, buffer.number, kind
                )
            }
        }
    }
}

impl fmt::Display for PixelsFact {
    ghost output = { λ pixels. Some (pixels_text pixels) };

    #[tactic(auto, unfolding(crate::specs::Text::pixels_text))]
    fn fmt<W: fmt::Write>(&self, f: &mut fmt::Formatter<W>) -> fmt::Result {
        let PixelsFact { width, height } = *self;
        write!(
            f,
            "the frame has {}x{} pixels, at most 4096x4096",
            width, height
        )
    }
}
