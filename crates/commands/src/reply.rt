//! What a command prints, and its way into the sink.
ghost use Rattle.std.specs.Prelude.{◌≡◌, ◌≢◌, ◌≤◌, ◌<◌, ◌^◌, ◌++◌, length, OnOk, OnErr};
ghost use Rattle.std.specs.Io.KnownBytes.{Appends};
ghost use Rattle.job_io.specs.Faults.{Rose, LastCallFailed};
ghost use Rattle.job_io.specs.Traffic.{AppendsFront};
ghost use Rattle.field_words.specs.Sizes.{most_memory};
ghost use Rattle.dumper.specs.Text.{row_size};
ghost use Rattle.dumper.specs.Parts.{part_at, part_end, part_text, parts_text, Ascend};
ghost use Rattle.dumper.specs.Spans.{parts_of};
ghost use Rattle.commands.specs.Reply.{rest_text, reply_status, reply_text, reply_cause, IsReplyReady};
ghost use Rattle.commands.specs.Run.{FailsAt};

use super::answer::{Answer, reply};
use super::cause::Cause;
use dumper::{IMAGE_END, PIECE, Span, put_part};
use job_io::{Failed, Sink, write_all};

/// The image of an accepted file: its text up to the rows, and what its memory has that isn't zero, by ascending place.
#[derive(Drop)]
pub struct Image<'a> {
    pub head: Vec<u8>,
    pub spans: Vec<Span<'a>>,
}

/// A text with its status; or the image of an accepted file, whose rows are printed from its spans piece by piece. So neither a job's
/// memory nor its text is ever in memory as a whole.
#[derive(Drop)]
pub enum Reply<'a> {
    Text(Answer),
    Image(Image<'a>),
}

impl<'a> Reply<'a> {
    /// Why the reply refuses, where there is more to say than its text does.
    pub fn cause(&self) -> Option<Cause>
        ensures { result ≡ reply_cause self.now }
    {
        match self {
            Reply::Text(answer) => answer.cause,
            Reply::Image(_) => None,
        }
    }
}

// Writes the lines of a part's rows, by way of this piece. It takes no memory.
#[tactic(auto, unfolding(dumper::specs::Parts::part_text))]
fn write_part<K: Sink>(
    sink: &mut K,
    place: u32,
    bytes: &[u8],
    piece: &mut [u8],
) -> Result<(), Failed>
    requires end { part_end (part_at place bytes.now) < 2 ^ 32 }
    requires room { row_size ≤ length piece.old }
    ensures written { OnOk result (Appends (K.held sink.old) (K.held sink.new)
        (part_text (part_at place bytes.now))) }
    ensures cut { OnErr result (AppendsFront (K.held sink.old) (K.held sink.new)
        (part_text (part_at place bytes.now))) }
    ensures failed { OnErr result (Rose (K.faults sink.old) (K.faults sink.new)) }
    ensures last { OnErr result (LastCallFailed K.held K.faults sink.old sink.new) }
    ensures steady { OnOk result (K.faults sink.new ≡ K.faults sink.old) }
    ensures long { length piece.new ≡ length piece.old }
{
    let rows = bytes.len().div_ceil(16);
    let mut row = 0;
    while row < rows {
        let filled = put_part(place, bytes, row, piece);
        write_all(sink, &piece[..filled.len])?;
        row = filled.row;
    }
    Ok(())
}

// Writes the lines of the rows of all spans by way of one piece. It takes no memory.
#[inline(never)]
fn write_spans<K: Sink>(sink: &mut K, spans: &[Span]) -> Result<(), Failed>
    requires { Ascend 0 most_memory (parts_of spans.now) }
    ensures written { OnOk result (Appends (K.held sink.old) (K.held sink.new)
        (parts_text (parts_of spans.now))) }
    ensures cut { OnErr result (AppendsFront (K.held sink.old) (K.held sink.new)
        (parts_text (parts_of spans.now))) }
    ensures failed { OnErr result (Rose (K.faults sink.old) (K.faults sink.new)) }
    ensures last { OnErr result (LastCallFailed K.held K.faults sink.old sink.new) }
    ensures steady { OnOk result (K.faults sink.new ≡ K.faults sink.old) }
{
    let mut piece = [0; PIECE];
    for span in spans {
        write_part(sink, span.place, span.bytes.as_slice(), &mut piece)?;
    }
    Ok(())
}

// Writes the rows and the last line. It takes no memory.
#[tactic(auto, unfolding(crate::specs::Reply::rest_text), using(crate::proofs::Appending::both_appended, crate::proofs::Appending::front_of_first, crate::proofs::Appending::front_of_second))]
fn write_rest<K: Sink>(sink: &mut K, spans: &[Span]) -> Result<(), Failed>
    requires { Ascend 0 most_memory (parts_of spans.now) }
    ensures written { OnOk result (Appends (K.held sink.old) (K.held sink.new)
        (rest_text (parts_of spans.now))) }
    ensures cut { OnErr result (AppendsFront (K.held sink.old) (K.held sink.new)
        (rest_text (parts_of spans.now))) }
    ensures failed { OnErr result (Rose (K.faults sink.old) (K.faults sink.new)) }
    ensures last { OnErr result (LastCallFailed K.held K.faults sink.old sink.new) }
    ensures steady { OnOk result (K.faults sink.new ≡ K.faults sink.old) }
{
    write_spans(sink, spans)?;
    write_all(sink, IMAGE_END)
}

// Writes the image of an accepted file. It takes no memory.
#[tactic(auto, using(crate::proofs::Appending::both_appended, crate::proofs::Appending::front_of_first, crate::proofs::Appending::front_of_second))]
fn write_image<K: Sink>(sink: &mut K, head: &[u8], spans: &[Span]) -> Result<(), Failed>
    requires { Ascend 0 most_memory (parts_of spans.now) }
    ensures written { OnOk result (Appends (K.held sink.old) (K.held sink.new)
        (head.now ++ rest_text (parts_of spans.now))) }
    ensures cut { OnErr result (AppendsFront (K.held sink.old) (K.held sink.new)
        (head.now ++ rest_text (parts_of spans.now))) }
    ensures failed { OnErr result (Rose (K.faults sink.old) (K.faults sink.new)) }
    ensures last { OnErr result (LastCallFailed K.held K.faults sink.old sink.new) }
    ensures steady { OnOk result (K.faults sink.new ≡ K.faults sink.old) }
{
    write_all(sink, head)?;
    write_rest(sink, spans)
}

/// Writes all of a reply, and says its status; or 4 where the sink failed, which then has a front of the text, where it still tells. It
/// takes no memory.
pub fn print<K: Sink>(sink: &mut K, given: Reply) -> u8
    requires status { reply_status given < 2 }
    requires ready { IsReplyReady given }
    ensures status { result ≢ 4 → result ≡ reply_status given.entry }
    ensures failing { result ≤ 4 }
    ensures written { result ≢ 4 → Appends (K.held sink.old) (K.held sink.new)
        (reply_text given.entry) }
    ensures cut { result ≡ 4 → AppendsFront (K.held sink.old) (K.held sink.new)
        (reply_text given.entry) }
    ensures write { FailsAt K.held K.faults sink.old sink.new 4 result }
{
    match given {
        Reply::Text(answer) => reply(sink, &answer),
        Reply::Image(image) => match write_image(sink, &image.head, &image.spans) {
            Ok(()) => 0,
            Err(Failed) => 4,
        },
    }
}
