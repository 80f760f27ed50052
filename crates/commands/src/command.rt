//! What the program can do.
ghost use Rattle.std.specs.Prelude.{◌≡◌, ◌≤◌};
ghost use Rattle.commands.specs.Cause.{is_reported};
ghost use Rattle.commands.specs.Words.{most_file, limit_of, excess_at};

use super::help::Topic;
use super::show::Showing;
use super::surfaces::TexturePart;
use super::verdict::Form;
use field_words::{MOST_CODE, MOST_LIST};
use seeded_runs::Trial;
use tile_convert::Picture;

/// The most bytes of a job file: 48 MiB.
const MOST_FILE: usize = 50_331_648;

/// The most bytes of a picture: 24 MiB.
const MOST_PICTURE: usize = 25_165_824;

/// A command that reads all of its input, and answers to it.
#[derive(Clone, Copy, Debug, PartialEq, Eq)]
pub enum Command {
    /// `check`: reads a job file and prints the memory that it runs in, or why it is refused. With `--strict` it asks the strict rules too.
    Check { strict: bool },
    /// `check --quiet` and `check --json`: the same, but reports in this form whether the file is accepted.
    Verdict { strict: bool, form: Form },
    /// `replay`, and `picture --run`: reads a job file and prints what runs of it do; or why it is refused. With `--header` a line with
    /// names of columns comes first.
    Runs { headed: bool, trial: Trial },
    /// `picture`: reads a job file and writes a picture of its memory, as SVG; or why it is refused.
    Drawn,
    /// `upgrade`: reads a job file and writes it with version 2, or prints which rule of the format it breaks.
    Upgrade,
    /// `bound`: reads a job file and prints how many steps its jobs take at most and whether they may wait for a request that isn't there,
    /// or where a shader branches back; or why it is refused.
    Bound,
    /// `show`: reads any bytes and writes them as lines of text that say what they are, as far as they are a job file.
    Show(Showing),
    /// `make`: reads such a text and writes its bytes, or its first fault.
    FromText,
    /// `asm`: reads shader text and writes the instruction words, 8 bytes each, little endian.
    Asm,
    /// `disasm`: reads such words and writes shader text that assembles to them; with `--notes` with a note above each line.
    Disasm { notes: bool },
    /// `shader`: reads the words of one shader and prints what it takes and reads, or the rule that refuses it. With `--strict` it asks the
    /// strict rules too.
    Shader { strict: bool },
    /// `shader --asm`: reads shader text and prints the same of its words, or its first fault.
    ShaderText { strict: bool },
    /// `slots <n>`: reads a script of calls on a pool of so many slots, and answers each.
    Slots(u32),
    /// `queue <buffers>`: reads a script of calls on a queue of jobs that name so many buffers, and answers each.
    Queue(u32),
    /// `session`: reads a script of calls on a session of eight clients, and answers each.
    Session,
    /// `untile <t|lt> <cpp> <width> <height>`: reads a surface of such a picture and writes its pixels by rows.
    Untile(Picture),
    /// `tile <t|lt> <cpp> <width> <height>`: reads pixels by rows and writes the surface of such a picture.
    Tile(Picture),
    /// `level <p0> <p1> <p2> <p3> <face> <level>`: reads a buffer and writes a level of the texture with these set-up words.
    Level(TexturePart),
}

/// What the words ask for.
#[derive(Clone, Copy, Debug, PartialEq, Eq)]
pub enum Task {
    /// To read input by a command.
    Read(Command),
    /// `gen <number>`: makes the example job of this number, and says what becomes of it. No input is read.
    Make(u32),
    /// `--help`, `--version` and `explain`: says something of the program or of a rule. No input is read.
    Tell(Topic),
}

impl Command {
    /// Whether a person learns something of an input with which this status is answered.
    #[tactic(auto, unfolding(crate::specs::Cause::is_reported))]
    pub fn is_reported(self, status: u8) -> bool
        ensures { result ≡ is_reported self status }
    {
        match self {
            Command::Shader { .. } | Command::ShaderText { .. } => status < 2,
            _ => status == 1,
        }
    }

    /// The most bytes of input that the command takes.
    pub fn limit(self) -> usize
        ensures value { result ≡ limit_of self }
        ensures most { result ≤ most_file }
    {
        match self {
            Command::Untile(_) | Command::Tile(_) | Command::Level(_) => MOST_PICTURE,
            Command::Shader { .. } => MOST_CODE as usize,
            Command::Asm
            | Command::ShaderText { .. }
            | Command::Disasm { .. }
            | Command::Slots(_)
            | Command::Queue(_)
            | Command::Session => MOST_LIST as usize,
            _ => MOST_FILE,
        }
    }

    /// How much input is more than the command takes.
    pub fn excess(self) -> &'static str
        ensures { result.now ≡ excess_at (limit_of self) }
    {
        match self.limit() {
            MOST_FILE => "more than 48 MiB",
            MOST_PICTURE => "more than 24 MiB",
            65536 => "more than 64 KiB",
            _ => "more than 1 MiB",
        }
    }
}
