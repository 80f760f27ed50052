//! The commands by their names, and what each does.
ghost use Rattle.std.specs.Prelude.{◌≡◌, Some};
ghost use Rattle.commands.specs.Topics.{verb_named, usage_row, usage_of};

use std::fmt;

/// A word that a line of the program begins with. As text it is the command's line behind the program's name.
#[derive(Clone, Copy, Debug, PartialEq, Eq)]
pub enum Verb {
    Check,
    Replay,
    Picture,
    Upgrade,
    Bound,
    Show,
    Make,
    Gen,
    Slots,
    Queue,
    Session,
    Untile,
    Tile,
    Level,
    Asm,
    Disasm,
    Shader,
    Explain,
}

/// What a command's line is, behind the program's name, and what the command does.
pub(crate) type Usage = (&'static str, &'static str);

const CHECK: Usage = (
    "check [--strict] [--quiet | --json] [FILE..]",
    "Reads a job file of at most 48 MiB and writes the memory of the accepted jobs, or the first rule that it breaks.
With --strict it asks the strict rules (E) too, last of all. With --quiet it writes nothing, so that the exit status says all, and with
--json a line of JSON: the file's name, whether it is accepted or refused, and the rule, its place, the offset in the file, its sentence and what the file says there.
Of several files each has its name on a line before what is written of it. A folder stands for its files in order of their names. The exit
status is the greatest of all files.",
);

const REPLAY: Usage = (
    "replay [--header] [--favour KIND] [--accesses | --seeds A..B] STEPS [SEED] [FILE]",
    "Reads a job file of at most 48 MiB and writes a run of the jobs' machine, a line for each step, or the first rule that it breaks.
STEPS is the most steps of the run, from 0 to 1000000. SEED is a number below 2^64, which says which unit steps next.
With --accesses it writes a line for each access, which says what lies there. With --seeds A..B, in place of SEED, it writes how the run of
each seed from A to before B ended, of at most 1000. With --header a line with names of columns comes first. With --favour KIND a unit of this kind steps whenever one may: qpu, texture, binner or
renderer.",
);

const PICTURE: Usage = (
    "picture [--run [--favour KIND] STEPS SEED] [FILE]",
    "Reads a job file of at most 48 MiB and writes a picture of the jobs' memory, as SVG, or nothing where it breaks a rule.
With --run the picture shows a run too: how many of its accesses touch each box, and how many each kind of unit makes. STEPS, SEED and KIND
are as for replay.",
);

const UPGRADE: Usage = (
    "upgrade [FILE]",
    "Reads a job file of at most 48 MiB and writes the same file as version 2, or the first rule of the format that it breaks.",
);

const BOUND: Usage = (
    "bound [FILE]",
    "Reads a job file of at most 48 MiB and writes how many steps its jobs take at most, and how many more for each step in which a
renderer stays at an item. Then `ends`, or where in the file an instruction may wait for a texture request that isn't there. Or it writes
where a shader branches back; or the first rule that it breaks.",
);

const SHOW: Usage = (
    "show [--strict] [--draws] [--no-content] [--no-offsets] [FILE]",
    "Reads any bytes, at most 48 MiB, and writes them as text that says what each byte of a job file is, as far as they go, and marks the first
rule that they break. With --strict it asks the strict rules (E) too, last of all. With --no-content it leaves out the contents of buffers, but
for a line that is marked, and make can't read the text again; with --no-offsets the offset on each line: so two jobs can be compared by diff.
With --draws it writes only the lists' packets, a paragraph a draw, and behind a shader state its record and its shaders' uniforms.
The text is some three times as long, and make reads at most 48 MiB of it again.",
);

const MAKE: Usage = (
    "make [FILE]",
    "Reads such text, at most 48 MiB, and writes its bytes; or nothing where it has a mistake, which standard error tells.
u32:len:NAME is the length of a section: the bytes behind a line section NAME, up to the next such line or the end.",
);

const GEN: Usage = (
    "gen NUMBER",
    "Makes the example job of this number, from 0 to 4294967295, and writes what becomes of it. It reads nothing.",
);

const SLOTS: Usage = (
    "slots SLOTS [FILE]",
    "Reads calls on a slot allocator for tile memory, at most 1 MiB, and writes a line for each.
SLOTS is the number of slots, from 1 to 32.",
);

const QUEUE: Usage = (
    "queue BUFFERS [FILE]",
    "Reads calls on a queue of jobs that share buffers, at most 1 MiB, and writes a line for each.
BUFFERS is the number of buffers, from 0 to 1024.",
);

const SESSION: Usage = (
    "session [FILE]",
    "Reads calls of up to eight clients that share a memory, at most 1 MiB, and writes a line for each.",
);

const UNTILE: Usage = (
    "untile TILING CPP WIDTH HEIGHT [FILE]",
    "Reads a tiled surface of at most 24 MiB and writes its pixels by rows.
TILING is t or lt. CPP is the number of bytes of a pixel: 1, 2, 4 or 8. WIDTH and HEIGHT are pixels, from 1 to 4096.",
);

const TILE: Usage = (
    "tile TILING CPP WIDTH HEIGHT [FILE]",
    "Reads pixels by rows, at most 24 MiB, and writes the tiled surface, which is zero where no pixel lies.
TILING is t or lt. CPP is the number of bytes of a pixel: 1, 2, 4 or 8. WIDTH and HEIGHT are pixels, from 1 to 4096.",
);

const LEVEL: Usage = (
    "level P0 P1 P2 P3 FACE LEVEL [FILE]",
    "Reads a buffer of at most 24 MiB and writes the pixels of a level of the texture in it, or the first broken rule.
P0 to P3 are the texture's set-up words, FACE its face and LEVEL its level; each is a number from 0 to 4294967295.",
);

const ASM: Usage = (
    "asm [FILE]",
    "Reads shader text of at most 1 MiB and writes its words of 8 bytes, or its first fault.",
);

const DISASM: Usage = (
    "disasm [--notes] [FILE]",
    "Reads shader words of 8 bytes each, at most 1 MiB, and writes the text that assembles to them. With --notes a comment stands above each
instruction: its number, its text as Mesa's driver prints it, nearly, and the uniform that it takes.",
);

const SHADER: Usage = (
    "shader [--strict] [--asm] [FILE]",
    "Reads the words of one shader, 8 bytes each, at most 64 KiB, and checks it alone: writes how many uniforms and threads it takes, and its
samples and address words by the uniforms that they take; or the first rule that it breaks. With --asm it reads shader text, at most 1 MiB.
With --strict it asks the strict rules (E) too, last of all. On standard error it notes what no real shader does.",
);

const EXPLAIN: Usage = (
    "explain RULE | --list",
    "Writes what a rule says, why it is there, and how a refused file is mended. RULE is a letter and a number, such as S24,
or, for a kind of the assembler's faults, kind and a number, such as kind 3. With --list it writes all rules, each with its sentence. It reads nothing.",
);

/// All commands, as `--help` names them.
pub(crate) const VERBS: [Verb; 18] = [
    Verb::Check,
    Verb::Replay,
    Verb::Picture,
    Verb::Upgrade,
    Verb::Bound,
    Verb::Show,
    Verb::Make,
    Verb::Gen,
    Verb::Slots,
    Verb::Queue,
    Verb::Session,
    Verb::Untile,
    Verb::Tile,
    Verb::Level,
    Verb::Asm,
    Verb::Disasm,
    Verb::Shader,
    Verb::Explain,
];

/// The command that a word names.
pub fn verb_named(word: &str) -> Option<Verb>
    ensures { result ≡ verb_named word.now }
{
    match word {
        "check" => Some(Verb::Check),
        "replay" => Some(Verb::Replay),
        "picture" => Some(Verb::Picture),
        "upgrade" => Some(Verb::Upgrade),
        "bound" => Some(Verb::Bound),
        "show" => Some(Verb::Show),
        "make" => Some(Verb::Make),
        "gen" => Some(Verb::Gen),
        "slots" => Some(Verb::Slots),
        "queue" => Some(Verb::Queue),
        "session" => Some(Verb::Session),
        "untile" => Some(Verb::Untile),
        "tile" => Some(Verb::Tile),
        "level" => Some(Verb::Level),
        "asm" => Some(Verb::Asm),
        "disasm" => Some(Verb::Disasm),
        "shader" => Some(Verb::Shader),
        "explain" => Some(Verb::Explain),
        _ => None,
    }
}

impl Verb {
    /// The command's line, behind the program's name, and what the command does.
    #[tactic(auto, unfolding(crate::specs::Topics::usage_row))]
    pub(crate) fn row(self) -> Usage
        ensures usage { result.0.now ≡ (usage_row self).0 }
        ensures about { result.1.now ≡ (usage_row self).1 }
    {
        match self {
            Verb::Check => CHECK,
            Verb::Replay => REPLAY,
            Verb::Picture => PICTURE,
            Verb::Upgrade => UPGRADE,
            Verb::Bound => BOUND,
            Verb::Show => SHOW,
            Verb::Make => MAKE,
            Verb::Gen => GEN,
            Verb::Slots => SLOTS,
            Verb::Queue => QUEUE,
            Verb::Session => SESSION,
            Verb::Untile => UNTILE,
            Verb::Tile => TILE,
            Verb::Level => LEVEL,
            Verb::Asm => ASM,
            Verb::Disasm => DISASM,
            Verb::Shader => SHADER,
            Verb::Explain => EXPLAIN,
        }
    }

    /// The command's line, behind the program's name.
    pub fn usage(self) -> &'static str
        ensures { result.now ≡ usage_of self }
    {
        self.row().0
    }
}

impl fmt::Display for Verb {
    ghost output = { λ verb. Some (usage_of verb) };

    fn fmt<W: fmt::Write>(&self, f: &mut fmt::Formatter<W>) -> fmt::Result {
        f.write_str(self.usage())
    }
}
