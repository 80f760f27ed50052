//! How a list unit starts a program.
ghost use Rattle.std.specs.Prelude.{◌≡◌, ◌≤◌, ◌<◌, ◌+◌, length, Some};
ghost use Rattle.arrayvec.specs.ArrayVec.{array_vec_len};
ghost use Rattle.machine_plan.specs.Turn.{CarriesOver};
ghost use Rattle.list_machine.specs.Start.{code_offset, can_start, launch_plan, start_as, is_threaded, start_plan};

use crate::fetch::record_place;
use crate::reads::{read_listed, read_word};
use crate::state::Program;
use machine_plan::{Accesses, Free, Launch, Reader, read_bytes};

/// A program of the shader record that a state word names.
#[derive(Clone, Copy, Debug, PartialEq, Eq)]
pub(crate) struct Shader {
    pub program: Program,
    pub word: u32,
}

// Where a record holds the place of a program's code.
fn code_offset(program: Program) -> u64
    ensures value { result ≡ code_offset program }
    ensures few { result ≤ 28 }
{
    match program {
        Program::Fragment => 4,
        Program::Vertex => 16,
        Program::Coordinate => 28,
    }
}

/// Whether a program can start now, threaded or not.
pub(crate) fn can_start(threaded: bool, free: &Free) -> bool
    ensures { result ≡ can_start threaded free.now }
{
    if threaded {
        free.threaded.is_some()
    } else {
        free.plain.is_some()
    }
}

// Reads the flags, and the places of the program's code and of its uniforms.
#[tactic(auto, unfolding(crate::specs::Start::launch_plan))]
fn read_launch(shader: Shader, threaded: bool, reader: &Reader, accesses: &mut Accesses) -> Launch
    requires { array_vec_len accesses.old < 260 }
    ensures shows { CarriesOver reader.now.who (launch_plan shader.program threaded shader.word)
        reader.now.memory.now accesses.old accesses.new (Some (Some result)) }
    ensures len { array_vec_len accesses.new ≡ array_vec_len accesses.old + 3 }
{
    let base = record_place(shader.word);
    let place = base + code_offset(shader.program);
    read_listed(base, 2, reader, accesses);
    let code = read_word(place, reader, accesses);
    let uniforms = read_word(place + 4, reader, accesses);
    Launch {
        threaded,
        code,
        uniforms,
    }
}

// Starts a program, threaded or not, if it can start.
#[tactic(auto, unfolding(crate::specs::Start::start_as))]
fn start_as(
    shader: Shader,
    threaded: bool,
    free: &Free,
    reader: &Reader,
    accesses: &mut Accesses,
) -> Option<Launch>
    requires { array_vec_len accesses.old < 260 }
    ensures shows { CarriesOver reader.now.who
        (start_as shader.program threaded free.now shader.word) reader.now.memory.now accesses.old
        accesses.new (Some result) }
    ensures len { array_vec_len accesses.new ≤ array_vec_len accesses.old + 3 }
{
    if !can_start(threaded, free) {
        return None;
    }
    Some(read_launch(shader, threaded, reader, accesses))
}

// Whether the flags say that the fragment program is threaded.
#[tactic(auto, unfolding(crate::specs::Start::is_threaded))]
fn is_threaded(flags: &[u8]) -> bool
    requires { length flags.now ≡ 2 }
    ensures { result ≡ is_threaded flags.now }
{
    flags[0] % 2 == 0
}

/// Starts a program of a shader record: reads the flags and the places of its code and of its uniforms.
/// A program that can't start now reads nothing, and gives `None`.
#[tactic(auto, unfolding(crate::specs::Start::start_plan))]
pub(crate) fn start_program(
    shader: Shader,
    free: &Free,
    reader: &Reader,
    accesses: &mut Accesses,
) -> Option<Launch>
    requires { array_vec_len accesses.old < 260 }
    ensures shows { CarriesOver reader.now.who (start_plan shader.program free.now shader.word)
        reader.now.memory.now accesses.old accesses.new (Some result) }
    ensures len { array_vec_len accesses.new ≤ array_vec_len accesses.old + 3 }
{
    match shader.program {
        Program::Fragment => {
            let flags = read_bytes(reader.memory, record_place(shader.word), 2);
            let threaded = is_threaded(&flags);
            start_as(shader, threaded, free, reader, accesses)
        }
        Program::Vertex => start_as(shader, false, free, reader, accesses),
        Program::Coordinate => start_as(shader, false, free, reader, accesses),
    }
}
