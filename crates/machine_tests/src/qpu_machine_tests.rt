//! Instructions of small programs.
ghost use Rattle.std.specs.Prelude.{◌≡◌, []};

use arrayvec::ArrayVec;
use field_words::{Access, Actor, NoMemory, Way};
use machine_plan::{Launch, Reader, Who};
use phys_mem::PhysMem;
use qpu_machine::{Ask, Fate, Leaves, Thread, serve, start_thread, step_thread};
use std::alloc::Global;

const QPU: Who = Who {
    unit: Actor::Qpu(3),
    job: 1,
};

// A memory of a page with this program at its start.
fn memory_with(alloc: Global, program: &[u64]) -> Result<PhysMem, NoMemory> {
    let mut memory = PhysMem::new(alloc, 4096)?;
    for (i, word) in program.iter().enumerate() {
        if 8 * i + 8 <= memory.len() as usize && i < 512 {
            memory.write_bytes(8 * i as u32, &word.to_le_bytes());
        }
    }
    Ok(memory)
}

fn program(threaded: bool) -> Thread {
    start_thread(
        1,
        Launch {
            threaded,
            code: 0,
            uniforms: 0x800,
        },
    )
}

// One step, and how many accesses it listed.
fn step(thread: &mut Thread, memory: &PhysMem, words: &[u32]) -> (Option<Leaves>, usize) {
    if thread.place >= 1 << 62 {
        return (None, 0);
    }
    let mut accesses = ArrayVec::new();
    let left = step_thread(thread, &words, &Reader { who: QPU, memory }, &mut accesses);
    (left, accesses.len())
}

// Steps that go on, of one read each.
fn goes_on(thread: &mut Thread, memory: &PhysMem, steps: usize) -> bool {
    for _ in 0..steps {
        match step(thread, memory, &[]) {
            (Some(left), 1) => {
                if left.fate != Fate::GoesOn {
                    return false;
                }
            }
            _ => return false,
        }
    }
    true
}

// A setup word for T of TMU 1 is the uniform; a send then asks for a texture.
#[test]
fn asks_for_a_texture(rt: HostRuntime) -> Result<(), NoMemory> {
    let setup = (1 << 60) + (1 << 49) + (61 << 38) + (39 << 32);
    let send = (1 << 60) + (1 << 49) + (60 << 38) + (39 << 32);
    let mut memory = memory_with(rt.alloc(), &[setup, send])?;
    if memory.len() == 4096 {
        memory.write_bytes(0x800, &[1, 2, 3, 4, 5, 6, 7, 8]);
    }
    let mut thread = program(false);
    assert!(rt; step(&mut thread, &memory, &[]).1 == 2);
    let (left, accesses) = step(&mut thread, &memory, &[]);
    let asked = left.and_then(|left| left.asked);
    let words = [0x0403_0201, 0x0807_0605, 0, 0];
    assert!(rt;
        accesses == 2
            && asked.is_some_and(|asked| asked.tmu == 1 && asked.ask == Ask::Texture(words))
    );
    assert!(rt; thread.uniforms == 0x808 && thread.setups1.is_empty());
    Ok(())
}

// `nop`
const IDLE_WORD: u64 = (1 << 60) + (39 << 38) + (39 << 32);

const SWITCH: u64 = IDLE_WORD + (1 << 60);

const END: u64 = IDLE_WORD + (2 << 60);
// A branch that is always taken, 64 bytes past its fourth successor.
const BRANCH: u64 = (15 << 60) + (15 << 52) + (1 << 51) + (39 << 38) + (39 << 32) + 64;

// An end in a branch's slots acts, after two more instructions.
#[test]
fn ends_in_slots(rt: HostRuntime) -> Result<(), NoMemory> {
    let memory = memory_with(rt.alloc(), &[BRANCH, END, IDLE_WORD, IDLE_WORD])?;
    let mut thread = program(true);
    assert!(rt; goes_on(&mut thread, &memory, 3));
    let (left, _) = step(&mut thread, &memory, &[]);
    assert!(rt; left.is_some_and(|left| left.fate == Fate::Ends));
    assert!(rt; thread.place == 32 + 64);
    Ok(())
}

// A switch in a branch's slots is undefined, and so is a branch in a switch's, each with two accesses. A switch alone acts after two
// more instructions, and leaves a fresh thread.
#[test]
fn switches(rt: HostRuntime) -> Result<(), NoMemory> {
    let memory = memory_with(rt.alloc(), &[BRANCH, SWITCH])?;
    let mut thread = program(true);
    assert!(rt; goes_on(&mut thread, &memory, 1) && step(&mut thread, &memory, &[]) == (None, 2));
    let memory = memory_with(rt.alloc(), &[SWITCH, BRANCH])?;
    let mut thread = program(true);
    assert!(rt; goes_on(&mut thread, &memory, 1) && step(&mut thread, &memory, &[]) == (None, 2));
    let memory = memory_with(rt.alloc(), &[SWITCH, IDLE_WORD, IDLE_WORD])?;
    let mut thread = program(true);
    assert!(rt; goes_on(&mut thread, &memory, 2) && !thread.fresh);
    let (left, _) = step(&mut thread, &memory, &[]);
    assert!(rt; left.is_some_and(|left| left.fate == Fate::Switches) && thread.fresh);
    let mut thread = program(false);
    assert!(rt; step(&mut thread, &memory, &[]) == (None, 2));
    Ok(())
}

// What serving a request lists and comes to.
fn served(
    ask: Ask,
    words: &[u32],
    memory: &PhysMem,
    accesses: &mut ArrayVec<Access, 272>,
) -> Option<Option<[u32; 16]>>
    requires { accesses.old.items ≡ [] }
{
    serve(&ask, &words, &Reader { who: QPU, memory }, accesses)
}

// A direct request reads the word of each address, without its low two bits.
#[test]
fn serves_direct(rt: HostRuntime) -> Result<(), NoMemory> {
    let memory = memory_with(rt.alloc(), &[0x0000_0002_0000_0001])?;
    let mut row = [0; 16];
    row[1] = 7;
    row[15] = 0x10_0000;
    let mut accesses = ArrayVec::new();
    let result = served(Ask::Direct(row), &[], &memory, &mut accesses);
    let mut want = [1; 16];
    want[1] = 2;
    want[15] = 0;
    assert!(rt; result == Some(Some(want)) && accesses.len() == 16);
    assert!(rt; accesses[1].place == 4 && accesses[1].len == 4 && accesses[15].place == 0x10_0000);
    Ok(())
}

// Below the base of a cube at 0 there is no place for level 1 of face 0: that read is undefined, behind the one before it. And a
// cube without a stride is undefined at once.
#[test]
fn texture_below_its_base(rt: HostRuntime) -> Result<(), NoMemory> {
    let memory = memory_with(rt.alloc(), &[])?;
    let four = [(1 << 9) + 1, (16 << 20) + (16 << 8), (1 << 30) + 0x1000, 0];
    let words = [0, 0, 0, 0, 1, 0, 0, 0];
    let mut accesses = ArrayVec::new();
    let result = served(Ask::Texture(four), &words, &memory, &mut accesses);
    assert!(rt; result.is_none() && accesses.len() == 2 && accesses[1].way == Way::Wild);
    let mut accesses = ArrayVec::new();
    let result = served(
        Ask::Texture([four[0], four[1], 0, 0]),
        &words,
        &memory,
        &mut accesses,
    );
    assert!(rt; result.is_none() && accesses.len() == 1 && accesses[0].way == Way::Wild);
    Ok(())
}
