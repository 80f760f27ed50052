//! Single instructions of a thread that has worked, as tables.
use arrayvec::ArrayVec;
use field_words::{Actor, NoMemory, Way};
use machine_plan::{Launch, Reader, Who};
use phys_mem::PhysMem;
use qpu_machine::{Ask, Fate, Leaves, Mark, Thread, is_ready, serve, start_thread, step_thread};
use std::alloc::Global;

// What does nothing, a branch that may be taken, switches to the other thread, and r1 as the uniforms' address.
const NOTHING: u64 = 0x1000_09e7_0000_0000;

const SOMETIMES: u64 = 0xf008_09e7_0000_0010;

const SWITCH: u64 = 0x2000_09e7_0000_0000;

const LAST_SWITCH: u64 = 0x6000_09e7_0000_0000;

const POINT: u64 = 0x1002_0a27_159e_7240;

// r1 to register 3 of file A, and of file B; r1 sent to TMU 0 and to TMU 1, and kept there as a setup word; signals that load a result.
const TO_A3: u64 = 0x1002_00e7_159e_7240;

const TO_B3: u64 = 0x1000_49c3_409e_7009;

const SEND: [u64; 2] = [0x1002_0e27_159e_7240, 0x1002_0f27_159e_7240];

const KEEP: [u64; 2] = [0x1002_0e67_159e_7240, 0x1002_0f67_159e_7240];

const LOAD: [u64; 2] = [0xa000_09e7_0000_0000, 0xb000_09e7_0000_0000];

// A page of memory with this instruction at its start, and a uniform of 261 at 0x800.
fn memory_with(alloc: Global, word: u64) -> Result<PhysMem, NoMemory> {
    let mut memory = PhysMem::new(alloc, 4096)?;
    if memory.len() == 4096 {
        memory.write_bytes(0, &word.to_le_bytes());
        memory.write_bytes(0x800, &[5, 1, 0, 0]);
    }
    Ok(memory)
}

fn mark(word: u64) -> Mark {
    Mark { word, to: None }
}

// A thread that executed these before: r0 to r5 hold 1 to 6, the registers of file A 10, and those of file B 20.
fn worked(threaded: bool, before: [u64; 3]) -> Thread {
    let launch = Launch {
        threaded,
        code: 0,
        uniforms: 0x800,
    };
    let mut thread = start_thread(0, launch);
    thread.fresh = false;
    thread.a = [[10; 16]; 32];
    thread.b = [[20; 16]; 32];
    thread.acc = [[1; 16], [2; 16], [3; 16], [4; 16], [5; 16], [6; 16]];
    thread.last1 = mark(before[0]);
    thread.last2 = mark(before[1]);
    thread.last3 = mark(before[2]);
    thread
}

// One step, and the places and lengths of what it read; none where it is undefined.
fn step(thread: &mut Thread, memory: &PhysMem, words: &[u32]) -> (Option<Leaves>, [(u64, u32); 2]) {
    let who = Who {
        unit: Actor::Qpu(0),
        job: 0,
    };
    let mut reads = [(0, 0); 2];
    if thread.place >= 1 << 62 {
        return (None, reads);
    }
    let mut accesses = ArrayVec::new();
    let left = step_thread(thread, &words, &Reader { who, memory }, &mut accesses);
    for (read, access) in reads.iter_mut().zip(accesses.iter()) {
        if access.way == Way::Read {
            *read = (access.place, access.len);
        }
    }
    (left, reads)
}

// Undefined instructions, the three executed before, and whether the program is threaded.
const WILD: [(u64, [u64; 3], bool); 39] = [
    // signals 0, 7, 9 and 12
    (0x0000_09e7_0000_0000, [NOTHING, NOTHING, NOTHING], false),
    (0x7000_09e7_0000_0000, [NOTHING, NOTHING, NOTHING], false),
    (0x9000_09e7_0000_0000, [NOTHING, NOTHING, NOTHING], false),
    (0xc000_09e7_0000_0000, [NOTHING, NOTHING, NOTHING], false),
    // a branch that is absolute or by register
    (0xf0f0_09e7_0000_0010, [NOTHING, NOTHING, NOTHING], false),
    (0xf0fc_09e7_0000_0010, [NOTHING, NOTHING, NOTHING], false),
    // a branch in a branch's slots, and behind a switch
    (0xf0f8_09e7_0000_0010, [SOMETIMES, NOTHING, NOTHING], false),
    (0xf0f8_09e7_0000_0010, [NOTHING, SOMETIMES, NOTHING], false),
    (0xf0f8_09e7_0000_0010, [NOTHING, NOTHING, SOMETIMES], false),
    (0xf0f8_09e7_0000_0010, [SWITCH, NOTHING, NOTHING], true),
    (0xf0f8_09e7_0000_0010, [NOTHING, LAST_SWITCH, NOTHING], true),
    // a switch there, and in a program that is not threaded
    (0x2000_09e7_0000_0000, [SOMETIMES, NOTHING, NOTHING], true),
    (0x6000_09e7_0000_0000, [NOTHING, NOTHING, SOMETIMES], true),
    (0x2000_09e7_0000_0000, [SWITCH, NOTHING, NOTHING], true),
    (0x6000_09e7_0000_0000, [NOTHING, SWITCH, NOTHING], true),
    (0x2000_09e7_0000_0000, [NOTHING, NOTHING, NOTHING], false),
    (0x6000_09e7_0000_0000, [NOTHING, NOTHING, NOTHING], false),
    // a write to 36, 38, 47, 50 or 51, and to 40 on the B side
    (0x1002_0927_159e_7240, [NOTHING, NOTHING, NOTHING], false),
    (0x1002_09a7_159e_7240, [NOTHING, NOTHING, NOTHING], false),
    (0x1002_0be7_159e_7240, [NOTHING, NOTHING, NOTHING], false),
    (0x1000_49f2_409e_7009, [NOTHING, NOTHING, NOTHING], false),
    (0x1000_49f3_409e_7009, [NOTHING, NOTHING, NOTHING], false),
    (0x1000_49e8_409e_7009, [NOTHING, NOTHING, NOTHING], false),
    (0x1002_1a27_159e_7240, [NOTHING, NOTHING, NOTHING], false),
    // two TMU writes, and one under a condition
    (0x1002_4e3c_159e_7240, [NOTHING, NOTHING, NOTHING], false),
    (0x1004_0e27_159e_7240, [NOTHING, NOTHING, NOTHING], false),
    (0x1000_89fc_409e_7009, [NOTHING, NOTHING, NOTHING], false),
    // registers 16 to 31 in a threaded program
    (0x1002_0827_1542_7d80, [NOTHING, NOTHING, NOTHING], true),
    (0x1002_0827_159d_ffc0, [NOTHING, NOTHING, NOTHING], true),
    (0x1002_0427_159e_7240, [NOTHING, NOTHING, NOTHING], true),
    (0x1000_49df_409e_7009, [NOTHING, NOTHING, NOTHING], true),
    // a load immediate of mode 2 or 4 to 7
    (0xe402_0827_0000_004d, [NOTHING, NOTHING, NOTHING], false),
    (0xe802_0827_0000_004d, [NOTHING, NOTHING, NOTHING], false),
    (0xea02_0827_0000_004d, [NOTHING, NOTHING, NOTHING], false),
    (0xec02_0827_0000_004d, [NOTHING, NOTHING, NOTHING], false),
    (0xee02_0827_0000_004d, [NOTHING, NOTHING, NOTHING], false),
    // a uniform one or two behind a write to 40
    (0x1002_0827_1582_7d80, [POINT, NOTHING, NOTHING], false),
    (0x1002_0827_1582_7d80, [NOTHING, POINT, NOTHING], false),
    (0x1002_0e67_159e_7240, [POINT, NOTHING, NOTHING], false),
];

// Each of them is read, no uniform is, and the step is undefined.
#[test]
fn undefined_instructions(rt: HostRuntime) -> Result<(), NoMemory> {
    for (word, before, threaded) in WILD {
        let memory = memory_with(rt.alloc(), word)?;
        let mut thread = worked(threaded, before);
        assert!(rt;
            step(&mut thread, &memory, &[]) == (None, [(0, 8), (0, 0)]),
            "{word:x}"
        );
    }
    for tmu in 0..2 {
        for word in [KEEP[tmu], SEND[tmu]] {
            let memory = memory_with(rt.alloc(), word)?;
            let mut thread = worked(false, [NOTHING; 3]);
            for setup in 0..4 {
                if tmu == 0 && !thread.setups0.is_full() {
                    thread.setups0.push(setup);
                } else if !thread.setups1.is_full() {
                    thread.setups1.push(setup);
                }
            }
            assert!(rt;
                step(&mut thread, &memory, &[]) == (None, [(0, 8), (0, 0)]),
                "{word:x}"
            );
        }
    }
    Ok(())
}

// Instructions, the first of 16 choice words that are 7, the accumulator that changes, and what all its elements are then. The choice words are
// those of results that are free:
const RESULTS: [(u64, usize, usize, u32); 16] = [
    // r0 and r1 added as floats
    (0x1002_0827_019e_7040, 1, 0, 7),
    // multiplied
    (0x1000_49e0_209e_7001, 17, 0, 7),
    // packed
    (0x1012_0827_159e_7240, 1, 0, 7),
    // rotated
    (0xd000_49e0_409f_100a, 17, 0, 7),
    // a register of file A, unpacked
    (0x1202_0827_150e_7d80, 33, 0, 7),
    // r4, unpacked
    (0x1302_0827_159e_7900, 65, 0, 7),
    // immediates of modes 1 and 3
    (0xe202_0827_0000_004d, 1, 0, 7),
    (0xe602_0827_0000_004d, 1, 0, 7),
    // r5 behind a write to 37, r4 behind one to 52, and by signal 8
    (0x1002_0967_159e_7240, 178, 5, 7),
    (0x1002_0d27_159e_7240, 65, 4, 7),
    (0x8000_09e7_0000_0000, 65, 4, 7),
    // registers of both files
    (0x1002_0827_150e_7d80, 33, 0, 10),
    (0x1002_0827_159c_3fc0, 49, 0, 20),
    // r1, and then r1 times r2
    (0x1002_4820_559e_724a, 0, 0, 6),
    // a small immediate, and a long one
    (0xd002_0827_159d_0fc0, 0, 0, 4294967280),
    (0xe002_0827_0000_004d, 0, 0, 77),
];

#[test]
fn results(rt: HostRuntime) -> Result<(), NoMemory> {
    for (word, from, register, value) in RESULTS {
        let memory = memory_with(rt.alloc(), word)?;
        let mut thread = worked(false, [NOTHING; 3]);
        let mut words = [0; 194];
        for word in words.iter_mut().skip(from).take(16) {
            *word = 7;
        }
        let mut acc = thread.acc;
        if register < 6 {
            acc[register] = [value; 16];
        }
        let (left, reads) = step(&mut thread, &memory, &words);
        assert!(rt;
            left.is_some() && reads == [(0, 8), (0, 0)] && thread.acc == acc,
            "{word:x}"
        );
        assert!(rt; thread.a == [[10; 16]; 32] && thread.b == [[20; 16]; 32] && thread.place == 8);
    }
    Ok(())
}

// A register of a file that the instruction directly before wrote is free.
#[test]
fn registers_read_too_early(rt: HostRuntime) -> Result<(), NoMemory> {
    for (word, before, from) in [
        (0x1002_0827_150e_7d80, TO_A3, 33),
        (0x1002_0827_159c_3fc0, TO_B3, 49),
    ] {
        let memory = memory_with(rt.alloc(), word)?;
        let mut thread = worked(false, [before, NOTHING, NOTHING]);
        let mut words = [0; 65];
        for word in words.iter_mut().skip(from).take(16) {
            *word = 7;
        }
        assert!(rt; step(&mut thread, &memory, &words).0.is_some() && thread.acc[0] == [7; 16]);
    }
    Ok(())
}

// The add unit writes file A, and file B with `ws` set; the multiply unit the other one. Condition 0 writes no element, and condition 2 those
// that choice word 0 says, the multiply unit's by its upper half.
#[test]
fn writes(rt: HostRuntime) -> Result<(), NoMemory> {
    let memory = memory_with(rt.alloc(), 0x1002_00e7_0c9e_7040)?;
    let mut thread = worked(false, [NOTHING; 3]);
    assert!(rt; step(&mut thread, &memory, &[]).0.is_some());
    assert!(rt; thread.a[3] == [3; 16] && thread.a[2] == [10; 16] && thread.b[3] == [20; 16]);
    let memory = memory_with(rt.alloc(), 0x1002_10e7_159e_7240)?;
    let mut thread = worked(false, [NOTHING; 3]);
    assert!(rt; step(&mut thread, &memory, &[]).0.is_some());
    assert!(rt; thread.a[3] == [10; 16] && thread.b[3] == [2; 16] && thread.b[4] == [20; 16]);
    let memory = memory_with(rt.alloc(), 0x1000_49c4_409e_700a)?;
    let mut thread = worked(false, [NOTHING; 3]);
    assert!(rt; step(&mut thread, &memory, &[]).0.is_some() && thread.b[4] == [6; 16]);
    for (word, chosen, value) in [
        (0x1000_0827_159e_7240, 5, 1),
        (0x1004_0827_159e_7240, 5, 2),
        (0x1000_89e0_409e_700a, 5 << 16, 6),
    ] {
        let memory = memory_with(rt.alloc(), word)?;
        let mut thread = worked(false, [NOTHING; 3]);
        let mut want = [1; 16];
        want[0] = value;
        want[2] = value;
        assert!(rt; step(&mut thread, &memory, &[chosen]).0.is_some() && thread.acc[0] == want);
    }
    Ok(())
}

// A uniform is read and passed, at the end of the addresses too; r1's first element becomes their address.
#[test]
fn uniforms(rt: HostRuntime) -> Result<(), NoMemory> {
    let memory = memory_with(rt.alloc(), 0x1002_0827_1582_7d80)?;
    for (place, next, value) in [(0x800, 0x804, 261), (0xffff_fffc, 0, 0)] {
        let mut thread = worked(false, [NOTHING; 3]);
        thread.uniforms = place;
        let (left, reads) = step(&mut thread, &memory, &[]);
        assert!(rt; left.is_some() && reads == [(0, 8), (u64::from(place), 4)]);
        assert!(rt; thread.uniforms == next && thread.acc[0] == [value; 16]);
    }
    let memory = memory_with(rt.alloc(), POINT)?;
    let mut thread = worked(false, [NOTHING; 3]);
    assert!(rt; step(&mut thread, &memory, &[]).0.is_some() && thread.uniforms == 2);
    Ok(())
}

// A branch by condition 15 is always taken, and by another as choice word 81 says; one acts behind its three slots. An end and a switch act two
// instructions later.
#[test]
fn branches_and_ends(rt: HostRuntime) -> Result<(), NoMemory> {
    let mut taken = [0; 82];
    taken[81] = 1;
    for (word, words, to) in [
        (0xf0f8_09e7_0000_0010, &taken[..0], Some(48)),
        (SOMETIMES, &taken[..], Some(48)),
        (SOMETIMES, &taken[..81], None),
    ] {
        let memory = memory_with(rt.alloc(), word)?;
        let mut thread = worked(false, [NOTHING; 3]);
        assert!(rt; step(&mut thread, &memory, words).0.is_some() && thread.place == 8);
        assert!(rt; thread.last1 == Mark { word, to });
    }
    let memory = memory_with(rt.alloc(), NOTHING)?;
    let mut thread = worked(false, [NOTHING; 3]);
    thread.last3.to = Some(48);
    assert!(rt; step(&mut thread, &memory, &[]).0.is_some() && thread.place == 48);
    let end = 0x3000_09e7_0000_0000;
    for (before, threaded, fate) in [
        ([end, NOTHING, NOTHING], false, Fate::GoesOn),
        ([NOTHING, end, NOTHING], false, Fate::Ends),
        ([LAST_SWITCH, NOTHING, NOTHING], true, Fate::GoesOn),
        ([NOTHING, LAST_SWITCH, NOTHING], true, Fate::Switches),
    ] {
        let mut thread = worked(threaded, before);
        assert!(rt;
            step(&mut thread, &memory, &[])
                .0
                .is_some_and(|left| left.fate == fate)
        );
    }
    Ok(())
}

// What stands before the send: a send without setup words asks for the words at its values, here of the multiply unit; a setup word is the uniform;
// with three setup words a send takes a uniform as the last, and asks for a texture.
#[test]
fn requests(rt: HostRuntime) -> Result<(), NoMemory> {
    let memory = memory_with(rt.alloc(), 0x1000_49f8_409e_700a)?;
    let mut thread = worked(false, [NOTHING; 3]);
    let asked = step(&mut thread, &memory, &[])
        .0
        .and_then(|left| left.asked);
    assert!(rt; asked.is_some_and(|asked| asked.tmu == 0 && asked.ask == Ask::Direct([6; 16])));
    let memory = memory_with(rt.alloc(), KEEP[0])?;
    let mut thread = worked(false, [NOTHING; 3]);
    assert!(rt; step(&mut thread, &memory, &[]).1 == [(0, 8), (0x800, 4)]);
    assert!(rt; thread.setups0.as_slice() == [261].as_slice() && thread.setups1.is_empty());
    let memory = memory_with(rt.alloc(), SEND[0])?;
    let mut thread = worked(false, [NOTHING; 3]);
    for setup in [1, 2, 3] {
        if !thread.setups0.is_full() {
            thread.setups0.push(setup);
        }
    }
    let asked = step(&mut thread, &memory, &[])
        .0
        .and_then(|left| left.asked);
    assert!(rt;
        asked.is_some_and(|asked| asked.tmu == 0 && asked.ask == Ask::Texture([1, 2, 3, 261]))
    );
    assert!(rt; thread.setups0.is_empty() && thread.uniforms == 0x804);
    Ok(())
}

// A load waits for a result, and a send for room for eight requests and results of its TMU; r4 is the oldest result's words, or free behind a texture.
#[test]
fn waits_for_results(rt: HostRuntime) -> Result<(), NoMemory> {
    for (word, results, queued, ready) in [
        (LOAD[0], 0, 1, false),
        (LOAD[0], 1, 0, true),
        (LOAD[1], 3, 0, false),
        (SEND[0], 3, 5, false),
        (SEND[0], 3, 4, true),
        (SEND[1], 3, 5, true),
        (NOTHING, 3, 5, true),
    ] {
        let memory = memory_with(rt.alloc(), word)?;
        let mut thread = worked(false, [NOTHING; 3]);
        for _ in 0..results {
            if !thread.results0.is_full() {
                thread.results0.push(None);
            }
        }
        if thread.place == 0 {
            assert!(rt; is_ready(&thread, queued, 0, &memory) == ready, "{word:x}");
        }
    }
    let mut words = [0; 81];
    for word in words.iter_mut().skip(65) {
        *word = 7;
    }
    let memory = memory_with(rt.alloc(), LOAD[0])?;
    for (first, value) in [(Some([9; 16]), 9), (None, 7)] {
        let mut thread = worked(false, [NOTHING; 3]);
        for result in [first, None] {
            if !thread.results0.is_full() {
                thread.results0.push(result);
            }
        }
        assert!(rt; step(&mut thread, &memory, &words).0.is_some() && thread.acc[4] == [value; 16]);
        assert!(rt; thread.results0.len() == 1);
    }
    Ok(())
}

// Setup words of a texture at page 1, of 8x8 pixels of four bytes.
const BASE: u32 = 1 << 12;

const SIDES: u32 = (8 << 8) + (8 << 20);

const CUBE: u32 = 1 << 9;

const STRIDE: u32 = (1 << 30) + (2 << 12);

// Textures that there aren't: a cube with two strides, none, or one of 0; a type that isn't listed; a child image.
#[test]
fn textures(rt: HostRuntime) -> Result<(), NoMemory> {
    let who = Who {
        unit: Actor::Tmu(0, 0),
        job: 0,
    };
    let memory = memory_with(rt.alloc(), NOTHING)?;
    let reader = Reader {
        who,
        memory: &memory,
    };
    for four in [
        [BASE + CUBE, SIDES, STRIDE, STRIDE],
        [BASE + CUBE, SIDES, 0, 0],
        [BASE + CUBE, SIDES, 1 << 30, 0],
        [BASE + (12 << 4), SIDES, 0, 0],
        [BASE, SIDES, 1 << 31, 0],
        [BASE, SIDES, 0, 3 << 30],
    ] {
        let mut accesses = ArrayVec::new();
        let none: &[u32] = &[];
        assert!(rt; serve(&Ask::Texture(four), &none, &reader, &mut accesses).is_none());
        assert!(rt; accesses.len() == 1 && accesses[0].way == Way::Wild);
    }
    // A pixel of 8x8 in microtiles of 4x4; level 1, below the face's own pixels; face 9 modulo 6; a pixel in raster.
    for (four, words, place, len) in [
        ([BASE, SIDES, 0, 0], [0, 0, 5, 14], 4288, 64),
        ([BASE + 1, SIDES, 0, 0], [1, 0, 0, 0], 4032, 64),
        ([BASE + CUBE, SIDES, STRIDE, 0], [0, 9, 0, 0], 28672, 64),
        ([BASE, SIDES + (1 << 31), 0, 0], [0, 0, 5, 3], 4212, 4),
    ] {
        let mut accesses = ArrayVec::new();
        let words: &[u32] = &words;
        let served = serve(&Ask::Texture(four), &words, &reader, &mut accesses);
        assert!(rt; served == Some(None) && accesses.len() == 128);
        assert!(rt; (accesses[0].place, accesses[0].len) == (place, len));
        assert!(rt; (accesses[1].place, accesses[1].len) == (4096, len));
    }
    Ok(())
}
