//! Steps of machines made by hand, with the accesses of each.
ghost use Rattle.std.specs.Prelude.{◌≤◌, length};

use arrayvec::ArrayVec;
use field_words::{Actor, NoMemory, Way};
use machine::{Machine, Start, Stepped};
use phys_mem::PhysMem;
use std::alloc::Global;

const BINNER: Actor = Actor::Binner;

const RENDERER: Actor = Actor::Renderer;

// A step: the unit, its first choice words, and the accesses that it lists.
type Turn<'a> = (Actor, &'a [u32], &'a [(Way, u64, u32)]);

// A job with a binner list of this length at place 0, and a renderer list of this length at 0x40.
fn job(bin_len: u32, render_len: u32) -> Start {
    Start {
        bin_place: 0,
        bin_len,
        render_place: 0x40,
        render_len,
    }
}

// A machine with these jobs, over a memory of 64 KiB with these bytes at these places.
fn machine_with(alloc: Global, parts: &[(u32, &[u8])], jobs: &[Start]) -> Result<Machine, NoMemory>
    requires some { 1 ≤ length jobs.now }
    requires few { length jobs.now ≤ 8 }
{
    let mut memory = PhysMem::new(alloc, 0x10000)?;
    for (place, bytes) in parts {
        if *place as u64 + bytes.len() as u64 <= memory.len() as u64 {
            memory.write_bytes(*place, bytes);
        }
    }
    Machine::new(alloc, memory, jobs)
}

// Each of these steps is done, for this job, and lists its accesses.
fn does(machine: &mut Machine, job: u8, turns: &[Turn]) -> bool {
    let mut accesses = ArrayVec::new();
    for (unit, words, want) in turns {
        if machine.step(*unit, words, &mut accesses) != Stepped::Done
            || accesses.len() != want.len()
        {
            return false;
        }
        for (access, wanted) in accesses.iter().zip(want.iter()) {
            if (access.way, access.place, access.len) != *wanted
                || access.unit != *unit
                || access.job != job
            {
                return false;
            }
        }
    }
    true
}

// The word at this place.
fn word_at(machine: &Machine, place: u32) -> u32 {
    let memory = machine.memory();
    if place < 0x10000 && place + 4 <= memory.len() {
        memory.read_word(place)
    } else {
        0
    }
}

// 7 is no packet of a renderer list, a packet of three bytes in a list of one is read whole, and a branch before the tile lists are
// closed is undefined.
#[test]
fn ends_of_a_renderer_list(rt: HostRuntime) -> Result<(), NoMemory> {
    let lists: [(&[u8], u32, &[(Way, u64, u32)]); 3] = [
        (&[7, 0x72], 15, &[(Way::Read, 0x40, 1), (Way::Wild, 0, 0)]),
        (&[0x73, 5, 6], 1, &[(Way::Read, 0x40, 3)]),
        (
            &[0x11, 0, 0x10, 0, 0],
            5,
            &[(Way::Read, 0x40, 5), (Way::Wild, 0, 0)],
        ),
    ];
    for (list, len, want) in lists {
        let mut machine = machine_with(rt.alloc(), &[(0x40, list)], &[job(0, len)])?;
        assert!(rt; does(&mut machine, 0, &[(RENDERER, &[], want)]) && machine.finished());
    }
    Ok(())
}

// Bits that name no buffer: a load waits, and is done without an access, before any frame is set; a store does nothing either. Another
// load is undefined where one waits.
#[test]
fn names_no_buffer(rt: HostRuntime) -> Result<(), NoMemory> {
    let list = [
        0x1d, 0xf8, 0xff, 0, 0x40, 0, 0, 0x73, 0, 0, 0x1c, 0xf8, 0xff, 0, 0x40, 0, 0, 0x1d, 0, 0,
        0, 0, 0, 0, 0x1b, 0, 0, 0, 0,
    ];
    let mut machine = machine_with(rt.alloc(), &[(0x40, &list)], &[job(0, 29)])?;
    assert!(rt;
        does(
            &mut machine,
            0,
            &[
                (RENDERER, &[], &[(Way::Read, 0x40, 7)]),
                (RENDERER, &[], &[(Way::Read, 0x47, 3)]),
                (RENDERER, &[], &[(Way::Read, 0x4a, 7)]),
                (RENDERER, &[], &[(Way::Read, 0x51, 7)]),
                (RENDERER, &[], &[(Way::Read, 0x58, 5), (Way::Wild, 0, 0)]),
            ]
        )
    );
    assert!(rt; machine.finished());
    Ok(())
}

// Tile (1, 0) of a frame of 70x10 pixels has six pixels in a row: two microtiles of 4x4, in three rows. The frame is stored in T, then
// in Lt at an address whose low four bits don't count; a load in T waits and is done where its tile is named. A load by bits that name
// no tiling is undefined only there.
#[test]
fn edge_of_a_frame(rt: HostRuntime) -> Result<(), NoMemory> {
    let list = [
        0x71, 0, 0x40, 0, 0, 70, 0, 10, 0, 0x44, 0, 0x73, 1, 0, 0x18, 0x1c, 0x21, 0, 0x0f, 0x80, 0,
        0, 0x1d, 0x11, 0, 0, 0x40, 0, 0, 0x73, 1, 0, 0x1d, 0x31, 0, 0, 0x40, 0, 0, 0x73, 1, 0,
    ];
    let mut words = [0; 97];
    words[0] = 0x44332211;
    words[16] = 0x88776655;
    words[95] = 0xddccbbaa;
    words[96] = 0xffffffff;
    let in_t = [
        (Way::Read, 0x4e, 1),
        (Way::Write, 0x6000, 64),
        (Way::Write, 0x6040, 64),
        (Way::Write, 0x6200, 64),
        (Way::Write, 0x6240, 64),
        (Way::Write, 0x6400, 64),
        (Way::Write, 0x6440, 64),
    ];
    let in_lt = [
        (Way::Read, 0x4f, 7),
        (Way::Write, 0x8400, 64),
        (Way::Write, 0x8440, 64),
        (Way::Write, 0x8880, 64),
        (Way::Write, 0x88c0, 64),
        (Way::Write, 0x8d00, 64),
        (Way::Write, 0x8d40, 64),
    ];
    let loaded = [
        (Way::Read, 0x5d, 3),
        (Way::Read, 0x6000, 64),
        (Way::Read, 0x6040, 64),
        (Way::Read, 0x6200, 64),
        (Way::Read, 0x6240, 64),
        (Way::Read, 0x6400, 64),
        (Way::Read, 0x6440, 64),
    ];
    let mut machine = machine_with(rt.alloc(), &[(0x40, &list)], &[job(0, 42)])?;
    assert!(rt;
        does(
            &mut machine,
            0,
            &[
                (RENDERER, &words, &[(Way::Read, 0x40, 11)]),
                (RENDERER, &words, &[(Way::Read, 0x4b, 3)]),
                (RENDERER, &words, &in_t),
                (RENDERER, &[1], &in_lt),
                (RENDERER, &[], &[(Way::Read, 0x56, 7)]),
                (RENDERER, &[], &loaded),
                (RENDERER, &[], &[(Way::Read, 0x60, 7)]),
                (RENDERER, &[], &[(Way::Read, 0x67, 3), (Way::Wild, 0, 0)]),
            ]
        )
    );
    assert!(rt; word_at(&machine, 0x6000) == 0x44332211);
    assert!(rt; word_at(&machine, 0x6040) == 0x88776655);
    assert!(rt; word_at(&machine, 0x647c) == 0xddccbbaa);
    assert!(rt; word_at(&machine, 0x6480) == 0);
    assert!(rt; word_at(&machine, 0x8400) == 1);
    Ok(())
}

// A tile of 32x32 pixels of two bytes of a raster frame of 40x3: eight pixels in each row, and none at the tile to its right. Then tiles
// in full resolution.
#[test]
fn rows_and_whole_tiles(rt: HostRuntime) -> Result<(), NoMemory> {
    let list = [
        0x71, 4, 0x40, 0, 0, 40, 0, 3, 0, 1, 0, 0x73, 1, 0, 0x19, 0x73, 2, 0, 0x19, 0x1a, 0x07,
        0x50, 0, 0, 0x1b, 0x03, 0x60, 0, 0, 0x73, 0, 0,
    ];
    let rows = [
        (Way::Read, 0x4e, 1),
        (Way::Write, 0x4044, 16),
        (Way::Write, 0x4094, 16),
        (Way::Write, 0x40e4, 16),
    ];
    let mut machine = machine_with(rt.alloc(), &[(0x40, &list)], &[job(0, 32)])?;
    assert!(rt;
        does(
            &mut machine,
            0,
            &[
                (RENDERER, &[], &[(Way::Read, 0x40, 11)]),
                (RENDERER, &[], &[(Way::Read, 0x4b, 3)]),
                (RENDERER, &[0, 0, 0, 0, 7], &rows),
                (RENDERER, &[], &[(Way::Read, 0x4f, 3)]),
                (RENDERER, &[], &[(Way::Read, 0x52, 1)]),
                (
                    RENDERER,
                    &[9],
                    &[(Way::Read, 0x53, 5), (Way::Write, 0x5000, 16384)]
                ),
                (RENDERER, &[], &[(Way::Read, 0x58, 5)]),
                (
                    RENDERER,
                    &[],
                    &[(Way::Read, 0x5d, 3), (Way::Read, 0x6000, 16384)]
                ),
            ]
        )
    );
    assert!(rt; word_at(&machine, 0x4094) == 7 && word_at(&machine, 0x5000) == 9);
    Ok(())
}

// A config with two tiles and its allocation at 0x1000, binning is started, a state word with one attribute and its record at 0x2000, a
// primitive of one vertex with index 5, and the lists are closed.
const DRAWS: [u8; 33] = [
    112, 0, 0x10, 0, 0, 0, 0x10, 0, 0, 0, 0x30, 0, 0, 2, 1, 0, 6, 64, 0x01, 0x20, 0, 0, 33, 4, 1,
    0, 0, 0, 5, 0, 0, 0, 4,
];

// Two items of tile 0 have a link between them. The renderer fetches a vertex of the first, starts its programs, the fragment program
// single-threaded, and passes by the item of another tile. Behind the last item the list is left without an access.
#[test]
fn tile_list_over_a_link(rt: HostRuntime) -> Result<(), NoMemory> {
    let list = [0x11, 0x00, 0x10, 0, 0];
    let mut machine = machine_with(
        rt.alloc(),
        &[(0, &DRAWS), (0x40, &list), (0x2000, &[1])],
        &[job(33, 5)],
    )?;
    assert!(rt;
        does(
            &mut machine,
            0,
            &[
                (BINNER, &[], &[(Way::Read, 0, 16)]),
                (BINNER, &[], &[(Way::Read, 16, 1), (Way::Write, 0x3000, 96)]),
                (BINNER, &[], &[(Way::Read, 17, 5)]),
                (BINNER, &[], &[(Way::Read, 22, 10)]),
                (BINNER, &[], &[(Way::Read, 0x2024, 8), (Way::Read, 0, 1)]),
                (BINNER, &[], &started(0x201c)),
                (BINNER, &[0], &[(Way::Write, 0x1000, 16)]),
                (BINNER, &[1], &[(Way::Write, 0x1020, 16)]),
                (
                    BINNER,
                    &[3],
                    &[(Way::Write, 0x1010, 16), (Way::Write, 0x1080, 16)]
                ),
                (BINNER, &[2], &[]),
                (BINNER, &[], &[(Way::Read, 32, 1)]),
                (RENDERER, &[], &[(Way::Read, 0x40, 5)]),
                (
                    RENDERER,
                    &[4, 9],
                    &[
                        (Way::Read, 0x1000, 16),
                        (Way::Read, 0x2024, 8),
                        (Way::Read, 0, 1)
                    ],
                ),
            ]
        )
    );
    for (word, code) in [(1, 0x2010), (2, 0x2004)] {
        let [flags, code, uniforms] = started(code);
        let want = [(Way::Read, 0x1000, 16), flags, code, uniforms];
        assert!(rt; does(&mut machine, 0, &[(RENDERER, &[word], &want)]));
    }
    assert!(rt;
        does(
            &mut machine,
            0,
            &[
                (RENDERER, &[3], &[(Way::Read, 0x1000, 16)]),
                (RENDERER, &[7], &[(Way::Read, 0x1080, 16)]),
                (RENDERER, &[0], &[]),
            ]
        )
    );
    assert!(rt; !machine.enabled(BINNER) && !machine.enabled(RENDERER) && !machine.finished());
    Ok(())
}

// The accesses of a program's start whose code has its place in the record at 0x2000 here.
fn started(code: u64) -> [(Way, u64, u32); 3]
    requires { code ≤ 0x2020 }
{
    [
        (Way::Read, 0x2000, 2),
        (Way::Read, code, 4),
        (Way::Read, code + 4, 4),
    ]
}

// 17 is undefined where the lists aren't closed, and at an address that is no tile's.
#[test]
fn no_tile_list(rt: HostRuntime) -> Result<(), NoMemory> {
    let mut closes = [0; 18];
    closes[..17].copy_from_slice(&DRAWS[..17]);
    closes[17] = 4;
    for (low, steps) in [(0x00, 2), (0x10, 3), (0x40, 3)] {
        let list = [0x11, low, 0x10, 0, 0];
        let mut machine = machine_with(rt.alloc(), &[(0, &closes), (0x40, &list)], &[job(18, 5)])?;
        let mut accesses = ArrayVec::new();
        for _ in 0..steps {
            machine.step(BINNER, &[], &mut accesses);
        }
        let want = [(Way::Read, 0x40, 5), (Way::Wild, 0, 0)];
        assert!(rt; does(&mut machine, 0, &[(RENDERER, &[], &want)]));
        assert!(rt; machine.finished() == (steps == 3));
    }
    Ok(())
}

// A config with one tile and its allocation at 0x1000, binning is started, a state word with one attribute and an extended record at
// 0x200, and an indexed primitive of two vertices with indexes of two bytes at 0x400, none over 5.
const INDEXED: [u8; 36] = [
    112, 0, 0x10, 0, 0, 0, 0x10, 0, 0, 0, 0x20, 0, 0, 1, 1, 0, 6, 64, 0x09, 0x02, 0, 0, 32, 0x10,
    2, 0, 0, 0, 0, 4, 0, 0, 5, 0, 0, 0,
];

// The first vertex, of index 3, is fetched whole; the second's index, 6, is above the greatest one, so that it alone is read. Then a
// coordinate program is started. The first item lies in the tile's own block, which is full with it: the second has a link before it,
// and lies in the first of the further blocks. Then the primitive is done, and so is the list.
#[test]
fn fetches_and_puts(rt: HostRuntime) -> Result<(), NoMemory> {
    let mut machine = machine_with(
        rt.alloc(),
        &[
            (0, &INDEXED),
            (0x400, &[3, 0, 6, 0]),
            (0x21c, &[0, 5, 0, 0, 0, 6, 0, 0, 0, 3, 0, 0, 3, 4]),
            (0x264, &[0xff, 1, 0, 0]),
            (0x1000, &[9; 48]),
        ],
        &[job(36, 0)],
    )?;
    let fetch = [
        (Way::Read, 0x400, 2),
        (Way::Read, 0x224, 8),
        (Way::Read, 0x264, 4),
        (Way::Read, 0x300 + 3 * 260, 4),
    ];
    let start = [
        (Way::Read, 0x200, 2),
        (Way::Read, 0x21c, 4),
        (Way::Read, 0x220, 4),
    ];
    assert!(rt;
        does(
            &mut machine,
            0,
            &[
                (BINNER, &[], &[(Way::Read, 0, 16)]),
                (BINNER, &[], &[(Way::Read, 16, 1), (Way::Write, 0x2000, 48)]),
                (BINNER, &[], &[(Way::Read, 17, 5)]),
                (BINNER, &[], &[(Way::Read, 22, 14)]),
                (BINNER, &[], &fetch),
                (BINNER, &[], &[(Way::Read, 0x402, 2)]),
                (BINNER, &[], &start),
                (BINNER, &[4], &[(Way::Write, 0x1000, 16)]),
                (
                    BINNER,
                    &[2],
                    &[(Way::Write, 0x1010, 16), (Way::Write, 0x1080, 16)]
                ),
                (BINNER, &[0], &[(Way::Write, 0x1090, 16)]),
                (BINNER, &[3], &[]),
            ]
        )
    );
    assert!(rt; !machine.enabled(BINNER) && !machine.finished());
    assert!(rt; word_at(&machine, 0x1010) == 0 && word_at(&machine, 0x1020) == 0x0909_0909);
    Ok(())
}

// A primitive before binning is started is read and then undefined, and the binner's work ends.
#[test]
fn wild_step_ends_the_list(rt: HostRuntime) -> Result<(), NoMemory> {
    let list = [33, 4, 3, 0, 0, 0, 0, 0, 0, 0, 7, 4];
    let mut machine = machine_with(rt.alloc(), &[(0, &list)], &[job(12, 0)])?;
    let want = [(Way::Read, 0, 10), (Way::Wild, 0, 0)];
    assert!(rt; does(&mut machine, 0, &[(BINNER, &[], &want)]) && machine.finished());
    Ok(())
}

// Without tiles nothing is cleared, and the write has no bytes. What is pending is added to the semaphore when the lists are closed, and
// the renderer takes it from there; the list goes on behind that, up to its halt.
#[test]
fn closes_lists(rt: HostRuntime) -> Result<(), NoMemory> {
    let list = [
        112, 0, 0x10, 0, 0, 0, 0x10, 0, 0, 0, 0x20, 0, 0, 0, 9, 0, 6, 7, 7, 4, 7, 0, 1,
    ];
    let mut machine = machine_with(rt.alloc(), &[(0, &list), (0x40, &[8, 8, 8])], &[job(23, 3)])?;
    assert!(rt;
        does(
            &mut machine,
            0,
            &[
                (BINNER, &[], &[(Way::Read, 0, 16)]),
                (BINNER, &[], &[(Way::Read, 16, 1), (Way::Write, 0x2000, 0)]),
                (BINNER, &[], &[(Way::Read, 17, 1)]),
                (BINNER, &[], &[(Way::Read, 18, 1)]),
            ]
        )
    );
    assert!(rt; !machine.enabled(RENDERER));
    assert!(rt;
        does(
            &mut machine,
            0,
            &[
                (BINNER, &[], &[(Way::Read, 19, 1)]),
                (BINNER, &[], &[(Way::Read, 20, 1)]),
                (BINNER, &[], &[(Way::Read, 21, 1)]),
                (RENDERER, &[], &[(Way::Read, 0x40, 1)]),
                (RENDERER, &[], &[(Way::Read, 0x41, 1)]),
            ]
        )
    );
    assert!(rt; !machine.enabled(BINNER) && !machine.enabled(RENDERER) && !machine.finished());
    Ok(())
}

// The binner steps for jobs 0 and 1, and then waits for the renderer, which steps for job 0. Once that has no work left the binner steps
// for job 2.
#[test]
fn binner_waits_for_the_renderer(rt: HostRuntime) -> Result<(), NoMemory> {
    let job = job(1, 14);
    let mut machine = machine_with(rt.alloc(), &[(0, &[1]), (0x40, &[0x72])], &[job, job, job])?;
    let bins: Turn = (BINNER, &[], &[(Way::Read, 0, 1)]);
    assert!(rt; does(&mut machine, 0, &[bins]) && does(&mut machine, 1, &[bins]));
    assert!(rt; !machine.enabled(BINNER) && machine.job_of(BINNER) == 2);
    assert!(rt;
        does(
            &mut machine,
            0,
            &[(RENDERER, &[], &[(Way::Read, 0x40, 14)])]
        )
    );
    assert!(rt; does(&mut machine, 2, &[bins]));
    Ok(())
}

// A binner list that draws a primitive without vertices on one tile, whose lists lie at 0x2000.
const ONE_TILE: [u8; 34] = [
    0x70, 0x00, 0x20, 0, 0, 0x00, 0x10, 0, 0, 0x00, 0x30, 0, 0, 1, 1, 0, 0x06, 0x40, 0x00, 0x01, 0,
    0, 0x21, 4, 0, 0, 0, 0, 0, 0, 0, 0, 7, 4,
];

// A renderer list that waits for the tile lists, and goes into that of the tile.
const ENTERS: [u8; 6] = [8, 0x11, 0x00, 0x20, 0, 0];

// A record whose fragment program is threaded, at 0x200 with uniforms at 0x300.
const RECORD: [u8; 12] = [0, 0, 0, 0, 0x00, 0x02, 0, 0, 0x00, 0x03, 0, 0];

// The fragment program of this code and this uniform, started for each of so many jobs with the same lists. Each job's binner and
// renderer take all their steps.
fn shading(
    alloc: Global,
    words: &[u64; 4],
    uniform: u32,
    jobs: &[Start],
) -> Result<Machine, NoMemory>
    requires some { 1 ≤ length jobs.now }
    requires few { length jobs.now ≤ 8 }
{
    let mut code = [0; 32];
    for i in 0..4 {
        code[8 * i..8 * i + 8].copy_from_slice(&words[i].to_le_bytes());
    }
    let parts: [(u32, &[u8]); 5] = [
        (0, &ONE_TILE),
        (0x40, &ENTERS),
        (0x100, &RECORD),
        (0x200, &code),
        (0x300, &uniform.to_le_bytes()),
    ];
    let mut machine = machine_with(alloc, &parts, jobs)?;
    let mut accesses = ArrayVec::new();
    for _ in jobs {
        for word in [0, 0, 0, 0, 0, 1, 0, 0] {
            machine.step(BINNER, &[word], &mut accesses);
        }
        for word in [0, 0, 2, 3, 0] {
            machine.step(RENDERER, &[word], &mut accesses);
        }
    }
    Ok(machine)
}

// r0 plus a uniform, sent to TMU 0 as 16 addresses.
const SEND: u64 = 0x1002_0e27_0c82_7180;

// A switch to the other thread, and an instruction that does nothing.
const SWITCH: u64 = 0x2000_09e7_009e_7000;

const NOTHING: u64 = 0x1000_09e7_009e_7000;

// r1 is loaded with 4, and r1 plus a uniform becomes the uniforms' address; then an instruction that takes a uniform.
const LOAD: u64 = 0xe002_0867_0000_0004;

const POINT: u64 = 0x1002_0a27_0c82_7380;

const TAKE: u64 = 0x1000_09e7_0082_7000;

// A fresh thread has its r0 from choice words 82 on, here the multiples of 4 from 0: with the uniform 0xffffff00 the request reads outside the
// memory, 16 times.
#[test]
fn sends_a_request(rt: HostRuntime) -> Result<(), NoMemory> {
    let code = [SEND, NOTHING, NOTHING, NOTHING];
    let mut machine = shading(rt.alloc(), &code, 0xffff_ff00, &[job(34, 6)])?;
    let mut words = [0; 98];
    let mut asked = [(Way::Read, 0xffff_ff00, 4); 16];
    for i in 0..16 {
        words[82 + i] = 4 * i as u32;
        asked[i].1 = 0xffff_ff00 + 4 * i as u64;
    }
    let read = [(Way::Read, 0x200, 8), (Way::Read, 0x300, 4)];
    let turns: [Turn; 2] = [
        (Actor::Qpu(0), &words, &read),
        (Actor::Tmu(0, 0), &[], &asked),
    ];
    assert!(rt; does(&mut machine, 0, &turns) && !machine.finished());
    assert!(rt; !machine.enabled(Actor::Tmu(0, 0)) && !machine.enabled(Actor::Tmu(0, 2)));
    Ok(())
}

// A threaded program of job 0 and one of job 1 share processor 0. The two steps after a switch of the first are still job 0's. The step
// after these is job 1's.
#[test]
fn jobs_share_a_processor(rt: HostRuntime) -> Result<(), NoMemory> {
    let code = [SWITCH, NOTHING, NOTHING, NOTHING];
    let mut machine = shading(rt.alloc(), &code, 0, &[job(34, 6), job(34, 6)])?;
    let unit = Actor::Qpu(0);
    assert!(rt;
        does(
            &mut machine,
            0,
            &[
                (unit, &[], &[(Way::Read, 0x200, 8)]),
                (unit, &[], &[(Way::Read, 0x208, 8)]),
                (unit, &[], &[(Way::Read, 0x210, 8)]),
            ]
        )
    );
    assert!(rt; does(&mut machine, 1, &[(unit, &[], &[(Way::Read, 0x200, 8)])]));
    assert!(rt; !machine.enabled(Actor::Qpu(1)) && !machine.enabled(Actor::Qpu(12)));
    Ok(())
}

// A uniform right after an instruction that sets their address is undefined, and ends the thread.
#[test]
fn uniform_after_an_address_is_wild(rt: HostRuntime) -> Result<(), NoMemory> {
    let code = [LOAD, POINT, TAKE, NOTHING];
    let mut machine = shading(rt.alloc(), &code, 0x300, &[job(34, 6)])?;
    let unit = Actor::Qpu(0);
    assert!(rt;
        does(
            &mut machine,
            0,
            &[
                (unit, &[], &[(Way::Read, 0x200, 8)]),
                (unit, &[], &[(Way::Read, 0x208, 8), (Way::Read, 0x300, 4)]),
                (unit, &[], &[(Way::Read, 0x210, 8), (Way::Wild, 0, 0)]),
            ]
        )
    );
    assert!(rt; machine.finished());
    Ok(())
}

// Packets of a binner list that do nothing by themselves, each with its length; those that there aren't are read and then undefined, and so are
// draws before binning is started and the start without a config. A packet that goes past the list's end is read whole.
#[test]
fn packets_of_a_binner_list(rt: HostRuntime) -> Result<(), NoMemory> {
    for (opcode, len) in [
        (0, 1),
        (1, 1),
        (7, 1),
        (4, 1),
        (56, 2),
        (64, 5),
        (96, 4),
        (97, 5),
        (98, 5),
        (99, 5),
        (100, 3),
        (101, 5),
        (102, 9),
        (103, 5),
        (105, 9),
        (106, 9),
        (112, 16),
    ] {
        let mut machine = machine_with(rt.alloc(), &[(0, &[opcode])], &[job(1, 0)])?;
        let want = [(Way::Read, 0, len)];
        assert!(rt; does(&mut machine, 0, &[(BINNER, &[], &want)]), "{opcode}");
        assert!(rt; machine.finished());
    }
    for (opcode, len) in [(2, 1), (6, 1), (32, 14), (33, 10), (254, 9)] {
        let mut machine = machine_with(rt.alloc(), &[(0, &[opcode])], &[job(20, 0)])?;
        let want = [(Way::Read, 0, len), (Way::Wild, 0, 0)];
        assert!(rt; does(&mut machine, 0, &[(BINNER, &[], &want)]), "{opcode}");
        assert!(rt; machine.finished());
    }
    Ok(())
}

// The list of `DRAWS` with these bytes in place of some, after the steps of its four packets.
fn drawing(alloc: Global, at: usize, byte: u8) -> Result<Machine, NoMemory> {
    let mut list = DRAWS;
    if at < 33 {
        list[at] = byte;
    }
    let mut machine = machine_with(alloc, &[(0, &list)], &[job(33, 0)])?;
    let mut accesses = ArrayVec::new();
    for _ in 0..4 {
        machine.step(BINNER, &[], &mut accesses);
    }
    Ok(machine)
}

// A state word whose low bits are zero has eight attributes. A program is due behind each sixteenth vertex. A primitive before the state word is
// undefined. The binner waits where a further block would lie outside of the allocation.
#[test]
fn primitives_in_work(rt: HostRuntime) -> Result<(), NoMemory> {
    let mut machine = drawing(rt.alloc(), 18, 0)?;
    let mut eight = [(Way::Read, 0, 1); 16];
    for i in 0..8 {
        eight[2 * i] = (Way::Read, 0x2024 + 8 * i as u64, 8);
    }
    assert!(rt; does(&mut machine, 0, &[(BINNER, &[], &eight)]));
    let mut machine = drawing(rt.alloc(), 24, 40)?;
    for _ in 0..16 {
        let fetch = [(Way::Read, 0x2024, 8), (Way::Read, 0, 1)];
        assert!(rt; does(&mut machine, 0, &[(BINNER, &[], &fetch)]));
    }
    assert!(rt; does(&mut machine, 0, &[(BINNER, &[], &started(0x201c))]));
    let mut machine = drawing(rt.alloc(), 6, 0)?;
    let mut accesses = ArrayVec::new();
    for _ in 0..2 {
        machine.step(BINNER, &[], &mut accesses);
    }
    assert!(rt; !machine.enabled(BINNER) && !machine.finished());
    Ok(())
}

// A load of a row of nine pixels at 0x3e0, by its bits: of colour with four bytes each, and in formats 1 and 2 with two; of depth; of no buffer; and
// by bits that name no tiling, no buffer and no format. Without a frame it is undefined too.
#[test]
fn loads_by_bits(rt: HostRuntime) -> Result<(), NoMemory> {
    for (first, second, size) in [
        (1, 0, 36),
        (1, 1, 18),
        (1, 2, 18),
        (2, 0, 36),
        (0x30, 0, 0),
        (0x31, 0, 1),
        (3, 0, 1),
        (2, 1, 1),
    ] {
        let frame = [0x71, 0xe8, 3, 0, 0, 9, 0, 1, 0, 4, 0];
        let load = [0x1d, first, second, 0xe8, 3, 0, 0, 0x73, 0, 0];
        let mut machine = machine_with(
            rt.alloc(),
            &[(0x40, &frame), (0x4b, &load)],
            &[job(0, 21)],
        )?;
        let mut accesses = ArrayVec::new();
        for _ in 0..2 {
            machine.step(RENDERER, &[], &mut accesses);
        }
        let read = (Way::Read, 0x52, 3);
        let other = match size {
            1 => (Way::Wild, 0, 0),
            _ => (Way::Read, 0x3e0, size),
        };
        let both = [read, other];
        let count = if size == 0 { 1 } else { 2 };
        let turn: Turn = (RENDERER, &[], &both[..count]);
        assert!(rt; does(&mut machine, 0, &[turn]), "{first} {second}");
    }
    Ok(())
}
