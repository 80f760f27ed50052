//! Each call over small input, and over the longest job file that the program takes or the longest shader. The contracts say what is answered, but
//! no clause ties out of memory to a cause: here it doesn't come.

use crate::block::{MadeAnswer, vc4check_make_shader};
use crate::bound::{NO_BOUND, vc4check_bound};
use crate::facts::vc4check_facts;
use crate::jobs::{JobLists, JobsAnswer, vc4check_check};
use crate::place::vc4check_place;
use crate::shader::{ShaderAnswer, ShaderSample, vc4check_shader};
use crate::status::{ACCEPTED, REFUSED, SHORT};
use crate::submission::{GivenBuffer, GivenFrame, GivenSurface, Submission};
use crate::time::vc4check_submission_bound;
use std::test::Fail;

/// The job of examples/smallest.txt.
const SMALLEST: &str = "5643344a0100000000200800000000000010000000100000010000000100000001000000\
    0010080000100000010000000000000000000000\
    01000000000000000100000000000000000000000000000000000000100010000000000\
    0ffffffff0000000000000000000000000000000004000000ffffffff0000000000000000\
    ffffffff0000000000000000ffffffff0000000000000000ffffffff0000000000000000\
    0000000000000000000000000000000000000000";

/// No job, and nothing reported of any.
const NO_LISTS: JobLists = JobLists {
    lists: 0,
    slot: 0,
    bin: 0,
    records: 0,
    uniforms: 0,
    render: 0,
    end: 0,
    bin_length: 0,
    records_length: 0,
    uniforms_length: 0,
    render_length: 0,
};

const NO_JOBS: JobsAnswer = JobsAnswer {
    offset: 0,
    letter: 0,
    number: 0,
    size: 0,
    jobs: 0,
    lists: [NO_LISTS; 8],
};

// The smallest job has 532,480 bytes of memory.
#[test]
fn checks(rt: HostRuntime) -> Result<(), Fail> {
    let alloc = rt.alloc();
    let file = hex::decode(alloc, SMALLEST)?;
    let mut block = vec![in alloc; 0u8; 532_480]?;
    let mut all = NO_JOBS;
    let status = vc4check_check(alloc, &file, &mut block, &mut all);
    assert!(rt; status == ACCEPTED);
    Ok(())
}

// It has 15 bytes of lists.
#[test]
fn places(rt: HostRuntime) -> Result<(), Fail> {
    let alloc = rt.alloc();
    let file = hex::decode(alloc, SMALLEST)?;
    let mut window = vec![in alloc; 0u8; 15]?;
    let mut all = NO_JOBS;
    let status = vc4check_place(alloc, &file, &mut window, &mut all);
    assert!(rt; status == ACCEPTED);
    Ok(())
}

// No bytes are no file.
#[test]
fn refuses(rt: HostRuntime) -> Result<(), Fail> {
    let alloc = rt.alloc();
    let mut all = NO_JOBS;
    let mut bound = NO_BOUND;
    assert!(rt; vc4check_check(alloc, &[], &mut [], &mut all) == REFUSED);
    assert!(rt; vc4check_place(alloc, &[], &mut [], &mut all) == REFUSED);
    assert!(rt; vc4check_bound(alloc, &[], &mut bound) == REFUSED);
    let mut size = 0;
    assert!(rt; vc4check_facts(alloc, &[], &all, &mut [], &mut size) == ACCEPTED);
    Ok(())
}

/// No surface.
const NO_SURFACE: GivenSurface = GivenSurface {
    hindex: u32::MAX,
    offset: 0,
    bits: 0,
    flags: 0,
};

// The smallest job as a submission.
#[test]
fn submissions(rt: HostRuntime) -> Result<(), Fail> {
    let mut surfaces = [NO_SURFACE; 6];
    surfaces[1].hindex = 0;
    surfaces[1].bits = 4;
    let buffer = GivenBuffer {
        address: 0x81000,
        size: 4096,
        client: 1,
        kind: 0,
        content: &[],
        known: &[],
    };
    let given = Submission {
        buffers: &[buffer],
        handles: &[0],
        bin: &[],
        records: &[],
        uniforms: &[],
        client: 1,
        flags: 0,
        states: 0,
        end: 0x82000,
        lists: 0,
        lists_size: 4096,
        slot: 4096,
        frame: GivenFrame {
            width: 16,
            height: 16,
            min_x: 0,
            min_y: 0,
            max_x: 0,
            max_y: 0,
            surfaces,
            clear_color: [0, 0],
            clear_z: 0,
            clear_s: 0,
            pad: [0, 0, 0],
        },
    };
    let mut answer = NO_BOUND;
    let status = vc4check_submission_bound(rt.alloc(), &given, &mut answer);
    assert_eq!(rt; status, ACCEPTED);
    Ok(())
}

/// A read of memory at a clamped offset: `alu sig=13 ca=1 wa=32 oa=max rb=0 ab=7`, `alu ca=1 wa=32 oa=min ra=32 ab=6`,
/// `alu ca=1 wa=56 oa=add ra=32 ab=6`, `alu sig=10`, `alu sig=3`, `nop`, `nop`.
const READ: [u64; 7] = [
    0xd0020827139c01c0,
    0x1002082712827180,
    0x10020e270c827180,
    0xa00009e7009e7000,
    0x300009e7009e7000,
    0x100009e7009e7000,
    0x100009e7009e7000,
];

const UNSET: ShaderAnswer = ShaderAnswer {
    number: 7,
    index: 7,
    uniforms: 7,
    threaded: 7,
    samples: 7,
    address_words: 7,
};

// The read has one sample. Cut off it has no end.
#[test]
fn shaders(rt: HostRuntime) -> Result<(), Fail> {
    let alloc = rt.alloc();
    let mut samples = [ShaderSample {
        positions: [0; 4],
        direct: 0,
    }];
    let mut answer = UNSET;
    let none = &mut [];
    let status = vc4check_shader(alloc, &READ, &mut samples, none, &mut answer);
    assert!(rt; status == ACCEPTED);
    let status = vc4check_shader(alloc, &READ[..4], &mut samples, none, &mut answer);
    assert!(rt; status == REFUSED);
    Ok(())
}

/// The smallest job with a buffer of 48 MiB, up to its contents. With them, zeros, the file has 48 MiB; its last four bytes are the handle 0.
const FRONT: &str = "5643344a01000000001008030000000000100000001000000100000001000000010000000010\
    0800000000030100000000000000\
    48ffff02\
    01000000000000000100000000000000000000000000000000000000100010000000000\
    0ffffffff0000000000000000000000000000000004000000ffffffff0000000000000000\
    ffffffff0000000000000000ffffffff0000000000000000ffffffff0000000000000000\
    00000000000000000000000000000000";

#[test]
fn files_of_48_mib(rt: HostRuntime) -> Result<(), Fail> {
    let alloc = rt.alloc();
    let mut file = hex::decode(alloc, FRONT)?;
    file.resize(50_331_648, 0)?;
    let mut all = NO_JOBS;
    assert_eq!(rt; vc4check_check(alloc, &file, &mut [], &mut all), SHORT);
    assert_eq!(rt; vc4check_place(alloc, &file, &mut [], &mut all), SHORT);
    let mut bound = NO_BOUND;
    assert_eq!(rt; vc4check_bound(alloc, &file, &mut bound), ACCEPTED);
    Ok(())
}

#[test]
fn shaders_of_8192_words(rt: HostRuntime) -> Result<(), Fail> {
    let alloc = rt.alloc();
    let mut code = vec![in alloc; 0x100009e7009e7000u64; 8189]?;
    code.extend_from_slice(&[0x300009e7009e7000, 0x100009e7009e7000, 0x100009e7009e7000])?;
    let mut answer = UNSET;
    let status = vc4check_shader(alloc, &code, &mut [], &mut [], &mut answer);
    assert_eq!(rt; status, ACCEPTED);
    let mut bytes = Vec::new(alloc);
    for word in &code {
        bytes.extend_from_slice(&word.to_le_bytes())?;
    }
    let mut made = MadeAnswer {
        number: 0,
        index: 0,
        entries: 0,
    };
    let status = vc4check_make_shader(alloc, &bytes, &mut [], &mut made);
    assert_eq!(rt; status, SHORT);
    Ok(())
}
