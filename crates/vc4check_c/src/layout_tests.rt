//! The order of the fields that C sees. `repr(C)` lays them out as they are declared, and a derived `Debug` tells them so.

use crate::block::{Known, MadeAnswer};
use crate::bound::BoundAnswer;
use crate::jobs::{JobLists, JobsAnswer};
use crate::shader::{ShaderAnswer, ShaderSample};
use crate::submission::{GivenBuffer, GivenFrame, GivenSurface, Submission};
use crate::submit::Verdict;
use std::alloc::{AllocError, Global};
use std::fmt::Debug;
use std::test::Fail;

/// Where the lists of a job lie.
const LISTS: JobLists = JobLists {
    lists: 0,
    slot: 1,
    bin: 2,
    records: 3,
    uniforms: 4,
    render: 5,
    end: 6,
    bin_length: 7,
    records_length: 8,
    uniforms_length: 9,
    render_length: 10,
};

const LISTS_TEXT: &str =
    "JobLists { lists: 0, slot: 1, bin: 2, records: 3, uniforms: 4, render: 5, end: 6, \
    bin_length: 7, records_length: 8, uniforms_length: 9, render_length: 10 }";

// Whether the fields stand in this order.
fn tells<T: Debug>(alloc: Global, answer: &T, wanted: &str) -> Result<bool, AllocError> {
    Ok(format!(in alloc; "{answer:?}")?.as_str() == wanted)
}

#[test]
fn verdicts(rt: HostRuntime) -> Result<(), Fail> {
    let verdict = Verdict {
        offset: 0,
        letter: 1,
        number: 2,
        part: 3,
        index: 4,
        size: 5,
        lists: LISTS,
    };
    let front = "Verdict { offset: 0, letter: 1, number: 2, part: 3, index: 4, size: 5, lists: ";
    let text = format!(in rt.alloc(); "{front}{LISTS_TEXT} }}")?;
    assert!(rt; tells(rt.alloc(), &verdict, text.as_str())?);
    Ok(())
}

#[test]
fn answers_on_several_jobs(rt: HostRuntime) -> Result<(), Fail> {
    let jobs = JobsAnswer {
        offset: 0,
        letter: 1,
        number: 2,
        size: 3,
        jobs: 4,
        lists: [LISTS; 8],
    };
    let lists = [LISTS_TEXT; 8].join(rt.alloc(), ", ")?;
    let front = "JobsAnswer { offset: 0, letter: 1, number: 2, size: 3, jobs: 4, lists: [";
    let text = format!(in rt.alloc(); "{front}{lists}] }}")?;
    assert!(rt; tells(rt.alloc(), &jobs, text.as_str())?);
    let bound = BoundAnswer {
        offset: 0,
        steps_low: 1,
        steps_high: 2,
        stay: 3,
        items: 4,
        loops: 5,
        waits: 6,
        letter: 7,
        number: 8,
    };
    let text =
        "BoundAnswer { offset: 0, steps_low: 1, steps_high: 2, stay: 3, items: 4, loops: 5, waits: 6, letter: 7, number: 8 }";
    assert!(rt; tells(rt.alloc(), &bound, text)?);
    Ok(())
}

#[test]
fn answers_on_shaders(rt: HostRuntime) -> Result<(), Fail> {
    let shader = ShaderAnswer {
        number: 0,
        index: 1,
        uniforms: 2,
        threaded: 3,
        samples: 4,
        address_words: 5,
    };
    let text =
        "ShaderAnswer { number: 0, index: 1, uniforms: 2, threaded: 3, samples: 4, address_words: 5 }";
    assert!(rt; tells(rt.alloc(), &shader, text)?);
    let sample = ShaderSample {
        positions: [0, 1, 2, 3],
        direct: 4,
    };
    let text = "ShaderSample { positions: [0, 1, 2, 3], direct: 4 }";
    assert!(rt; tells(rt.alloc(), &sample, text)?);
    let made = MadeAnswer {
        number: 0,
        index: 1,
        entries: 2,
    };
    let text = "MadeAnswer { number: 0, index: 1, entries: 2 }";
    assert!(rt; tells(rt.alloc(), &made, text)?);
    let known = Known {
        words: [0, 1, 2, 3, 4],
    };
    assert!(rt; tells(rt.alloc(), &known, "Known { words: [0, 1, 2, 3, 4] }")?);
    Ok(())
}

/// A surface.
const SURFACE: GivenSurface = GivenSurface {
    hindex: 0,
    offset: 1,
    bits: 2,
    flags: 3,
};

const SURFACE_TEXT: &str = "GivenSurface { hindex: 0, offset: 1, bits: 2, flags: 3 }";

/// A frame.
const FRAME: GivenFrame = GivenFrame {
    width: 0,
    height: 1,
    min_x: 2,
    min_y: 3,
    max_x: 4,
    max_y: 5,
    surfaces: [SURFACE; 6],
    clear_color: [6, 7],
    clear_z: 8,
    clear_s: 9,
    pad: [10, 11, 12],
};

#[test]
fn frames(rt: HostRuntime) -> Result<(), Fail> {
    assert!(rt; tells(rt.alloc(), &SURFACE, SURFACE_TEXT)?);
    let surfaces = [SURFACE_TEXT; 6].join(rt.alloc(), ", ")?;
    let front =
        "GivenFrame { width: 0, height: 1, min_x: 2, min_y: 3, max_x: 4, max_y: 5, surfaces: [";
    let rest = "], clear_color: [6, 7], clear_z: 8, clear_s: 9, pad: [10, 11, 12] }";
    let text = format!(in rt.alloc(); "{front}{surfaces}{rest}")?;
    assert!(rt; tells(rt.alloc(), &FRAME, text.as_str())?);
    Ok(())
}

#[test]
fn submissions(rt: HostRuntime) -> Result<(), Fail> {
    let known = [Known {
        words: [5, 6, 7, 8, 9],
    }];
    let buffer = GivenBuffer {
        address: 0,
        size: 1,
        client: 2,
        kind: 3,
        content: &[4],
        known: &known,
    };
    let text =
        "GivenBuffer { address: 0, size: 1, client: 2, kind: 3, content: [4], known: [Known { words: [5, 6, 7, 8, 9] }] }";
    assert!(rt; tells(rt.alloc(), &buffer, text)?);
    let submission = Submission {
        buffers: &[],
        handles: &[0],
        bin: &[1],
        records: &[2],
        uniforms: &[3],
        client: 4,
        flags: 5,
        states: 6,
        end: 7,
        lists: 8,
        lists_size: 9,
        slot: 10,
        frame: FRAME,
    };
    let frame = format!(in rt.alloc(); "{FRAME:?}")?;
    let front =
        "Submission { buffers: [], handles: [0], bin: [1], records: [2], uniforms: [3], client: 4, flags: 5, states: 6, ";
    let rest = "end: 7, lists: 8, lists_size: 9, slot: 10, frame: ";
    let text = format!(in rt.alloc(); "{front}{rest}{frame} }}")?;
    assert!(rt; tells(rt.alloc(), &submission, text.as_str())?);
    Ok(())
}
