//! The checker's answer for a line, as text.
ghost use Rattle.std.specs.Prelude.{◌<◌};

use field_words::Stop;
use qpu_isa::{Sample, ShaderInfo};
use shader_check::check_code;
use std::alloc::{AllocError, Global};

// The greatest number of words of a shader.
const MOST: usize = 8192;

// The words before the colon.
fn words(alloc: Global, line: &str) -> Result<Vec<u64>, AllocError> {
    let mut words = Vec::new(alloc);
    let front = match line.split_once(':') {
        Some((front, _)) => front,
        None => line,
    };
    for word in front.split(' ') {
        if let Ok(number) = u64::from_str_radix(word, 16) {
            words.push(number)?;
        }
    }
    Ok(words)
}

// A sample as the positions of its uniforms, `d` before a direct one and `t` before one by setup words.
fn sample_text(alloc: Global, sample: &Sample) -> Result<String, AllocError> {
    let mut numbers: Vec<u32> = Vec::new(alloc);
    for position in sample.p {
        if let Some(number) = position {
            numbers.push(number)?;
        }
    }
    let letter = if sample.direct { 'd' } else { 't' };
    format!(in alloc; "{letter}{numbers:?}")
}

fn info_text(alloc: Global, info: &ShaderInfo) -> Result<String, AllocError> {
    let mut text = String::new(alloc);
    for sample in &info.samples {
        if !text.is_empty() {
            text.push(' ')?;
        }
        text.push_str(sample_text(alloc, sample)?.as_str())?;
    }
    let uniforms = info.uniforms;
    let threaded = u8::from(info.threaded);
    let address = &info.address_words;
    let samples = text.as_str();
    format!(in alloc;
        "ok uniforms {uniforms} threaded {threaded} address {address:?} samples {samples}"
    )
}

/// The checker's answer for one line, as text.
pub fn answer(alloc: Global, line: &str) -> Result<String, AllocError> {
    let code = words(alloc, line)?;
    if code.len() > MOST {
        return format!(in alloc; "too long");
    }
    match check_code(alloc, &code) {
        Ok(info) => info_text(alloc, &info),
        Err(Stop::Fault(fault)) => {
            let number = fault.number;
            let index = fault.index;
            format!(in alloc; "fault S{number} at {index}")
        }
        Err(Stop::NoMemory) => Err(AllocError),
    }
}
