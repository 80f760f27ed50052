//! The input of a case, which its lines make one after the other.
use super::answer::answer;
use entry::Program;
use std::alloc::{AllocError, Global};

/// The bytes of a text, as the program's command `make` reads it.
pub fn made<P: Program>(
    alloc: Global,
    program: &P,
    text: &[u8],
) -> Result<Option<Vec<u8>>, AllocError> {
    let made = answer(alloc, program, "make", text.to_vec(alloc)?)?;
    Ok(if made.status == 0 {
        Some(made.output)
    } else {
        None
    })
}

/// The number before the first blank, and what follows it.
fn number_and_rest(line: &str) -> Option<(usize, &str)> {
    let (first, rest) = line.split_once(' ')?;
    Some((first.parse::<usize>().ok()?, rest))
}

/// Puts bytes in the place of those from an offset on. It says whether all of them were there.
fn put(input: &mut Vec<u8>, at: usize, bytes: &[u8]) -> bool {
    if at > input.len() || bytes.len() > input.len() - at {
        return false;
    }
    input[at..at + bytes.len()].copy_from_slice(bytes);
    true
}

/// Adds so many bytes, of which byte i is the remainder of `factor` times i plus `first` by 251.
fn fill(input: &mut Vec<u8>, count: usize, factor: u8, first: u8) -> Result<(), AllocError> {
    let mut row = [0u8; 251];
    for (i, byte) in row.iter_mut().enumerate() {
        *byte = ((i % 251 * usize::from(factor) + usize::from(first)) % 251) as u8;
    }
    for _ in 0..count / 251 {
        input.extend_from_slice(&row)?;
    }
    input.extend_from_slice(&row[..count % 251])
}

/// Fills the input as a line says, and says whether it could.
fn filled(input: &mut Vec<u8>, count: usize, rule: &str) -> Result<bool, AllocError> {
    let Some((factor, first)) = number_and_rest(rule) else {
        return Ok(false);
    };
    let (Ok(factor), Ok(first)) = (u8::try_from(factor), first.parse::<u8>()) else {
        return Ok(false);
    };
    fill(input, count, factor, first)?;
    Ok(true)
}

/// Does what a line with a number asks of the input, and says whether it could: `change N BYTES` puts bytes from offset N on,
/// `repeat N BYTES` adds bytes N times, `fill N A B` adds N bytes by a rule.
pub fn changed<P: Program>(
    alloc: Global,
    program: &P,
    input: &mut Vec<u8>,
    key: &str,
    rest: &str,
) -> Result<bool, AllocError> {
    let Some((number, rest)) = number_and_rest(rest) else {
        return Ok(false);
    };
    if key == "fill" {
        return filled(input, number, rest);
    }
    let Some(bytes) = made(alloc, program, rest.as_bytes())? else {
        return Ok(false);
    };
    if key == "change" {
        return Ok(put(input, number, &bytes));
    }
    for _ in 0..number {
        input.extend_from_slice(&bytes)?;
    }
    Ok(true)
}
