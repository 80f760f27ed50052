//! What a shader is refused for.

use thiserror::Error;

/// A rule that a shader breaks: its number, 1 to 27, and the index of the instruction where it is broken. Rules on the whole
/// shader stand at the number of words.
#[derive(Clone, Copy, Debug, PartialEq, Eq, Error)]
#[error("S{number} at instruction {index}")]
pub struct ShaderFault {
    pub number: u8,
    pub index: u32,
}
