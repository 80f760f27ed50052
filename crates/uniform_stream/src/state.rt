//! What is known of the uniform stream.

/// What the rules need to know of the uniform stream and the texture units at each instruction.
///
/// `counts` (uniforms taken so far), `pending0` and `pending1` (setup words that TMU 0 and 1 keep) have an entry for each
/// index from 0 to the number of words. `address_words` are the numbers of the uniforms that hold the stream's own address.
/// `known` tells for each instruction whether the position in the stream is known there.
#[derive(Debug, Drop)]
pub struct Stream {
    pub counts: Vec<u32>,
    pub pending0: Vec<u16>,
    pub pending1: Vec<u16>,
    pub address_words: Vec<u32>,
    pub known: Vec<bool>,
}
