//! What the check of a binner list tells.

use crate::state::State;

/// A binner list in which no rule is broken: its grid in tiles, its shader states in order, and the length of the emitted
/// list in bytes.
#[derive(Debug, Drop)]
pub struct BinInfo {
    pub tiles_x: u8,
    pub tiles_y: u8,
    pub states: Vec<State>,
    pub length: u32,
}
