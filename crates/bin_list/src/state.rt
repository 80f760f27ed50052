//! A shader state of a binner list.

/// A shader state: the low four bits of its `word` say how many attributes its record has (bits 2:0, where 0 means 8) and
/// whether the record is extended (bit 3). No primitive under it draws an index above `max_index`.
#[derive(Clone, Copy, Debug, PartialEq, Eq)]
pub struct State {
    pub word: u32,
    pub max_index: u32,
}
