//! What one walk over a shader finds of where it may go.
/// What the rules need to know of where a shader may go.
///
/// `end` is the index of its first program end, or the number of words where there is none. `targets` has a mark for each
/// index from 0 to the number of words: whether a branch leads there or a branch's three slots end there. `threaded` tells
/// whether it switches threads.
#[derive(Debug, Drop)]
pub struct Flow {
    pub end: u32,
    pub targets: Vec<bool>,
    pub threaded: bool,
}
