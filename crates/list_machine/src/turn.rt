//! What a step of a list unit has before it.
use machine_plan::{Free, Who};

/// A turn of a list unit: who steps, where a program could start now, and the words that answer what
/// the hardware leaves open. A missing word is zero.
#[derive(Drop)]
pub struct Turn<'a, C> {
    pub who: Who,
    pub free: Free,
    pub words: &'a C,
}
