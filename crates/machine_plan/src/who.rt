//! For whom a step is done, and who reads.
use field_words::Actor;
use phys_mem::PhysMem;

/// The unit that steps and the number of the job for which it does.
#[derive(Clone, Copy, Debug, PartialEq, Eq)]
pub struct Who {
    pub unit: Actor,
    pub job: u8,
}

/// Who reads, and the memory that it reads.
#[derive(Clone, Copy)]
pub struct Reader<'a> {
    pub who: Who,
    pub memory: &'a PhysMem,
}
