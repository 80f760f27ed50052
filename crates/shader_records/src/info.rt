//! What the check tells.

/// How many bytes of records and of uniforms were emitted.
#[derive(Clone, Copy, Debug, PartialEq, Eq)]
pub struct RecordInfo {
    pub records: u32,
    pub uniforms: u32,
}
