//! Why shader records and uniforms are refused.

use job_format::Stage;
use thiserror::Error;

/// The first broken rule of records and uniforms: its stage (A or U), its number, and the place in
/// bytes, counted in the job's uniforms or else in its records.
#[derive(Clone, Copy, Debug, PartialEq, Eq, Error)]
#[error("{stage}{number} at byte {at} of the {}", self.part())]
pub struct RecordFault {
    pub stage: Stage,
    pub number: u8,
    pub in_uniforms: bool,
    pub at: u32,
}

impl RecordFault {
    /// The part of a job that the place is counted in.
    fn part(&self) -> &'static str {
        if self.in_uniforms {
            "uniforms"
        } else {
            "shader records"
        }
    }
}
