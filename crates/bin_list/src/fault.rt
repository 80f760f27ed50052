//! Why a binner list is refused.
use thiserror::Error;

/// The first broken rule of a binner list: B`number`, at the packet that begins `at` bytes behind the list's start.
/// B18 and B19 stand at the list's end.
#[derive(Clone, Copy, Debug, PartialEq, Eq, Error)]
#[error("B{number} at byte {at} of the binner list")]
pub struct ListFault {
    pub number: u8,
    pub at: u32,
}
