//! The items of a job's memory as its file names them: buffers and the two regions; and the rules
//! that they keep.
ghost use Rattle.std.specs.Prelude.{◌≡◌};
ghost use Rattle.buffer_table.specs.Rules.{rule_number};

use thiserror::Error;

/// What a buffer may be used as.
#[derive(Clone, Copy, Debug, PartialEq, Eq)]
pub enum Kind {
    /// Data: surfaces, textures, vertices, indices.
    Plain,
    /// Shader code. It is never a target of a write.
    Code,
}

/// A buffer: `size` bytes from the byte address `place` on, which belong to `client`. The file
/// gives its first `content` bytes; the rest begins as zeros.
#[derive(Clone, Copy, Debug, PartialEq, Eq)]
pub struct Buffer {
    pub place: u32,
    pub size: u32,
    pub client: u32,
    pub kind: Kind,
    pub content: u32,
}

/// The two parts of memory that are no buffer: where the emitted lists go (`lists_size` bytes
/// from `lists_place` on), and the tile slots (`tile_slots` of them, of 524,288 bytes each, from
/// `tile_place` on).
#[derive(Clone, Copy, Debug, PartialEq, Eq)]
pub struct Regions {
    pub lists_place: u32,
    pub lists_size: u32,
    pub tile_place: u32,
    pub tile_slots: u32,
}

/// The rules of the memory table, in the order in which they are asked.
#[derive(Clone, Copy, Debug, PartialEq, Eq)]
pub enum TableRule {
    /// The memory's size is 0, no multiple of a page, or over the limit.
    MemorySize,
    /// A place or size is no multiple of a page, or the size is 0.
    OffPage,
    /// The item ends past the memory.
    OutsideMemory,
    /// A byte of the item lies in an earlier item other than the memory.
    SharedByte,
    /// More content is given than the item has bytes.
    TooMuchContent,
}

impl TableRule {
    /// The rule's number, after the letter M.
    pub fn number(self) -> u8
        ensures { result ≡ rule_number self }
    {
        match self {
            TableRule::MemorySize => 1,
            TableRule::OffPage => 2,
            TableRule::OutsideMemory => 3,
            TableRule::SharedByte => 4,
            TableRule::TooMuchContent => 5,
        }
    }
}

/// The first broken memory rule: M`number` at `item`. Items are 0 the memory, 1 the lists'
/// region, 2 the tile region, and 3 + b buffer b.
#[derive(Clone, Copy, Debug, PartialEq, Eq, Error)]
#[error("M{number} at item {item} of the memory table")]
pub struct TableFault {
    pub number: u8,
    pub item: u32,
}
