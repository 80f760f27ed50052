//! What the list units keep, in parts.

use packets::Config;

/// What opcode 113 sets: the place, size and bits of the frame that opcodes 24 and 25 store.
/// Bit 0 of `bits` makes tiles 32 pixels wide and high in place of 64; bits 3:2 are the format and
/// bits 7:6 the tiling.
#[derive(Clone, Copy, Debug, PartialEq, Eq)]
pub struct Frame {
    pub address: u32,
    pub width: u16,
    pub height: u16,
    pub bits: u16,
}

/// A primitive: how many vertices it has and where their indexes come from. Of an indexed one `address`
/// is the place of its indexes, of two bytes each where it is `wide` and else of one, and `most` the
/// greatest index that counts. Of any other `address` is its first index.
#[derive(Clone, Copy, Debug, PartialEq, Eq)]
pub struct Primitive {
    pub indexed: bool,
    pub wide: bool,
    pub length: u32,
    pub address: u32,
    pub most: u32,
}

/// A primitive in work: with its state word, how many of its vertices are done, and whether a
/// coordinate program is due for them.
#[derive(Clone, Copy, Debug, PartialEq, Eq)]
pub struct Work {
    pub word: u32,
    pub primitive: Primitive,
    pub done: u32,
    pub due: bool,
}

/// What the binner keeps from packet to packet: the config, whether binning is started, and the state
/// word.
#[derive(Clone, Copy, Debug, PartialEq, Eq)]
pub struct Kept {
    pub config: Option<Config>,
    pub started: bool,
    pub word: Option<u32>,
}

/// The binner of one job: where it stands in its list, where the list ends, what it keeps, and the
/// primitive that it has in work.
#[derive(Clone, Copy, Debug, PartialEq, Eq)]
pub struct Binner {
    pub place: u64,
    pub end: u64,
    pub kept: Kept,
    pub work: Option<Work>,
}

/// An item of a tile's list: the number of the tile, where the item lies in memory, and the primitive
/// with its state word.
#[derive(Clone, Copy, Debug, PartialEq, Eq)]
pub struct Item {
    pub tile: u32,
    pub place: u64,
    pub word: u32,
    pub primitive: Primitive,
}

/// A load that the renderer keeps until the next tile is named: of a tile in full resolution at this
/// address, or by bits.
#[derive(Clone, Copy, Debug, PartialEq, Eq)]
pub enum Load {
    Full(u32),
    General { bits: u16, address: u32 },
}

/// The renderer stands in the list of this tile. `at` is a number in the job's list of all items: the
/// next item is the first of the tile's from there on.
#[derive(Clone, Copy, Debug, PartialEq, Eq)]
pub struct SubList {
    pub tile: u32,
    pub at: u32,
}

/// The renderer of one job: where it stands in its list, where the list ends, the frame that was
/// set last, the tile that was named last, the load that waits, and the tile list that it is in.
#[derive(Clone, Copy, Debug, PartialEq, Eq)]
pub struct Renderer {
    pub place: u64,
    pub end: u64,
    pub frame: Option<Frame>,
    pub x: u8,
    pub y: u8,
    pub waiting: Option<Load>,
    pub inside: Option<SubList>,
}

/// The programs of a shader record.
#[derive(Clone, Copy, Debug, PartialEq, Eq)]
pub enum Program {
    Fragment,
    Vertex,
    Coordinate,
}

/// What a tile's list has: how many items, and the place of the last one.
#[derive(Clone, Copy, Debug, PartialEq, Eq)]
pub struct Spot {
    pub count: u32,
    pub last: u64,
}

/// An item of a tile's list, with its number in the list of all items.
#[derive(Clone, Copy, Debug, PartialEq, Eq)]
pub struct Found {
    pub number: u32,
    pub item: Item,
}
