//! The facts of refusals.

use buffer_table::Kind;

/// So many bytes are needed, and so many are there: F2, M5, A1, A2 and X1.
#[derive(Clone, Copy, Debug, PartialEq, Eq)]
pub struct RoomFact {
    pub needs: u64,
    pub has: u64,
}

/// An item of the memory table, which takes `size` bytes from `place` on: M2. Items are counted as in `TableFault`.
#[derive(Clone, Copy, Debug, PartialEq, Eq)]
pub struct ItemFact {
    pub item: u64,
    pub place: u64,
    pub size: u64,
}

/// An item of the memory table that ends past a memory of so many bytes: M3.
#[derive(Clone, Copy, Debug, PartialEq, Eq)]
pub struct PastFact {
    pub item: ItemFact,
    pub memory: u32,
}

/// An item of the memory table, and the first earlier one that has a byte of it: M4.
#[derive(Clone, Copy, Debug, PartialEq, Eq)]
pub struct PairFact {
    pub later: ItemFact,
    pub earlier: ItemFact,
}

/// A buffer by its number, its size in bytes, and its kind.
#[derive(Clone, Copy, Debug, PartialEq, Eq)]
pub struct BufferFact {
    pub number: u32,
    pub size: u32,
    pub kind: Kind,
}

/// A job of `client` names the buffer `number`, which is `owner`'s, or isn't in the file: H1.
#[derive(Clone, Copy, Debug, PartialEq, Eq)]
pub struct HandleFact {
    pub client: u32,
    pub number: u32,
    pub owner: Option<u32>,
}

/// So many indexes of 1 or 2 bytes, from `address` on in a buffer: B10.
#[derive(Clone, Copy, Debug, PartialEq, Eq)]
pub struct IndexFact {
    pub buffer: BufferFact,
    pub address: u32,
    pub count: u32,
    pub bytes: u32,
}

/// A job declares so many shader states, and its binner list has so many: B12.
#[derive(Clone, Copy, Debug, PartialEq, Eq)]
pub struct StateFact {
    pub declared: u32,
    pub states: u64,
}

/// The buffer of a fragment shader, whether its record's flags say that it is single-threaded, and whether it switches threads: A5.
#[derive(Clone, Copy, Debug, PartialEq, Eq)]
pub struct ThreadFact {
    pub buffer: u32,
    pub single: bool,
    pub threaded: bool,
}

/// A vertex's `length` bytes of an attribute, from `address` on in a buffer: A9.
#[derive(Clone, Copy, Debug, PartialEq, Eq)]
pub struct AttributeFact {
    pub buffer: BufferFact,
    pub address: u32,
    pub length: u32,
}

/// An attribute whose vertices are `stride` bytes apart, up to that of the greatest `index`: A10.
#[derive(Clone, Copy, Debug, PartialEq, Eq)]
pub struct VertexFact {
    pub attribute: AttributeFact,
    pub stride: u32,
    pub index: u64,
}

/// A record's fragment (0), vertex (1) or coordinate shader (2) takes so many bytes of uniforms, and so many are left: A8.
#[derive(Clone, Copy, Debug, PartialEq, Eq)]
pub struct UseFact {
    pub stage: u32,
    pub needs: u128,
    pub has: u64,
}

/// What lies in a buffer ends at this byte of it: U7, G10 and G12.
#[derive(Clone, Copy, Debug, PartialEq, Eq)]
pub struct EndFact {
    pub buffer: BufferFact,
    pub end: u64,
}

/// A handle by its index, how many the job has, and the buffer that it names: A3, A4 and G6.
#[derive(Clone, Copy, Debug, PartialEq, Eq)]
pub struct NameFact {
    pub index: u32,
    pub handles: u64,
    pub named: Option<BufferFact>,
}

/// The sides of a frame, of which one is over 4,096 pixels: G10.
#[derive(Clone, Copy, Debug, PartialEq, Eq)]
pub struct PixelsFact {
    pub width: u16,
    pub height: u16,
}

/// What the file says where a rule is broken.
#[derive(Clone, Copy, Debug, PartialEq, Eq)]
pub enum Facts {
    /// There is nothing to say beside the rule's sentence.
    Nothing,
    Room(RoomFact),
    Off(ItemFact),
    Past(PastFact),
    Pair(PairFact),
    Handle(HandleFact),
    Indexes(IndexFact),
    States(StateFact),
    Threads(ThreadFact),
    Attribute(AttributeFact),
    Vertex(VertexFact),
    Use(UseFact),
    Level(EndFact),
    Name(NameFact),
    Pixels(PixelsFact),
    Surface(EndFact),
    Tile(EndFact),
    Region(RoomFact),
}
