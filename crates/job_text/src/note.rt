//! What the bytes of a line are.

/// A field of the header, of an entry, of a packet or of a shader record.
#[derive(Clone, Copy, Debug, PartialEq, Eq)]
pub enum Field {
    /// One of this name and so many bytes, whose number means itself.
    Plain(&'static str, usize),
    /// One of this name and four bytes, which is read in hexadecimal too.
    Word(&'static str),
    Kind,
    Flags,
    Width,
    Height,
    HandleIndex,
    FrameBits,
    GeneralBits,
    SurfaceFlags,
    PrimitiveMode,
    IndexMode,
    Length,
    FirstIndex,
    MaxIndex,
    ListFormat,
    StateWord,
    ConfigurationBits,
    FlatFlags,
    PointWidth,
    Boundary,
    DepthFactor,
    DepthUnits,
    ClipLeft,
    ClipBottom,
    CenterX,
    CenterY,
    ScaleX,
    ScaleY,
    ScaleZ,
    OffsetZ,
    ListsAddress,
    ListsBytes,
    StatesAddress,
    TilesAcross,
    TilesDown,
    BinnerFlags,
    IndexHandle,
    FurtherHandle,
    RecordFlags,
    Address,
}

/// What a frame does with a surface.
#[derive(Clone, Copy, Debug, PartialEq, Eq)]
pub enum Role {
    ColorRead,
    ColorWrite,
    ZsRead,
    ZsWrite,
    SampleColorWrite,
    SampleZsWrite,
}

/// Which shader of a record.
#[derive(Clone, Copy, Debug, PartialEq, Eq)]
pub enum Stage {
    Fragment,
    Vertex,
    Coordinate,
}

/// The shaders of a record, in its order.
pub(crate) const STAGES: [Stage; 3] = [Stage::Fragment, Stage::Vertex, Stage::Coordinate];

/// The part of the file that a field belongs to: the header, the entry of the buffer or of the job of a number, a surface in
/// the entry of a job, or in a job's records the record of a number, its shader, or its attribute of a number.
#[derive(Clone, Copy, Debug, PartialEq, Eq)]
pub enum Part {
    Header,
    Buffer(u32),
    Job(u32),
    Surface(u32, Role),
    Record(u32, usize),
    Shader(u32, usize, Stage),
    Attribute(u32, usize, usize),
}

/// What a shader makes of a word of its uniforms. The first number counts the shader's samples.
#[derive(Clone, Copy, Debug, PartialEq, Eq)]
pub enum Meaning {
    /// A number that instructions read.
    Plain,
    /// The address of the uniforms, which the emission writes.
    Stream,
    /// The handle of the buffer that a sample reads, and that buffer.
    Source(u32, Option<usize>),
    /// The address that a direct sample adds to.
    Address(u32),
    /// The bound of that address.
    Bound(u32),
    /// A set-up word of a texture, by its number of the four.
    Setup(u32, u8, [u32; 4]),
}

/// What some bytes are. The first number is that of the job, or of the buffer for `Data` and `Instruction`; the second
/// counts handles, uniforms and instructions. The buffer that a handle names stands last, and the uniform that an instruction
/// takes. A surface's bits have the frame's width and height, and a uniform the record, the shader, its number among those that the
/// shader's instructions take, if it is one of them, and what the shader makes of it, where these are known.
#[derive(Clone, Copy, Debug, PartialEq, Eq)]
pub enum Note {
    Number(Part, Field),
    Named(Part, Field, Option<usize>),
    Sized(Part, Field, u16, u16),
    Handle(u32, usize),
    Packet(u32, Option<usize>),
    BehindHalt(u32),
    Records(u32),
    Uniform(u32, usize),
    Taken(u32, usize, usize, Stage, Option<usize>, Meaning),
    Data(u32),
    Instruction(u32, usize, Option<usize>),
    Unread,
}

/// So many bytes, and what they are.
#[derive(Clone, Copy, Debug, PartialEq, Eq)]
pub struct Piece {
    pub size: usize,
    pub note: Note,
}

/// A part of a file: a line of some bytes, or the code of the buffer of a number, so many bytes, with a line for each instruction.
#[derive(Clone, Copy)]
pub enum Cut {
    Line(Piece),
    Code(u32, usize),
}

impl Cut {
    /// How many bytes it is.
    pub fn size(&self) -> usize {
        match self {
            Cut::Line(piece) => piece.size,
            Cut::Code(_, size) => *size,
        }
    }
}
