//! The names of the machine's units and of what they do to memory.

/// A unit of the machine.
#[derive(Clone, Copy, Debug, Default, PartialEq, Eq)]
pub enum Actor {
    /// The binner, which reads binner lists and writes tile memory.
    #[default]
    Binner,
    /// The renderer, which reads renderer lists and tile memory and writes surfaces.
    Renderer,
    /// The shader processor of this number, 0 to 11.
    Qpu(u8),
    /// The texture unit of this number, 0 or 1, that serves the shader processor named first.
    Tmu(u8, u8),
}

/// What an access does.
#[derive(Clone, Copy, Debug, Default, PartialEq, Eq)]
pub enum Way {
    /// Bytes are read.
    #[default]
    Read,
    /// Bytes are written.
    Write,
    /// The hardware's behaviour is not defined: anything may be touched.
    Wild,
}

/// One access of a unit to memory: `len` bytes from the byte address `place` on, on behalf of
/// the job of this number. An undefined access has place 0 and length 0.
#[derive(Clone, Copy, Debug, Default, PartialEq, Eq)]
pub struct Access {
    pub way: Way,
    pub place: u64,
    pub len: u32,
    pub unit: Actor,
    pub job: u8,
}
