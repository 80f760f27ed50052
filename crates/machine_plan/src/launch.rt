//! Programs that a list unit starts, and where they could start.

/// One of the two threads of a shader processor.
#[derive(Clone, Copy, Debug, PartialEq, Eq)]
pub struct Slot {
    pub qpu: u8,
    pub second: bool,
}

/// Where a threaded program would start and where any other would, if it could now. A list unit asks
/// this before it starts a program.
#[derive(Clone, Copy, Debug, PartialEq, Eq)]
pub struct Free {
    pub threaded: Option<Slot>,
    pub plain: Option<Slot>,
}

/// A program that is started: whether it is threaded, and the places of its code and its uniforms.
#[derive(Clone, Copy, Debug, PartialEq, Eq)]
pub struct Launch {
    pub threaded: bool,
    pub code: u32,
    pub uniforms: u32,
}
