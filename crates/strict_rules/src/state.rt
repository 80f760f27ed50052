//! What the walk over a shader carries.
use arrayvec::ArrayVec;

/// A request to a texture and memory unit (TMU) that no load has taken: the instruction that sent it, and the slots that it
/// takes.
#[derive(Clone, Copy, Debug, Default, PartialEq, Eq)]
pub struct Request {
    pub sent: u32,
    pub slots: u16,
}

/// A TMU before an instruction: how many setup words it keeps, and its requests that no load has taken, oldest first.
#[derive(Drop)]
pub struct Unit {
    pub pending: u16,
    pub queue: ArrayVec<Request, 4>,
}

/// Both TMUs, and where the last switch acted.
#[derive(Drop)]
pub struct Walked {
    pub unit0: Unit,
    pub unit1: Unit,
    pub acted: u32,
}
