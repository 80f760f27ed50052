//! Instructions, registers, and what is known of a shader.

/// An ALU instruction by its fields, from the word's highest bits down: the two units' operations, conditions, write
/// addresses and operands. `sig` is below 14 in what `decode` gives.
#[derive(Clone, Copy, Debug, PartialEq, Eq)]
pub struct Alu {
    pub sig: u8,
    pub unpack: u8,
    pub pm: bool,
    pub pack: u8,
    pub cond_add: u8,
    pub cond_mul: u8,
    pub sf: bool,
    pub ws: bool,
    pub waddr_add: u8,
    pub waddr_mul: u8,
    pub op_mul: u8,
    pub op_add: u8,
    pub raddr_a: u8,
    pub raddr_b: u8,
    pub add_a: u8,
    pub add_b: u8,
    pub mul_a: u8,
    pub mul_b: u8,
}

/// A load of an immediate value (signal 14).
#[derive(Clone, Copy, Debug, PartialEq, Eq)]
pub struct LoadImm {
    pub mode: u8,
    pub pm: bool,
    pub pack: u8,
    pub cond_add: u8,
    pub cond_mul: u8,
    pub sf: bool,
    pub ws: bool,
    pub waddr_add: u8,
    pub waddr_mul: u8,
    pub imm: u32,
}

/// A branch (signal 15). Its `spare` bits mean nothing and are kept, so that each word is the encoding of what it decodes to.
#[derive(Clone, Copy, Debug, PartialEq, Eq)]
pub struct Branch {
    pub spare: u8,
    pub cond: u8,
    pub relative: bool,
    pub register: bool,
    pub raddr: u8,
    pub ws: bool,
    pub waddr_add: u8,
    pub waddr_mul: u8,
    pub imm: u32,
}

/// One instruction.
#[derive(Clone, Copy, Debug, PartialEq, Eq)]
pub enum Inst {
    Alu(Alu),
    LoadImm(LoadImm),
    Branch(Branch),
}

/// A register that a unit can write: A0 to A31, B0 to B31, or the accumulators r0 to r3.
#[derive(Clone, Copy, Debug, PartialEq, Eq)]
pub enum Reg {
    A(u8),
    B(u8),
    Acc(u8),
}

/// One texture or memory access of a shader: the numbers of the uniforms that its set-up words are, in order.
/// A direct access reads memory at addresses that the shader computed.
#[derive(Clone, Copy, Debug, PartialEq, Eq)]
pub struct Sample {
    pub p: [Option<u32>; 4],
    pub direct: bool,
}

/// What the checker found out about a shader: how many uniforms it takes, its accesses in program order, the numbers of
/// the uniforms that it writes as the uniforms' address, and whether it switches threads.
#[derive(Debug, PartialEq, Eq, Drop)]
pub struct ShaderInfo {
    pub uniforms: u32,
    pub samples: Vec<Sample>,
    pub address_words: Vec<u32>,
    pub threaded: bool,
}
