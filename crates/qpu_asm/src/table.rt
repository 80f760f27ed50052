//! The kinds of instructions, their items, and the names of values.

/// A value's name.
#[derive(Clone, Copy)]
pub struct Named {
    pub name: &'static [u8],
    pub value: u64,
}

/// A field of a word as an item of a line: what it is called, how many bits it has, below what its value lies, and its
/// value where the item is missing. The branch's immediate can be written as a label too.
#[derive(Clone, Copy)]
pub struct Row {
    pub name: &'static [u8],
    pub width: u32,
    pub below: u64,
    pub fallback: u64,
    pub named: &'static [Named],
    pub takes_label: bool,
}

/// A kind of instruction: its first word, what stands above its fields, and the fields from the highest down.
#[derive(Clone, Copy)]
pub struct Kind {
    pub opcode: &'static [u8],
    pub above: u64,
    pub rows: &'static [Row],
}

/// The word of an ALU instruction of all defaults.
pub const NOP: u64 = 0x1000_09e7_009e_7000;

// A value's name.
macro_rules! named {
    ($name:literal, $value:literal) => {
        Named {
            name: $name,
            value: $value,
        }
    };
}

// A field whose values are all numbers of that many bits.
macro_rules! bits {
    ($name:literal, $width:literal, $fallback:literal) => {
        Row {
            name: $name,
            width: $width,
            below: 1 << $width,
            fallback: $fallback,
            named: &[],
            takes_label: false,
        }
    };
}

const ADD_OPERATIONS: [Named; 24] = [
    named!(b"nop", 0),
    named!(b"fadd", 1),
    named!(b"fsub", 2),
    named!(b"fmin", 3),
    named!(b"fmax", 4),
    named!(b"fminabs", 5),
    named!(b"fmaxabs", 6),
    named!(b"ftoi", 7),
    named!(b"itof", 8),
    named!(b"add", 12),
    named!(b"sub", 13),
    named!(b"shr", 14),
    named!(b"asr", 15),
    named!(b"ror", 16),
    named!(b"shl", 17),
    named!(b"min", 18),
    named!(b"max", 19),
    named!(b"and", 20),
    named!(b"or", 21),
    named!(b"xor", 22),
    named!(b"not", 23),
    named!(b"clz", 24),
    named!(b"v8adds", 30),
    named!(b"v8subs", 31),
];

const MULTIPLY_OPERATIONS: [Named; 8] = [
    named!(b"nop", 0),
    named!(b"fmul", 1),
    named!(b"mul24", 2),
    named!(b"v8muld", 3),
    named!(b"v8min", 4),
    named!(b"v8max", 5),
    named!(b"v8adds", 6),
    named!(b"v8subs", 7),
];

pub const ALU: [Row; 18] = [
    Row {
        name: b"sig",
        width: 4,
        below: 14,
        fallback: 1,
        named: &[],
        takes_label: false,
    },
    bits!(b"unpack", 3, 0),
    bits!(b"pm", 1, 0),
    bits!(b"pack", 4, 0),
    bits!(b"ca", 3, 0),
    bits!(b"cm", 3, 0),
    bits!(b"sf", 1, 0),
    bits!(b"ws", 1, 0),
    bits!(b"wa", 6, 39),
    bits!(b"wm", 6, 39),
    Row {
        name: b"om",
        width: 3,
        below: 8,
        fallback: 0,
        named: &MULTIPLY_OPERATIONS,
        takes_label: false,
    },
    Row {
        name: b"oa",
        width: 5,
        below: 32,
        fallback: 0,
        named: &ADD_OPERATIONS,
        takes_label: false,
    },
    bits!(b"ra", 6, 39),
    bits!(b"rb", 6, 39),
    bits!(b"aa", 3, 0),
    bits!(b"ab", 3, 0),
    bits!(b"ma", 3, 0),
    bits!(b"mb", 3, 0),
];

pub const LOAD_IMM: [Row; 10] = [
    bits!(b"mode", 3, 0),
    bits!(b"pm", 1, 0),
    bits!(b"pack", 4, 0),
    bits!(b"ca", 3, 0),
    bits!(b"cm", 3, 0),
    bits!(b"sf", 1, 0),
    bits!(b"ws", 1, 0),
    bits!(b"wa", 6, 39),
    bits!(b"wm", 6, 39),
    bits!(b"imm", 32, 0),
];

pub const BRANCH: [Row; 9] = [
    bits!(b"sp", 4, 0),
    bits!(b"cond", 4, 15),
    bits!(b"rel", 1, 1),
    bits!(b"reg", 1, 0),
    bits!(b"ra", 5, 0),
    bits!(b"ws", 1, 0),
    bits!(b"wa", 6, 39),
    bits!(b"wm", 6, 39),
    Row {
        name: b"imm",
        width: 32,
        below: 1 << 32,
        fallback: 0,
        named: &[],
        takes_label: true,
    },
];

pub const NOP_KIND: Kind = Kind {
    opcode: b"nop",
    above: NOP,
    rows: &[],
};

pub const ALU_KIND: Kind = Kind {
    opcode: b"alu",
    above: 0,
    rows: &ALU,
};

pub const LOAD_IMM_KIND: Kind = Kind {
    opcode: b"li",
    above: 14,
    rows: &LOAD_IMM,
};

pub const BRANCH_KIND: Kind = Kind {
    opcode: b"br",
    above: 15,
    rows: &BRANCH,
};
