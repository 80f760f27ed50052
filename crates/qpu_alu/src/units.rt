//! The add unit and the multiply unit.
ghost use Rattle.std.specs.Prelude.{◌≡◌, ◌<◌};
ghost use Rattle.qpu_alu.specs.Operation.{signed_min, signed_max, shifted_signed, product_of, add_result_of, mul_result_of};

use crate::bytes::{ByteOperation, by_bytes};

// Both units' operation 0.
const NOP: u8 = 0;

// The add unit's operations with a result of the operands alone.
const ADD: u8 = 12;

const SUB: u8 = 13;

const SHR: u8 = 14;

const ASR: u8 = 15;

const ROR: u8 = 16;

const SHL: u8 = 17;

const MIN: u8 = 18;

const MAX: u8 = 19;

const AND: u8 = 20;

const OR: u8 = 21;

const XOR: u8 = 22;

const NOT: u8 = 23;

const CLZ: u8 = 24;

const V8ADDS: u8 = 30;

const V8SUBS: u8 = 31;

// The multiply unit's.
const MUL24: u8 = 2;

const V8MIN: u8 = 4;

const V8MAX: u8 = 5;

const MUL_V8ADDS: u8 = 6;

const MUL_V8SUBS: u8 = 7;

/// The lesser of two signed numbers.
#[tactic(auto, unfolding(crate::specs::Operation::signed_min))]
fn signed_min(a: u32, b: u32) -> u32
    ensures { result ≡ signed_min a b }
{
    a.cast_signed().min(b.cast_signed()).cast_unsigned()
}

/// The greater of two signed numbers.
#[tactic(auto, unfolding(crate::specs::Operation::signed_max))]
fn signed_max(a: u32, b: u32) -> u32
    ensures { result ≡ signed_max a b }
{
    a.cast_signed().max(b.cast_signed()).cast_unsigned()
}

/// The shift to the right that fills with the sign.
#[tactic(auto, unfolding(crate::specs::Operation::shifted_signed))]
fn shifted_signed(a: u32, b: u32) -> u32
    ensures { result ≡ shifted_signed a b }
{
    (a.cast_signed() >> (b % 32)).cast_unsigned()
}

/// The low 32 bits of the product of the low 24 bits.
#[tactic(auto, unfolding(crate::specs::Operation::product_of))]
fn product(a: u32, b: u32) -> u32
    ensures { result ≡ product_of a b }
{
    let whole = u64::from(a % (1 << 24)) * u64::from(b % (1 << 24));
    (whole % (1 << 32)) as u32
}

/// What the add unit's operation `op`, a field of five bits, makes of its operands. `None` comes
/// exactly where the result is free: at the float operations 1 to 8, and where `op` has no name.
#[tactic(auto, unfolding(crate::specs::Operation::add_result_of, crate::specs::Operation::shifted_left, crate::specs::Operation::shifted_right, crate::specs::Operation::rotated_word))]
pub fn add_result(op: u8, a: u32, b: u32) -> Option<u32>
    requires { op < 32 }
    ensures { result ≡ add_result_of op a b }
{
    match op {
        NOP => Some(0),
        ADD => Some(a.wrapping_add(b)),
        SUB => Some(a.wrapping_sub(b)),
        SHR => Some(a.wrapping_shr(b)),
        ASR => Some(shifted_signed(a, b)),
        ROR => Some(a.rotate_right(b)),
        SHL => Some(a.wrapping_shl(b)),
        MIN => Some(signed_min(a, b)),
        MAX => Some(signed_max(a, b)),
        AND => Some(a & b),
        OR => Some(a | b),
        XOR => Some(a ^ b),
        NOT => Some(!a),
        CLZ => Some(a.leading_zeros()),
        V8ADDS => Some(by_bytes(ByteOperation::Add, a, b)),
        V8SUBS => Some(by_bytes(ByteOperation::Subtract, a, b)),
        _ => None,
    }
}

/// What the multiply unit's operation `op`, a field of three bits, makes of its operands. `None`
/// comes exactly where the result is free: at 1 and 3, which multiply floats and bytes as fractions.
#[tactic(auto, unfolding(crate::specs::Operation::mul_result_of))]
pub fn mul_result(op: u8, a: u32, b: u32) -> Option<u32>
    requires { op < 8 }
    ensures { result ≡ mul_result_of op a b }
{
    match op {
        NOP => Some(0),
        MUL24 => Some(product(a, b)),
        V8MIN => Some(by_bytes(ByteOperation::Least, a, b)),
        V8MAX => Some(by_bytes(ByteOperation::Greatest, a, b)),
        MUL_V8ADDS => Some(by_bytes(ByteOperation::Add, a, b)),
        MUL_V8SUBS => Some(by_bytes(ByteOperation::Subtract, a, b)),
        _ => None,
    }
}
