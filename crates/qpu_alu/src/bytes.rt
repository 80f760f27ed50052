//! Operations on the four bytes of a word, each for itself.
ghost use Rattle.std.specs.Prelude.{◌≡◌};
ghost use Rattle.qpu_alu.specs.Operation.{byte_of, by_bytes};

/// An operation on two unsigned bytes.
#[derive(Clone, Copy)]
pub enum ByteOperation {
    /// The sum, at most 255.
    Add,
    /// The difference, at least 0.
    Subtract,
    /// The lesser.
    Least,
    /// The greater.
    Greatest,
}

fn byte(operation: ByteOperation, x: u8, y: u8) -> u8
    ensures { result ≡ byte_of operation x y }
{
    match operation {
        ByteOperation::Add => x.saturating_add(y),
        ByteOperation::Subtract => x.saturating_sub(y),
        ByteOperation::Least => x.min(y),
        ByteOperation::Greatest => x.max(y),
    }
}

/// The operation on each byte of `a` and the byte of `b` at the same place.
#[tactic(auto, unfolding(crate::specs::Operation::by_bytes))]
pub fn by_bytes(operation: ByteOperation, a: u32, b: u32) -> u32
    ensures { result ≡ by_bytes operation a b }
{
    let x = a.to_le_bytes();
    let y = b.to_le_bytes();
    u32::from_le_bytes([
        byte(operation, x[0], y[0]),
        byte(operation, x[1], y[1]),
        byte(operation, x[2], y[2]),
        byte(operation, x[3], y[3]),
    ])
}
