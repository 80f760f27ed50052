//! Names.
ghost use Rattle.std.specs.Prelude.{◌≡◌};
ghost use Rattle.std.specs.List.{list_all};
ghost use Rattle.qpu_asm.specs.Lines.{is_name as name_test, is_name_byte};

/// Whether the bytes are a name: a letter, and then letters, digits or `_`.
#[tactic(auto, unfolding(crate::specs::Lines::is_name))]
pub fn is_name(bytes: &[u8]) -> bool
    ensures { result ≡ name_test bytes.now }
{
    match bytes.split_first() {
        None => false,
        Some((first, others)) => first.is_ascii_alphabetic() && are_name_bytes(others),
    }
}

#[tactic(auto, unfolding(crate::specs::Lines::is_name_byte))]
fn is_name_part(byte: u8) -> bool
    ensures { result ≡ is_name_byte byte }
{
    byte.is_ascii_alphabetic() || byte.is_ascii_digit() || byte == b'_'
}

fn are_name_bytes(bytes: &[u8]) -> bool
    ensures { result ≡ list_all is_name_byte bytes.now }
{
    bytes.iter().all(|byte| is_name_part(*byte))
}
