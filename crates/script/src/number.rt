//! Numbers as words.
ghost use Rattle.std.specs.Prelude.{◌≡◌, ◌≤◌, ◌<◌, ◌^◌, true, min, IfSome};
ghost use Rattle.std.specs.Str.{all_ascii_digits};
ghost use Rattle.script.specs.Number.{number_of, number_within, is_number as number_test};

#[tactic(auto, using(crate::proofs::Digits::all_digits_more, crate::proofs::Digits::all_digits_fail))]
fn are_digits(word: &[u8]) -> bool
    ensures { result ≡ all_ascii_digits word.now }
{
    for byte in word {
        if !byte.is_ascii_digit() {
            return false;
        }
    }
    true
}

/// Whether the word is a number: decimal digits without sign and leading zero, `0` being itself. It takes no memory.
#[tactic(auto, unfolding(crate::specs::Number::is_number))]
pub fn is_number(word: &[u8]) -> bool
    ensures { result ≡ number_test word.now }
{
    match word {
        [] => false,
        [b'0', _, ..] => false,
        _ => are_digits(word),
    }
}

/// The number that digits write, or `limit` where it is larger. It takes no memory.
pub fn number_up_to(digits: &[u8], limit: u128) -> u128
    requires digits { all_ascii_digits digits.now ≡ true }
    requires small { limit ≤ 2 ^ 64 }
    ensures { result ≡ min (number_of digits.now) limit }
{
    let mut number = 0;
    for digit in digits {
        number = (10 * number + (*digit - b'0') as u128).min(limit);
    }
    number
}

/// The number that the word is, if it is one (`is_number`). `None` comes exactly where it is none, or one over `most`. It takes no
/// memory.
#[tactic(auto, unfolding(crate::specs::Number::number_within), using(crate::proofs::Digits::number_digits))]
pub fn read_number(word: &[u8], most: u64) -> Option<u64>
    ensures number { result ≡ number_within most word.now }
    ensures most { IfSome result (λ number. number ≤ most) }
{
    if !is_number(word) {
        return None;
    }
    let number = number_up_to(word, u128::from(most) + 1);
    if number <= u128::from(most) {
        Some(number as u64)
    } else {
        None
    }
}
