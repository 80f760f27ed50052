//! The words of a kind of unit and of seeds.
ghost use Rattle.std.specs.Prelude.{◌≡◌, ◌<◌, IfSome};
ghost use Rattle.commands.specs.Trials.{unit_named, range_of, behind_dot, seeds_named, IsRangeWithin};

use replay::UnitKind;
use script::{cut_at, read_number};

/// The most seeds of a trial.
pub const MOST_SEEDS: u64 = 1000;

/// So many seeds, from the first on.
#[derive(Clone, Copy, Debug, PartialEq, Eq)]
pub struct SeedRange {
    pub first: u64,
    pub count: u32,
}

/// The kind of unit that a word names.
pub fn unit_named(word: &str) -> Option<UnitKind>
    ensures { result ≡ unit_named word.now }
{
    match word {
        "qpu" => Some(UnitKind::Qpu),
        "texture" => Some(UnitKind::Tmu),
        "binner" => Some(UnitKind::Binner),
        "renderer" => Some(UnitKind::Renderer),
        _ => None,
    }
}

// The seeds from one to before another.
fn range_of(first: u64, past: u64) -> Option<SeedRange>
    ensures value { result ≡ range_of first past }
    ensures within { IfSome result IsRangeWithin }
{
    if first < past && past - first <= MOST_SEEDS {
        return Some(SeedRange {
            first,
            count: (past - first) as u32,
        });
    }
    None
}

// The number behind a dot.
fn behind_dot(bytes: &[u8]) -> Option<u64>
    ensures value { result ≡ behind_dot bytes.now }
{
    match bytes {
        [b'.', rest @ ..] => read_number(rest, u64::MAX),
        _ => None,
    }
}

/// The seeds that a word names, as `3..7`.
#[tactic(auto, unfolding(crate::specs::Trials::seeds_named))]
pub fn seeds_named(word: &str) -> Option<SeedRange>
    ensures value { result ≡ seeds_named word.now }
    ensures within { IfSome result IsRangeWithin }
{
    let cut = cut_at(word.as_bytes(), b'.');
    let first = read_number(cut.first, u64::MAX)?;
    let past = behind_dot(cut.rest)?;
    range_of(first, past)
}
