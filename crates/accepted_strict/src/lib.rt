//! That the jobs of a file that breaks no rule, and no strict one, do nothing that the hardware's guide forbids.
//!
//! The crate has laws on definitions alone. What the guide forbids is `IsForbidden` of `strict_law`; which files are strict is said by the
//! questions that `check --strict` asks.
#![tactic(auto)]

ghost use Rattle.accepted_strict.specs.Files.{StrictFilesObey, StrictBytesObey};
ghost use Rattle.accepted_strict.specs.Drivers.{StrictDriversObey};

/// In each run of the jobs of such a file, from every memory that has their emitted lists and their code, whichever unit steps next,
/// whatever words answer, and whatever others write beside lists and code: no event is forbidden, each load takes the oldest request, no
/// thread uses what belongs to programs of another kind, and each processor's requests have room in its slots.
#[tactic(auto, using(crate::proofs::Files::strict_files_obey_law))]
pub fn strict_files_obey()
    ensures { StrictFilesObey }
{}

/// So it is of the file that any bytes hold which break no rule and no strict one.
#[tactic(auto, using(crate::proofs::Files::strict_bytes_obey_law))]
pub fn strict_bytes_obey()
    ensures { StrictBytesObey }
{}

/// So it is of a machine whose driver hands in jobs of such files alone, whatever happens.
#[tactic(auto, using(crate::proofs::Drivers::strict_drivers_obey_law))]
pub fn strict_drivers_obey()
    ensures { StrictDriversObey }
{}
