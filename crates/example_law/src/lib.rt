//! Why no rule is broken by an example job, whatever its number.
//!
//! Each law is named by a function with an empty body, so that a call can cite it.
#![tactic(auto)]

ghost use Rattle.std.specs.Prelude.{◌≡◌, ℕ, List, None};
ghost use Rattle.job_format.specs.File.{IsFileOf};
ghost use Rattle.job_check.specs.Whole.{refusal_of};
ghost use Rattle.example_job.specs.Example.{file_of, example};
ghost use Rattle.example_law.specs.Laws.{IsInRange, IsFaultless};

/// A file that is made as examples are, of a frame of any such size with any such number of triangles, is within the limits of the
/// format, and no rule is broken by it: none on its memory, its shader, its handles, its binner list, its shader records, its surfaces
/// and its layout.
#[tactic(auto, using(crate::proofs::Whole::frame_faultless))]
pub fn frames_have_no_fault()
    ensures { (seed across down count : ℕ) → IsInRange across down count
        → IsFaultless (file_of seed across down count) }
{}

/// So the example of each number has no fault: a frame of 1 to 30 by 1 to 17 tiles, with 1 to 4,000 triangles.
#[tactic(auto, using(crate::proofs::Whole::example_faultless))]
pub fn examples_have_no_fault()
    ensures { (number : ℕ) → IsFaultless (example number) }
{}

/// And bytes that spell it are accepted.
#[tactic(auto, using(crate::proofs::Whole::example_accepted))]
pub fn examples_are_accepted()
    ensures { (number : ℕ) (bytes : List ℕ) → IsFileOf bytes (example number)
        → refusal_of bytes ≡ None }
{}
