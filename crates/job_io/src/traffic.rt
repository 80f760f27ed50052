//! What a source and a sink are.
ghost use Rattle.std.specs.Prelude.{◌≡◌, ◌≤◌, ◌<◌, ℕ, List, Option, length, IfOk, OnOk, OnErr};
ghost use Rattle.std.specs.Io.KnownBytes.{ReadConsumes};
ghost use Rattle.job_io.specs.Faults.{Rose};
ghost use Rattle.job_io.specs.Traffic.{Writes};

use thiserror::Error;

/// The failure of one call of a source or a sink.
#[derive(Clone, Copy, Debug, PartialEq, Eq, Error)]
#[error("a call of the source or sink failed")]
pub struct Failed;

/// Gives bytes, a piece at a time.
pub trait Source {
    /// The bytes still to come, where the source tells them.
    ghost left: { Self → Option (List ℕ) };

    /// How often it failed. It never falls.
    ghost faults: { Self → ℕ };

    /// Puts some of the bytes still to come into the front of `buf`, and says how many. Nothing
    /// else of `buf` means anything after the call. None at all, where `buf` has room, is the end
    /// of input. A failure takes no byte and raises the count; any other call leaves the count.
    fn read(&mut self, buf: &mut [u8]) -> Result<usize, Failed>
        ensures within { IfOk result (λ n. n ≤ length buf.new) }
        ensures bytes { ReadConsumes (left self.old) (left self.new) result buf.new }
        ensures failed { OnErr result (Rose (faults self.old) (faults self.new)) }
        ensures steady { OnOk result (faults self.new ≡ faults self.old) }
        ensures counted { faults self.old ≤ faults self.new };
}

/// Takes bytes, a piece at a time.
pub trait Sink {
    /// The bytes taken, where the sink tells them. From a failure on it may tell them no more.
    ghost held: { Self → Option (List ℕ) };

    /// How often it failed. It never falls.
    ghost faults: { Self → ℕ };

    /// Appends some bytes from the front of `part`, and says how many: at least one, where `part`
    /// has any. A failure appends nothing and raises the count; any other call leaves the count.
    fn write(&mut self, part: &[u8]) -> Result<usize, Failed>
        ensures within { IfOk result (λ n. n ≤ length part.now) }
        ensures some { IfOk result (λ n. 0 < length part.now → 0 < n) }
        ensures bytes { Writes (held self.old) (held self.new) result part.now }
        ensures failed { OnErr result (Rose (faults self.old) (faults self.new)) }
        ensures steady { OnOk result (faults self.new ≡ faults self.old) }
        ensures counted { faults self.old ≤ faults self.new };
}
