//! A sink in memory that grows.
ghost use Rattle.std.specs.Prelude.{◌≡◌, ◌≤◌, ◌<◌, [], length, IfOk, OnOk, OnErr, Some};
ghost use Rattle.job_io.specs.Faults.{Rose, count_after};
ghost use Rattle.job_io.specs.Traffic.{Writes};

use job_io::{Failed, Sink};
use std::alloc::Global;
use std::marker::Model;

/// Keeps all bytes that it takes. It fails where memory runs out.
#[derive(Drop)]
pub(crate) struct KeptSink {
    bytes: Vec<u8>,
    faults: u64,
}

impl Model for KeptSink {
    ghost use Rattle.vc4check_web.specs.Kept.{Kept};

    ghost Value = { Kept };

    ghost view = { λ s. record { held = s.bytes.items; faults = s.faults } };
}

impl KeptSink {
    /// A sink of no bytes so far. It takes no memory.
    pub(crate) fn new(alloc: Global) -> KeptSink
        ensures { result ≡ record { held = []; faults = 0 } }
    {
        KeptSink {
            bytes: Vec::new(alloc),
            faults: 0,
        }
    }

    /// The bytes that it took.
    pub(crate) fn into_bytes(self) -> Vec<u8>
        ensures { result.items ≡ self.held }
    {
        self.bytes
    }
}

impl Sink for KeptSink {
    ghost held = { λ s. Some s.held };

    ghost faults = { λ s. s.faults };

    /// Appends the whole part.
    fn write(&mut self, part: &[u8]) -> Result<usize, Failed>
        ensures within { IfOk result (λ n. n ≤ length part.now) }
        ensures some { IfOk result (λ n. 0 < length part.now → 0 < n) }
        ensures bytes { Writes (Some self.old.held) (Some self.new.held) result part.now }
        ensures failed { OnErr result (Rose self.old.faults self.new.faults) }
        ensures steady { OnOk result (self.new.faults ≡ self.old.faults) }
        ensures counted { self.old.faults ≤ self.new.faults }

        ensures count { IfOk result (λ n. n ≡ length part.now) }
        ensures err { OnErr result (self.new
            ≡ record self.old { faults = count_after self.old.faults }) }
    {
        match self.bytes.extend_from_slice(part) {
            Ok(()) => Ok(part.len()),
            Err(_) => {
                self.faults = self.faults.saturating_add(1);
                Err(Failed)
            }
        }
    }
}
