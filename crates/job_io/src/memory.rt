//! A source and a sink in memory, which fail at chosen calls.
ghost use Rattle.std.specs.Prelude.{◌≡◌, ◌-◌, ◌≤◌, ◌<◌, ◌↔◌, ◌⊎◌, [], length, drop, min, Contains, IfOk, OnOk, IsErr, OnErr, Some};
ghost use Rattle.std.specs.Io.KnownBytes.{ReadConsumes};
ghost use Rattle.job_io.specs.Faults.{Rose, count_after};
ghost use Rattle.job_io.specs.Traffic.{Writes};

use super::give::give;
use super::traffic::{Failed, Sink, Source};
use field_words::NoMemory;
use std::alloc::Global;
use std::marker::Model;

/// Bytes in memory, given in pieces. It fails exactly at the listed calls.
#[derive(Drop)]
pub struct MemSource {
    bytes: Vec<u8>,
    at: usize,
    piece: usize,
    failing: Vec<u64>,
    call: u64,
    faults: u64,
}

impl Model for MemSource {
    ghost use Rattle.std.specs.Prelude.{drop, ◌≤◌, vec_len};
    ghost use Rattle.job_io.specs.Traffic.{Supply};

    ghost Value = { Supply };

    ghost view = { λ s. record {
      left = drop s.at s.bytes.items;
      piece = s.piece;
      call = s.call;
      failing = s.failing.items;
      faults = s.faults;
    } };

    ghost invariant = { λ s. (s.at ≤ vec_len s.bytes) × (1 ≤ s.piece) };
}

impl MemSource {
    /// A source of these bytes that gives at most `piece` of them in a call and fails exactly at
    /// the calls whose numbers, from 0, are listed. It takes no memory.
    pub fn new(bytes: Vec<u8>, piece: usize, failing: Vec<u64>) -> MemSource
        requires { 1 ≤ piece }
        ensures { result ≡ record {
          left = bytes.items;
          piece = piece;
          call = 0;
          failing
              = failing.items;
          faults = 0;
        } }
    {
        MemSource {
            bytes,
            at: 0,
            piece,
            failing,
            call: 0,
            faults: 0,
        }
    }
}

impl Source for MemSource {
    ghost left = { λ s. Some s.left };

    ghost faults = { λ s. s.faults };

    /// Gives the least of the piece, the room in `buf` and what is left. It takes no memory.
    fn read(&mut self, buf: &mut [u8]) -> Result<usize, Failed>
        ensures within { IfOk result (λ n. n ≤ length buf.new) }
        ensures bytes { ReadConsumes (Some self.old.left) (Some self.new.left) result buf.new }
        ensures failed { OnErr result (Rose self.old.faults self.new.faults) }
        ensures steady { OnOk result (self.new.faults ≡ self.old.faults) }
        ensures counted { self.old.faults ≤ self.new.faults }

        ensures fails { IsErr result ↔ Contains self.old.failing self.old.call }
        ensures count { IfOk result (λ n. n
            ≡ min self.old.piece (min (length buf.new) (length self.old.left))) }
        ensures err { OnErr result (self.new
            ≡ record self.old {
              call = count_after self.old.call;
              faults = count_after
                  self.old.faults;
            }) }
        ensures ok { IfOk result (λ n. self.new
            ≡ record self.old { call = count_after self.old.call; left = drop n self.old.left }) }
    {
        let failed = self.failing.contains(&self.call);
        self.call = self.call.saturating_add(1);
        if failed {
            self.faults = self.faults.saturating_add(1);
            return Err(Failed);
        }
        let count = give(&self.bytes, self.at, self.piece, buf);
        self.at += count;
        Ok(count)
    }
}

/// Keeps the bytes that it takes, in room that it took when it was made. It fails exactly at the
/// listed calls, and where the piece has no room.
#[derive(Drop)]
pub struct MemSink {
    bytes: Vec<u8>,
    room: usize,
    piece: usize,
    failing: Vec<u64>,
    call: u64,
    faults: u64,
}

impl Model for MemSink {
    ghost use Rattle.std.specs.Prelude.{◌-◌, ◌≤◌, vec_len, vec_capacity};
    ghost use Rattle.job_io.specs.Traffic.{Tray};

    ghost Value = { Tray };

    ghost view = { λ s. record {
      held = s.bytes.items;
      room = s.room - vec_len s.bytes;
      piece = s.piece;
      call = s.call;
      failing = s.failing.items;
      faults = s.faults;
    } };

    ghost invariant = { λ s. (vec_len s.bytes ≤ s.room) × (s.room ≤ vec_capacity s.bytes) × (1 ≤ s.piece) };
}

impl MemSink {
    /// An empty sink that takes at most `piece` bytes in a call and `room` bytes in all, and fails
    /// at the calls whose numbers, from 0, are listed. It takes the memory for `room` bytes here.
    pub fn new(
        alloc: Global,
        piece: usize,
        room: usize,
        failing: Vec<u64>,
    ) -> Result<MemSink, NoMemory>
        requires { 1 ≤ piece }
        ensures { IfOk result (λ s. s
            ≡ record {
              held = [];
              room = room;
              piece = piece;
              call = 0;
              failing = failing.items;
              faults = 0;
            }) }
    {
        let bytes = Vec::with_capacity(alloc, room)?;
        Ok(MemSink {
            bytes,
            room,
            piece,
            failing,
            call: 0,
            faults: 0,
        })
    }

    /// The bytes that it holds.
    pub fn bytes(&self) -> &[u8]
        ensures { result.now ≡ self.now.held }
    {
        &self.bytes
    }
}

impl Sink for MemSink {
    ghost held = { λ s. Some s.held };

    ghost faults = { λ s. s.faults };

    /// Appends as many bytes as the smaller of the piece and the part's length. It takes no memory.
    fn write(&mut self, part: &[u8]) -> Result<usize, Failed>
        ensures within { IfOk result (λ n. n ≤ length part.now) }
        ensures some { IfOk result (λ n. 0 < length part.now → 0 < n) }
        ensures bytes { Writes (Some self.old.held) (Some self.new.held) result part.now }
        ensures failed { OnErr result (Rose self.old.faults self.new.faults) }
        ensures steady { OnOk result (self.new.faults ≡ self.old.faults) }
        ensures counted { self.old.faults ≤ self.new.faults }

        ensures fails { IsErr result
            ↔ (Contains self.old.failing self.old.call
            ⊎ (self.old.room < min self.old.piece (length part.now))) }
        ensures count { IfOk result (λ n. n ≡ min self.old.piece (length part.now)) }
        ensures err { OnErr result (self.new
            ≡ record self.old {
              call = count_after self.old.call;
              faults = count_after
                  self.old.faults;
            }) }
        ensures room { IfOk result (λ n. self.new.room ≡ self.old.room - n) }
        ensures ok { OnOk result (self.new
            ≡ record self.old {
              call = count_after self.old.call;
              held = self.new.held;
              room
                  = self.new.room;
            }) }
    {
        let listed = self.failing.contains(&self.call);
        let count = self.piece.min(part.len());
        let full = self.room - self.bytes.len() < count;
        self.call = self.call.saturating_add(1);
        if listed || full {
            self.faults = self.faults.saturating_add(1);
            return Err(Failed);
        }
        self.bytes.extend_from_slice(&part[..count]).unwrap();
        Ok(count)
    }
}
