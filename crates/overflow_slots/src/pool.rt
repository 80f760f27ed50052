//! The book of the slots.
ghost use Rattle.std.specs.Prelude.{◌≡◌, ◌≤◌, ◌<◌, ◌+◌, ◌*◌, IsErr};
ghost use Rattle.overflow_slots.specs.Desk.{Agrees, Answers, free_slot, with_slot as slot_kept};
ghost use Rattle.overflow_slots.specs.SlotRun.{start, front as front_of, has_room as room, slot_answer, begin_answer, take_answer, overflow_answer, end_answer};
ghost use Rattle.overflow_slots.specs.declared.call.Call.TheVariants.{Begin, Take, Overflow, End};

use super::slots::{free_all, free_count, least_free};
use field_words::{SLOT_SIZE, round_up};
use std::marker::Model;
use tile_memory::{alloc_offset, slot_fits};

/// The bytes of a block, and of a tile list's first block.
const BLOCK: u32 = 128;

const TILE_BLOCK: u32 = 32;

/// 128 bytes of a slot; they begin at this offset in it.
#[derive(Clone, Copy, Debug, PartialEq, Eq)]
pub struct Block {
    pub slot: u32,
    pub at: u32,
}

/// Slots of tile memory, and the jobs that hold them. Jobs have the numbers 0 to 31.
#[derive(Drop)]
pub struct Pool {
    slots: u32,
    owners: [u8; 32],
    newest: [u8; 32],
    used: [u32; 32],
}

impl Model for Pool {
    ghost use Rattle.std.specs.Prelude.{◌≤◌};
    ghost use Rattle.overflow_slots.specs.Desk.{Desk};

    ghost Value = { Desk };

    ghost view = { λ p. record { slots = p.slots; owners = p.owners; newest = p.newest; used = p.used } };

    ghost invariant = { λ p. p.slots ≤ 32 };
}

// The bytes at a slot's front that no block may use.
#[tactic(auto, unfolding(crate::specs::SlotRun::front))]
fn front(tiles: u32) -> u32
    requires { tiles ≤ 65025 }
    ensures { result ≡ front_of tiles }
{
    alloc_offset(tiles) + round_up(u64::from(TILE_BLOCK * tiles), u64::from(BLOCK)) as u32
}

fn has_room(used: u32) -> bool
    ensures { result ≡ room used }
{
    u64::from(used) + u64::from(BLOCK) <= u64::from(SLOT_SIZE)
}

impl Pool {
    /// A pool of this many slots, all free.
    pub fn new(slots: u32) -> Pool
        requires some { 1 ≤ slots }
        requires few { slots ≤ 32 }
        ensures { Agrees (start slots) result }
    {
        Pool {
            slots,
            owners: [0; 32],
            newest: [0; 32],
            used: [0; 32],
        }
    }

    // The least free slot becomes the job's newest, with this many bytes used.
    fn give(&mut self, job: u8, used: u32) -> Result<u32, u8>
        requires { job < 32 }
        ensures answer { result ≡ slot_answer (free_slot self.old) }
        ensures kept { self.new ≡ slot_kept self.old job used (free_slot self.old) }
    {
        match least_free(&self.owners, self.slots) {
            None => Err(3),
            Some(slot) => {
                self.owners[slot as usize] = job + 1;
                self.newest[job as usize] = slot as u8 + 1;
                self.used[job as usize] = used;
                Ok(slot)
            }
        }
    }

    /// Begins a job of so many tiles: it gets the least free slot, whose front its tiles' states and first blocks take. Refused
    /// are, in this order: with 1 a job that is running; with 6 one without tiles, or with more than a slot has room for; with 3
    /// one for which no slot is free. A refusal changes nothing.
    pub fn begin(&mut self, job: u8, tiles: u32) -> Result<u32, u8>
        requires job { job < 32 }
        requires tiles { tiles ≤ 65025 }
        ensures answers { Answers (λ run. begin_answer run job tiles) (Begin job tiles) result
            self.old self.new }
        ensures same { IsErr result → self.new ≡ self.old }
    {
        if self.newest[job as usize] != 0 {
            return Err(1);
        }
        if tiles == 0 {
            return Err(6);
        }
        if !slot_fits(tiles) {
            return Err(6);
        }
        self.give(job, front(tiles))
    }

    /// Gives the job the next block of its newest slot. Refused are, in this order: with 2 a job that isn't running; with 4 one
    /// whose newest slot has no room for a block. A refusal changes nothing.
    pub fn take(&mut self, job: u8) -> Result<Block, u8>
        requires { job < 32 }
        ensures answers { Answers (λ run. take_answer run job) (Take job) result self.old self.new }
        ensures same { IsErr result → self.new ≡ self.old }
    {
        let newest = self.newest[job as usize];
        if newest == 0 {
            return Err(2);
        }
        let used = self.used[job as usize];
        if !has_room(used) {
            return Err(4);
        }
        self.used[job as usize] = used + BLOCK;
        Ok(Block {
            slot: u32::from(newest) - 1,
            at: used,
        })
    }

    /// Gives the job the least free slot as its newest, all of it for blocks. Refused are, in this order: with 2 a job that isn't
    /// running; with 5 one whose newest slot has room for a block; with 3 one for which no slot is free. A refusal changes
    /// nothing.
    pub fn overflow(&mut self, job: u8) -> Result<u32, u8>
        requires { job < 32 }
        ensures answers { Answers (λ run. overflow_answer run job) (Overflow job) result
            self.old self.new }
        ensures same { IsErr result → self.new ≡ self.old }
    {
        if self.newest[job as usize] == 0 {
            return Err(2);
        }
        if has_room(self.used[job as usize]) {
            return Err(5);
        }
        self.give(job, 0)
    }

    /// Ends the job: its slots are free again. It says how many slots are free then. Refused with 2 is a job that isn't running,
    /// which changes nothing.
    pub fn end(&mut self, job: u8) -> Result<u32, u8>
        requires { job < 32 }
        ensures answers { Answers (λ run. end_answer run job) (End job) result self.old self.new }
        ensures same { IsErr result → self.new ≡ self.old }
    {
        if self.newest[job as usize] == 0 {
            return Err(2);
        }
        free_all(&mut self.owners, job + 1);
        self.newest[job as usize] = 0;
        Ok(free_count(&self.owners, self.slots))
    }
}
