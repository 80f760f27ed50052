//! What the list units of one job keep, as a whole.
ghost use Rattle.std.specs.Prelude.{◌≡◌, ◌≤◌, ◌<◌, ◌+◌, ◌*◌, ◌^◌, [], length, IfOk};
ghost use Rattle.list_machine.specs.Lists.{lists_start, with_kept, with_work, with_place, past, after_increment, after_flush, with_taken, with_item, with_block, binner_ended, renderer_ended, most_items, AreNear, MayIncrement};
ghost use Rattle.list_machine.specs.Renderer.{beyond, with_frame, with_load, at_tile, with_inside};
ghost use Rattle.list_machine.specs.Blocks.{spot_of};

use crate::state::{Binner, Frame, Item, Kept, Load, Renderer, Spot, SubList, Work};
use field_words::NoMemory;
use std::alloc::Global;
use std::marker::Model;

/// The most items that a job's tile lists have together.
pub const MOST_ITEMS: usize = 32_768;

/// As many tiles as a grid may have, and the one behind them.
const MOST_TILES: usize = 65_026;

/// What an empty tile list has.
const NO_SPOT: Spot = Spot { count: 0, last: 0 };

/// What the list units of one job keep: its binner and its renderer, the semaphore, and its tile
/// lists. The items of all tile lists are one list, the oldest first; beside it stands for each tile
/// what its own list has. All memory is taken at the start, so that no step takes any.
#[derive(Drop)]
pub struct JobLists {
    binner: Binner,
    renderer: Renderer,
    pending: u64,
    semaphore: u64,
    closed: bool,
    blocks: u32,
    items: Vec<Item>,
    spots: Vec<Spot>,
}

impl Model for JobLists {
    ghost use Rattle.std.specs.Prelude.{◌≤◌};
    ghost use Rattle.std.specs.Vec.{vec_capacity};
    ghost use Rattle.list_machine.specs.Lists.{Lists, IsNear, most_items};
    ghost use Rattle.list_machine.specs.Blocks.{AreSpotsOf};

    ghost Value = { Lists };

    ghost view = { λ a. record {
      binner = a.binner;
      renderer = a.renderer;
      pending = a.pending;
      semaphore = a.semaphore;
      closed = a.closed;
      blocks = a.blocks;
      items = a.items.items;
    } };

    ghost invariant = { λ a. (most_items ≤ vec_capacity a.items)
        × IsNear (record {
          binner = a.binner;
          renderer = a.renderer;
          pending = a.pending;
          semaphore = a.semaphore;
          closed = a.closed;
          blocks = a.blocks;
          items = a.items.items;
        })
        × AreSpotsOf a.items.items a.spots.items };
}

impl JobLists {
    /// The list units of a job whose lists begin at these places and are this long, at their start.
    /// Memory may be missing: that for the items of its tile lists, and for what each of 65,026 tiles has.
    #[tactic(auto, using(crate::proofs::Spots::spots_begin))]
    pub fn new(
        alloc: Global,
        bin_place: u32,
        bin_len: u32,
        render_place: u32,
        render_len: u32,
    ) -> Result<JobLists, NoMemory>
        ensures { IfOk result (λ lists. lists
            ≡ lists_start bin_place bin_len render_place render_len) }
    {
        let items = Vec::with_capacity(alloc, MOST_ITEMS)?;
        let spots = vec![in alloc; NO_SPOT; MOST_TILES]?;
        Ok(JobLists {
            binner: Binner {
                place: bin_place as u64,
                end: bin_place as u64 + bin_len as u64,
                kept: Kept {
                    config: None,
                    started: false,
                    word: None,
                },
                work: None,
            },
            renderer: Renderer {
                place: render_place as u64,
                end: render_place as u64 + render_len as u64,
                frame: None,
                x: 0,
                y: 0,
                waiting: None,
                inside: None,
            },
            pending: 0,
            semaphore: 0,
            closed: false,
            blocks: 0,
            items,
            spots,
        })
    }

    /// The binner.
    pub(crate) fn binner(&self) -> Binner
        ensures value { result ≡ self.now.binner }
        ensures end { result.end < 2 ^ 33 }
        ensures place { result.place ≤ result.end + 16 }
    {
        self.binner
    }

    /// The renderer.
    pub(crate) fn renderer(&self) -> Renderer
        ensures value { result ≡ self.now.renderer }
        ensures end { result.end < 2 ^ 33 }
        ensures place { result.place ≤ result.end + 16 }
    {
        self.renderer
    }

    /// The semaphore.
    pub(crate) fn semaphore(&self) -> u64
        ensures { result ≡ self.now.semaphore }
    {
        self.semaphore
    }

    /// Whether the tile lists are closed.
    pub(crate) fn is_closed(&self) -> bool
        ensures { result ≡ self.now.closed }
    {
        self.closed
    }

    /// How many further blocks are taken.
    pub(crate) fn blocks(&self) -> u32
        ensures value { result ≡ self.now.blocks }
        ensures few { result ≤ 2 ^ 25 }
    {
        self.blocks
    }

    /// What a tile's list has.
    #[tactic(auto, using(crate::proofs::Putting::spot_near, crate::proofs::Spots::count_limit))]
    pub(crate) fn spot(&self, tile: u32) -> Spot
        requires { tile ≤ 65025 }
        ensures value { result ≡ spot_of tile self.now.items }
        ensures near { result.last + 16 ≤ 2 ^ 34 + 16 * length self.now.items }
        ensures count { result.count ≤ length self.now.items }
        ensures few { length self.now.items ≤ most_items }
    {
        self.spots[tile as usize]
    }

    /// The items of all tile lists, the oldest first.
    pub(crate) fn items(&self) -> &[Item]
        ensures value { result.now ≡ self.now.items }
        ensures few { length result.now ≤ most_items }
        ensures near { AreNear 0 result.now }
    {
        self.items.as_slice()
    }

    /// The renderer goes past a packet.
    pub(crate) fn go_past(&mut self, len: u32)
        requires below { self.old.renderer.place < self.old.renderer.end }
        requires few { len ≤ 16 }
        ensures { self.new ≡ beyond self.old len }
    {
        self.renderer.place += len as u64;
    }

    /// Keeps the frame.
    pub(crate) fn keep_frame(&mut self, frame: Frame)
        ensures { self.new ≡ with_frame self.old frame }
    {
        self.renderer.frame = Some(frame);
    }

    /// Keeps a load as waiting.
    pub(crate) fn keep_load(&mut self, load: Load)
        ensures { self.new ≡ with_load self.old load }
    {
        self.renderer.waiting = Some(load);
    }

    /// Keeps the tile's number; no load waits then.
    pub(crate) fn keep_tile(&mut self, x: u8, y: u8)
        ensures { self.new ≡ at_tile self.old x y }
    {
        self.renderer.x = x;
        self.renderer.y = y;
        self.renderer.waiting = None;
    }

    /// Goes into a tile's list, or out of it.
    pub(crate) fn go_inside(&mut self, inside: Option<SubList>)
        ensures { self.new ≡ with_inside self.old inside }
    {
        self.renderer.inside = inside;
    }

    /// Ends the renderer's work.
    pub(crate) fn end_renderer(&mut self)
        ensures { self.new ≡ renderer_ended self.old }
    {
        self.renderer.place = self.renderer.end;
        self.renderer.waiting = None;
        self.renderer.inside = None;
    }

    /// Changes what the binner keeps from packet to packet.
    pub(crate) fn set_kept(&mut self, kept: Kept)
        ensures { self.new ≡ with_kept self.old kept }
    {
        self.binner.kept = kept;
    }

    /// Changes the primitive in work.
    pub(crate) fn set_work(&mut self, work: Option<Work>)
        ensures { self.new ≡ with_work self.old work }
    {
        self.binner.work = work;
    }

    /// Goes past a packet of the binner's list.
    pub(crate) fn pass(&mut self, len: u32)
        requires below { self.old.binner.place < self.old.binner.end }
        requires some { 1 ≤ len }
        requires few { len ≤ 16 }
        ensures value { self.new ≡ past self.old len }
        ensures may { MayIncrement self.new }
    {
        self.binner.place += len as u64;
    }

    /// Goes to the end of the binner's list.
    pub(crate) fn halt(&mut self)
        ensures { self.new ≡ with_place self.old self.old.binner.end }
    {
        self.binner.place = self.binner.end;
    }

    /// Ends the binner's work.
    pub(crate) fn end_binner(&mut self)
        ensures { self.new ≡ binner_ended self.old }
    {
        self.binner.place = self.binner.end;
        self.binner.work = None;
    }

    /// The semaphore is to be raised once more.
    pub(crate) fn increment(&mut self)
        requires { MayIncrement self.old }
        ensures { self.new ≡ after_increment self.old }
    {
        self.pending += 1;
    }

    /// Closes the tile lists, and raises the semaphore as often as was asked.
    pub(crate) fn flush(&mut self)
        ensures { self.new ≡ after_flush self.old }
    {
        self.closed = true;
        self.semaphore += self.pending;
        self.pending = 0;
    }

    /// Takes one from the semaphore, where it isn't zero.
    pub(crate) fn take_semaphore(&mut self)
        ensures { self.new ≡ with_taken self.old }
    {
        self.semaphore = self.semaphore.saturating_sub(1);
    }

    /// Takes a further block.
    pub(crate) fn take_block(&mut self)
        requires { self.old.blocks < 2 ^ 25 }
        ensures { self.new ≡ with_block self.old }
    {
        self.blocks += 1;
    }

    /// One item more.
    #[tactic(auto, using(crate::proofs::Nearness::near_push, crate::proofs::Spots::spots_put))]
    pub(crate) fn push_item(&mut self, item: Item)
        requires tile { item.tile ≤ 65025 }
        requires few { length self.old.items < most_items }
        requires near { item.place ≤ 2 ^ 34 + 16 * length self.old.items }
        ensures { self.new ≡ with_item self.old item }
    {
        let spot = self.spot(item.tile);
        self.spots[item.tile as usize] = Spot {
            count: spot.count + 1,
            last: item.place,
        };
        self.items.push_reserved(item);
    }
}
