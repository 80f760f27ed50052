//! The blocks of memory in which tile lists lie.
ghost use Rattle.std.specs.Prelude.{◌≡◌, ◌≤◌, ◌<◌, ◌+◌, ◌*◌, ◌^◌, ◌++◌, ◌∷◌, [], ◌⊎◌, true, length, Some};
ghost use Rattle.arrayvec.specs.ArrayVec.{array_vec_len};
ghost use Rattle.machine_plan.specs.Turn.{Carries};
ghost use Rattle.list_machine.specs.State.{Write};
ghost use Rattle.machine_plan.specs.Memory.{bytes_stored};
ghost use Rattle.machine_plan.specs.Plan.{access};
ghost use Rattle.list_machine.specs.Lists.{most_items};
ghost use Rattle.list_machine.specs.Blocks.{tiles_of, further_offset, block_place, has_room, spot_of, is_full, next_place, item_of, zeros, item_put, put_plan};

use crate::job_lists::JobLists;
use crate::state::{Item, Spot, Work};
use field_words::{Way, round_up};
use machine_plan::{Accesses, Who, list_access, put_byte};
use packets::Config;
use phys_mem::PhysMem;

/// How many tiles a config has.
#[tactic(auto, using(crate::proofs::Putting::tiles_limit), unfolding(crate::specs::Blocks::tiles_of))]
pub(crate) fn tiles_of(config: &Config) -> u32
    ensures value { result ≡ tiles_of config.now }
    ensures limit { result ≤ 65025 }
{
    config.tiles_x as u32 * config.tiles_y as u32
}

// Where the further blocks begin in the allocation.
#[tactic(auto, unfolding(crate::specs::Blocks::further_offset))]
fn further_offset(config: &Config) -> u64
    ensures value { result ≡ further_offset config.now }
    ensures limit { result ≤ 2 ^ 22 }
{
    round_up(32 * tiles_of(config) as u64, 128)
}

// Where the next further block lies, with so many taken.
#[tactic(auto, unfolding(crate::specs::Blocks::block_place))]
fn block_place(config: &Config, blocks: u32) -> u64
    requires { blocks < 2 ^ 25 }
    ensures value { result ≡ block_place config.now blocks }
    ensures limit { result ≤ 2 ^ 34 }
{
    config.address as u64 + further_offset(config) + 128 * blocks as u64
}

/// Whether the next further block lies inside the allocation.
#[tactic(auto, unfolding(crate::specs::Blocks::has_room))]
pub(crate) fn has_room(config: &Config, blocks: u32) -> bool
    requires { blocks ≤ 2 ^ 25 }
    ensures value { result ≡ has_room config.now blocks }
    ensures few { result ≡ true → blocks < 2 ^ 25 }
{
    further_offset(config) + 128 * (blocks as u64 + 1) <= config.size as u64
}

// Whether the block is full in which the last item lies.
#[tactic(auto, unfolding(crate::specs::Blocks::is_full))]
fn is_full(spot: Spot) -> bool
    ensures { result ≡ is_full spot }
{
    spot.count % 7 == 1
}

// Where an item goes whose tile needs no further block.
#[tactic(auto, unfolding(crate::specs::Blocks::next_place))]
fn next_place(config: &Config, tile: u32, spot: Spot) -> u64
    requires last { spot.last < 2 ^ 40 }
    requires tile { tile ≤ 65025 }
    ensures value { result ≡ next_place config.now tile spot }
    ensures near { result ≤ 2 ^ 33 ⊎ result ≡ spot.last + 16 }
{
    if spot.count == 0 {
        config.address as u64 + 32 * tile as u64
    } else {
        spot.last + 16
    }
}

// The item that is put on a tile for the primitive in work.
fn item_of(work: &Work, tile: u32, place: u64) -> Item
    ensures { result ≡ item_of work.now tile place }
{
    Item {
        tile,
        place,
        word: work.word,
        primitive: work.primitive,
    }
}

/// Writes `len` zeros from `place` on, and lists the write.
#[tactic(auto, using(crate::proofs::Putting::zeros_first, crate::proofs::Putting::zeros_more, crate::proofs::Putting::zeros_done))]
pub(crate) fn write_zeros(
    place: u64,
    len: u32,
    who: Who,
    memory: &mut PhysMem,
    accesses: &mut Accesses,
)
    requires near { place < 2 ^ 62 }
    requires room { array_vec_len accesses.old < 272 }
    ensures memory { memory.new ≡ bytes_stored memory.old place (zeros len) }
    ensures items { accesses.new.items ≡ accesses.old.items ++ access who Write place len ∷ [] }
    ensures len { array_vec_len accesses.new ≡ array_vec_len accesses.old + 1 }
{
    list_access(who, Way::Write, place, len, accesses);
    for i in 0..len {
        put_byte(memory, place + i as u64, 0);
    }
}

impl JobLists {
    // Writes an item, and keeps it.
    fn put_here(&mut self, item: Item, who: Who, memory: &mut PhysMem, accesses: &mut Accesses)
        requires tile { item.tile ≤ 65025 }
        requires few { length self.old.items < most_items }
        requires near { item.place ≤ 2 ^ 34 + 16 * length self.old.items }
        requires room { array_vec_len accesses.old < 272 }
        ensures shows { Carries who (item_put self.old item)
            memory.old memory.new accesses.old accesses.new (Some self.new) }
        ensures len { array_vec_len accesses.new ≡ array_vec_len accesses.old + 1 }
    {
        write_zeros(item.place, 16, who, memory, accesses);
        self.push_item(item);
    }

    /// Puts an item on a tile, for the primitive in work. Where the tile's block is full, the link is
    /// written first and the next further block taken.
    pub(crate) fn put(
        &mut self,
        config: &Config,
        work: &Work,
        tile: u32,
        who: Who,
        memory: &mut PhysMem,
        accesses: &mut Accesses,
    )
        requires tile { tile ≤ 65025 }
        requires few { length self.old.items < most_items }
        requires blocks { self.old.blocks < 2 ^ 25 }
        requires room { array_vec_len accesses.old < 270 }
        ensures shows { Carries who
            (put_plan self.old config.now work.now tile (spot_of tile self.old.items)) memory.old
            memory.new accesses.old accesses.new (Some self.new) }
        ensures len { array_vec_len accesses.new ≤ array_vec_len accesses.old + 2 }
    {
        let spot = self.spot(tile);
        if is_full(spot) {
            let place = block_place(config, self.blocks());
            write_zeros(spot.last + 16, 16, who, memory, accesses);
            self.take_block();
            self.put_here(item_of(work, tile, place), who, memory, accesses);
        } else {
            let place = next_place(config, tile, spot);
            self.put_here(item_of(work, tile, place), who, memory, accesses);
        }
    }
}
