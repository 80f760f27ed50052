//! The renderer's step outside of tile lists: it reads a packet and does what it says.
ghost use Rattle.std.specs.Prelude.{◌≡◌, ◌≤◌, ◌<◌, length, slice_index, true, false};
ghost use Rattle.arrayvec.specs.ArrayVec.{array_vec_len};
ghost use Rattle.packets.specs.Length.{render_taken};
ghost use Rattle.packets.specs.Packet.{packet_decoded};
ghost use Rattle.machine_plan.specs.Glance.{glance_result};
ghost use Rattle.machine_plan.specs.Turn.{Carries, CarriesAnywhere, if_tame};
ghost use Rattle.list_machine.specs.Lists.{renderer_ended};
ghost use Rattle.list_machine.specs.Renderer.{wait_plan, tile_named, enter_plan, tile_by, branch_plan, tile_plan, act, plan_of_packet, packet_plan, may_pass, renderer_ready};

use crate::blocks::tiles_of;
use crate::job_lists::JobLists;
use crate::parts::{Buffer, load_waiting, store_frame, store_general, store_whole};
use crate::reads::{end_wild, read_listed};
use crate::state::{Frame, Load, SubList};
use crate::surface::Tile;
use crate::turn::Turn;
use machine_plan::{Accesses, Choices, Reader, Who, byte_at};
use packets::opcode::WAIT_ON_SEMAPHORE;
use packets::{Config, Packet, decode, render_taken};
use phys_mem::PhysMem;

/// The tile whose list begins at this address.
#[tactic(auto, unfolding(crate::specs::Renderer::tile_named))]
fn tile_named(config: &Config, address: u32) -> Option<u32>
    ensures { result ≡ tile_named config.now address }
{
    if config.address <= address
        && (address - config.address) % 32 == 0
        && (address - config.address) / 32 < tiles_of(config)
    {
        Some((address - config.address) / 32)
    } else {
        None
    }
}

impl JobLists {
    /// Whether the renderer needn't wait at this opcode.
    #[tactic(auto, unfolding(crate::specs::Renderer::may_pass))]
    fn may_pass(&self, opcode: u8) -> bool
        ensures { result ≡ may_pass self.now opcode }
    {
        !(opcode == WAIT_ON_SEMAPHORE && self.semaphore() == 0)
    }

    /// Whether the job's renderer may step: it is in a tile's list, or below its own list's end and
    /// needn't wait there for the semaphore.
    #[tactic(auto, unfolding(crate::specs::Renderer::renderer_ready), using(crate::proofs::Steps::first_byte))]
    pub fn is_renderer_ready(&self, memory: &PhysMem) -> bool
        ensures { result ≡ glance_result (renderer_ready self.now) memory.now }
    {
        let kept = self.renderer();
        match kept.inside {
            Some(_) => true,
            None => kept.place < kept.end && self.may_pass(byte_at(memory, kept.place)),
        }
    }

    /// Keeps a load as waiting. False comes exactly where that is undefined, since another one waits.
    fn wait_with(&mut self, load: Load, who: Who, accesses: &mut Accesses) -> bool
        requires { array_vec_len accesses.old ≤ 8 }
        ensures shows { CarriesAnywhere who (wait_plan self.old self.old.renderer.waiting load)
            accesses.old accesses.new (if_tame result self.new) }
        ensures same { result ≡ false → self.new ≡ self.old }
    {
        match self.renderer().waiting {
            None => {
                self.keep_load(load);
                true
            }
            Some(_) => end_wild(who, accesses),
        }
    }

    /// Goes into the list of this tile. False comes exactly where there is none, which is undefined.
    fn enter(&mut self, tile: Option<u32>, who: Who, accesses: &mut Accesses) -> bool
        requires { array_vec_len accesses.old ≤ 8 }
        ensures shows { CarriesAnywhere who (enter_plan self.old tile) accesses.old accesses.new
            (if_tame result self.new) }
        ensures same { result ≡ false → self.new ≡ self.old }
    {
        match tile {
            Some(tile) => {
                self.go_inside(Some(SubList { tile, at: 0 }));
                true
            }
            None => end_wild(who, accesses),
        }
    }

    /// The tile whose list begins at this address, where there is a config.
    fn tile_at(&self, address: u32) -> Option<u32>
        ensures { result ≡ tile_by self.now.binner.kept.config address }
    {
        match self.binner().kept.config {
            None => None,
            Some(config) => tile_named(&config, address),
        }
    }

    /// Goes into the tile list at this address. False comes exactly where that is undefined: the lists aren't
    /// closed, or none begins there.
    #[tactic(auto, unfolding(crate::specs::Renderer::branch_plan))]
    fn branch(&mut self, address: u32, who: Who, accesses: &mut Accesses) -> bool
        requires { array_vec_len accesses.old ≤ 8 }
        ensures shows { CarriesAnywhere who (branch_plan self.old address) accesses.old accesses.new
            (if_tame result self.new) }
        ensures same { result ≡ false → self.new ≡ self.old }
    {
        if !self.is_closed() {
            return end_wild(who, accesses);
        }
        let tile = self.tile_at(address);
        self.enter(tile, who, accesses)
    }

    /// The tile at which loads and stores are done.
    fn tile(&self) -> Tile
        ensures frame { result.frame ≡ self.now.renderer.frame }
        ensures x { result.x ≡ self.now.renderer.x }
        ensures y { result.y ≡ self.now.renderer.y }
    {
        let kept = self.renderer();
        Tile {
            frame: kept.frame,
            x: kept.x,
            y: kept.y,
        }
    }

    /// Names the tile, and does the load that waits there. False comes exactly where that is undefined.
    #[tactic(auto, unfolding(crate::specs::Renderer::tile_plan))]
    fn name_tile(&mut self, x: u8, y: u8, who: Who, accesses: &mut Accesses) -> bool
        requires { array_vec_len accesses.old ≤ 8 }
        ensures shows { CarriesAnywhere who (tile_plan self.old x y) accesses.old accesses.new
            (if_tame result self.new) }
        ensures same { result ≡ false → self.new ≡ self.old }
    {
        let kept = self.renderer();
        let tile = Tile {
            frame: kept.frame,
            x,
            y,
        };
        if !load_waiting(kept.waiting, tile, who, accesses) {
            return false;
        }
        self.keep_tile(x, y);
        true
    }

    /// Does what a packet says, with the renderer past it. False comes exactly where that is undefined.
    fn act<C: Choices>(
        &mut self,
        packet: Packet,
        turn: &Turn<C>,
        memory: &mut PhysMem,
        accesses: &mut Accesses,
    ) -> bool
        requires { array_vec_len accesses.old ≤ 8 }
        ensures shows { Carries turn.now.who (act self.old (C.listed turn.now.words.now) packet)
            memory.old memory.new accesses.old accesses.new (if_tame result self.new) }
        ensures same { result ≡ false → self.new ≡ self.old }
    {
        let tile = self.tile();
        match packet {
            Packet::WaitOnSemaphore => {
                self.take_semaphore();
                true
            }
            Packet::BranchToSubList { address } => self.branch(address, turn.who, accesses),
            Packet::StoreTileColor => store_frame(tile, turn, memory, accesses),
            Packet::StoreTileColorAndEnd => store_frame(tile, turn, memory, accesses),
            Packet::StoreFullResolution { address } => {
                store_whole(address, turn, memory, accesses);
                true
            }
            Packet::LoadFullResolution { address } => {
                self.wait_with(Load::Full(address), turn.who, accesses)
            }
            Packet::StoreTileBuffer { bits, address } => {
                store_general(Buffer { bits, address }, tile, turn, memory, accesses)
            }
            Packet::LoadTileBuffer { bits, address } => {
                self.wait_with(Load::General { bits, address }, turn.who, accesses)
            }
            Packet::TileRenderingMode {
                address,
                width,
                height,
                bits,
            } => {
                self.keep_frame(Frame {
                    address,
                    width,
                    height,
                    bits,
                });
                true
            }
            Packet::ClearColors { .. } => true,
            Packet::TileCoordinates { x, y } => self.name_tile(x, y, turn.who, accesses),
        }
    }

    /// Does what the bytes of a packet say, with the renderer past it. False comes exactly where that is
    /// undefined.
    fn act_on<C: Choices>(
        &mut self,
        bytes: &[u8],
        turn: &Turn<C>,
        memory: &mut PhysMem,
        accesses: &mut Accesses,
    ) -> bool
        requires length { length bytes.now ≡ render_taken (slice_index bytes.now 0) }
        requires room { array_vec_len accesses.old ≤ 8 }
        ensures shows { Carries turn.now.who (plan_of_packet self.old (C.listed turn.now.words.now)
            (packet_decoded bytes.now)) memory.old memory.new accesses.old accesses.new
            (if_tame result self.new) }
        ensures same { result ≡ false → self.new ≡ self.old }
    {
        match decode(bytes) {
            None => end_wild(turn.who, accesses),
            Some(packet) => self.act(packet, turn, memory, accesses),
        }
    }

    /// Reads the packet at the renderer's place, goes past it and does what it says. False comes exactly
    /// where that is undefined; then the renderer's work ends.
    pub(crate) fn take_packet<C: Choices>(
        &mut self,
        turn: &Turn<C>,
        memory: &mut PhysMem,
        accesses: &mut Accesses,
    ) -> bool
        requires below { self.old.renderer.place < self.old.renderer.end }
        requires room { array_vec_len accesses.old ≤ 4 }
        ensures shows { Carries turn.now.who (packet_plan self.old (C.listed turn.now.words.now))
            memory.old memory.new accesses.old accesses.new (if_tame result self.new) }
        ensures wild { result ≡ false → self.new ≡ renderer_ended self.old }
    {
        let place = self.renderer().place;
        let len = render_taken(byte_at(memory, place));
        let reader = &Reader {
            who: turn.who,
            memory,
        };
        let bytes = read_listed(place, len, reader, accesses);
        self.go_past(len);
        if self.act_on(&bytes, turn, memory, accesses) {
            return true;
        }
        self.end_renderer();
        false
    }
}
