//! One step of the binner.
#![tactic(auto, unfolding(crate::proofs::Opened::binner))]

ghost use Rattle.std.specs.Prelude.{◌≡◌, ◌≤◌, ◌<◌, ◌+◌, ◌^◌, ◌⊎◌, true, false, length, slice_index, Some, None, option_map};
ghost use Rattle.arrayvec.specs.ArrayVec.{array_vec_len};
ghost use Rattle.packets.specs.Length.{bin_length, bin_taken};
ghost use Rattle.packets.specs.Opcode.{indexed_primitive_list, array_primitive_list};
ghost use Rattle.machine_plan.specs.Glance.{Now};
ghost use Rattle.machine_plan.specs.Turn.{Carries, CarriesOver, if_tame};
ghost use Rattle.list_machine.specs.Lists.{turned_to, quiet, binner_ended, most_items, MayIncrement};
ghost use Rattle.list_machine.specs.Blocks.{has_room};
ghost use Rattle.list_machine.specs.Binner.{config_set, with_word, after_start, clear_plan, begin_plan, primitive_of, draw_plan, is_unknown, packet_plan, read_plan, is_due, one_done, next_plan, not_due, due_plan, chosen_tile, tile_plan, item_plan, work_plan, binner_plan, item_may, work_may, binner_ready, has_binner_work};

use crate::blocks::{has_room, tiles_of, write_zeros};
use crate::fetch::fetch_vertex;
use crate::job_lists::{JobLists, MOST_ITEMS};
use crate::reads::{end_wild, read_listed};
use crate::start::{Shader, can_start, start_program};
use crate::state::{Kept, Primitive, Program, Work};
use crate::turn::Turn;
use byteorder::{ByteOrder, LittleEndian};
use machine_plan::{Accesses, Choices, Free, Launch, Reader, Who, byte_at};
use packets::opcode::{
    ARRAY_PRIMITIVE_LIST, BUFFER_HANDLES, FLUSH, GL_SHADER_STATE, HALT, INCREMENT_SEMAPHORE,
    INDEXED_PRIMITIVE_LIST, START_TILE_BINNING, TILE_BINNING_MODE,
};
use packets::{Config, bin_length, bin_taken, config_in};
use phys_mem::PhysMem;

// The primitive of a packet that draws: an indexed one, or one whose vertices have the indexes from the first on.
#[tactic(auto, unfolding(crate::proofs::Opened::binner, packets::specs::Length::bin_taken, packets::specs::Length::bin_length))]
fn primitive_of(packet: &[u8]) -> Primitive
    requires draws { (slice_index packet.now 0 ≡ indexed_primitive_list)
        ⊎ (slice_index packet.now 0 ≡ array_primitive_list) }
    requires length { length packet.now ≡ bin_taken (slice_index packet.now 0) }
    ensures { result ≡ primitive_of packet.now }
{
    let indexed = packet[0] == INDEXED_PRIMITIVE_LIST;
    let most = if indexed {
        LittleEndian::read_u32(&packet[10..])
    } else {
        0
    };
    Primitive {
        indexed,
        wide: indexed && packet[1] / 16 != 0,
        length: LittleEndian::read_u32(&packet[2..]),
        address: LittleEndian::read_u32(&packet[6..]),
        most,
    }
}

// Whether no packet has this opcode, or only the driver's own.
fn is_unknown(opcode: u8) -> bool
    ensures { result ≡ is_unknown opcode }
{
    bin_length(opcode) == 0 || opcode == BUFFER_HANDLES
}

// Whether a program is due when so many vertices are done.
fn is_due(work: &Work, done: u32) -> bool
    ensures { result ≡ is_due work.now done }
{
    done % 16 == 0 || done == work.primitive.length
}

// The work with one vertex more done.
fn one_done(work: &Work) -> Work
    requires { work.now.done < work.now.primitive.length }
    ensures { result ≡ one_done work.now }
{
    let done = work.done + 1;
    Work {
        done,
        due: is_due(work, done),
        ..*work
    }
}

// The work when the program that was due has started.
fn not_due(work: &Work) -> Work
    ensures { result ≡ not_due work.now }
{
    Work {
        due: false,
        ..*work
    }
}

// The tile that the words choose; the number of tiles says that the primitive is done.
fn chosen_tile<C: Choices>(config: &Config, words: &C) -> u32
    ensures value { result ≡ chosen_tile config.now (C.listed words.now) }
    ensures limit { result ≤ 65025 }
{
    words.word(0) % (tiles_of(config) + 1)
}

impl JobLists {
    // Opcode 112 keeps the config.
    fn configure(&mut self, packet: &[u8])
        requires { length packet.now ≡ 16 }
        ensures { self.new ≡ config_set self.old packet.now }
    {
        let kept = self.binner().kept;
        self.set_kept(Kept {
            config: Some(config_in(packet)),
            ..kept
        });
    }

    // Opcode 64 keeps the state word.
    fn keep_word(&mut self, packet: &[u8])
        requires { length packet.now ≡ 5 }
        ensures { self.new ≡ with_word self.old packet.now }
    {
        let kept = self.binner().kept;
        self.set_kept(Kept {
            word: Some(LittleEndian::read_u32(&packet[1..])),
            ..kept
        });
    }

    // Binning is started.
    fn start_binning(&mut self)
        ensures { self.new ≡ after_start self.old }
    {
        let kept = self.binner().kept;
        self.set_kept(Kept {
            started: true,
            ..kept
        });
    }

    // Opcode 6, with this config.
    fn clear_states(
        &mut self,
        config: &Config,
        who: Who,
        memory: &mut PhysMem,
        accesses: &mut Accesses,
    )
        requires { array_vec_len accesses.old < 272 }
        ensures shows { Carries who (clear_plan self.old config.now) memory.old memory.new
            accesses.old accesses.new (Some self.new) }
        ensures len { array_vec_len accesses.new ≡ array_vec_len accesses.old + 1 }
    {
        write_zeros(
            config.states as u64,
            48 * tiles_of(config),
            who,
            memory,
            accesses,
        );
        self.start_binning();
    }

    // Opcode 6 clears the tiles' states and starts binning. False comes exactly where no config is kept;
    // then it is undefined.
    fn begin(&mut self, who: Who, memory: &mut PhysMem, accesses: &mut Accesses) -> bool
        requires { array_vec_len accesses.old < 272 }
        ensures shows { Carries who (begin_plan self.old self.old.binner.kept.config)
            memory.old memory.new accesses.old accesses.new (if_tame result self.new) }
        ensures wild { result ≡ false → self.new ≡ self.old }
    {
        match self.binner().kept.config {
            None => end_wild(who, accesses),
            Some(config) => {
                self.clear_states(&config, who, memory, accesses);
                true
            }
        }
    }

    // Opcodes 32 and 33 bring a primitive into work. False comes exactly where no state word is kept or
    // binning isn't started; then it is undefined.
    fn draw(&mut self, packet: &[u8], who: Who, memory: &PhysMem, accesses: &mut Accesses) -> bool
        requires draws { (slice_index packet.now 0 ≡ indexed_primitive_list)
            ⊎ (slice_index packet.now 0 ≡ array_primitive_list) }
        requires length { length packet.now ≡ bin_taken (slice_index packet.now 0) }
        requires room { array_vec_len accesses.old < 272 }
        ensures shows { CarriesOver who (draw_plan self.old packet.now) memory.now accesses.old
            accesses.new (if_tame result self.new) }
        ensures wild { result ≡ false → self.new ≡ self.old }
    {
        let kept = self.binner().kept;
        match kept.word {
            Some(word) if kept.started => {
                self.set_work(Some(Work {
                    word,
                    primitive: primitive_of(packet),
                    done: 0,
                    due: false,
                }));
                true
            }
            _ => end_wild(who, accesses),
        }
    }

    // Does what a packet says; the binner stands past it. False comes exactly where it is undefined.
    #[tactic(auto, unfolding(crate::proofs::Opened::binner, packets::specs::Length::bin_taken, packets::specs::Length::bin_length))]
    fn bin_packet(
        &mut self,
        packet: &[u8],
        who: Who,
        memory: &mut PhysMem,
        accesses: &mut Accesses,
    ) -> bool
        requires length { length packet.now ≡ bin_taken (slice_index packet.now 0) }
        requires may { MayIncrement self.old }
        requires room { array_vec_len accesses.old < 271 }
        ensures shows { Carries who (packet_plan self.old packet.now)
            memory.old memory.new accesses.old accesses.new (if_tame result self.new) }
        ensures wild { result ≡ false → self.new ≡ self.old }
    {
        let opcode = packet[0];
        if is_unknown(opcode) {
            return end_wild(who, accesses);
        }
        match opcode {
            HALT => self.halt(),
            TILE_BINNING_MODE => self.configure(packet),
            START_TILE_BINNING => return self.begin(who, memory, accesses),
            GL_SHADER_STATE => self.keep_word(packet),
            INDEXED_PRIMITIVE_LIST | ARRAY_PRIMITIVE_LIST => {
                return self.draw(packet, who, memory, accesses);
            }
            INCREMENT_SEMAPHORE => self.increment(),
            FLUSH => self.flush(),
            _ => {}
        }
        true
    }

    // Reads the packet at the binner's place, goes past it and does what it says. False comes exactly where
    // that is undefined; then the binner's work ends.
    fn step_packet(&mut self, who: Who, memory: &mut PhysMem, accesses: &mut Accesses) -> bool
        requires below { self.old.binner.place < self.old.binner.end }
        requires room { array_vec_len accesses.old < 270 }
        ensures shows { Carries who (read_plan self.old) memory.old memory.new accesses.old
            accesses.new (if_tame result self.new) }
        ensures wild { result ≡ false → self.new ≡ binner_ended self.old }
    {
        let place = self.binner().place;
        let len = bin_taken(byte_at(memory, place));
        let packet = read_listed(place, len, &Reader { who, memory }, accesses);
        self.pass(len);
        if self.bin_packet(&packet, who, memory, accesses) {
            return true;
        }
        self.end_binner();
        false
    }

    // The program that is due starts.
    fn start_due(
        &mut self,
        work: &Work,
        free: &Free,
        reader: &Reader,
        accesses: &mut Accesses,
    ) -> Option<Launch>
        requires { array_vec_len accesses.old < 240 }
        ensures shows { CarriesOver reader.now.who (due_plan self.old work.now free.now)
            reader.now.memory.now accesses.old accesses.new (Some (turned_to self.new result)) }
    {
        let shader = Shader {
            program: Program::Coordinate,
            word: work.word,
        };
        let launch = start_program(shader, free, reader, accesses);
        self.set_work(Some(not_due(work)));
        launch
    }

    // The next vertex is fetched.
    fn fetch_next(&mut self, work: &Work, reader: &Reader, accesses: &mut Accesses)
        requires more { work.now.done < work.now.primitive.length }
        requires room { array_vec_len accesses.old < 240 }
        ensures shows { CarriesOver reader.now.who (next_plan self.old work.now)
            reader.now.memory.now accesses.old accesses.new (Some (quiet self.new)) }
    {
        fetch_vertex(&work.primitive, work.word, work.done, reader, accesses);
        self.set_work(Some(one_done(work)));
    }

    // An item is put on the tile that the words choose, or the primitive is done.
    fn put_chosen<C: Choices>(
        &mut self,
        config: &Config,
        work: &Work,
        turn: &Turn<C>,
        memory: &mut PhysMem,
        accesses: &mut Accesses,
    )
        requires few { length self.old.items < most_items }
        requires blocks { self.old.blocks < 2 ^ 25 }
        requires room { array_vec_len accesses.old < 240 }
        ensures shows { let tile = chosen_tile config.now (C.listed turn.now.words.now) in Carries
            turn.now.who (tile_plan self.old config.now work.now tile) memory.old memory.new
            accesses.old accesses.new (Some self.new) }
    {
        let tile = chosen_tile(config, turn.words);
        if tile == tiles_of(config) {
            self.set_work(None);
        } else {
            self.put(config, work, tile, turn.who, memory, accesses);
        }
    }

    // Puts the work's item with the config that is kept.
    #[tactic(auto, using(crate::proofs::Putting::item_room))]
    fn put_item<C: Choices>(
        &mut self,
        work: &Work,
        turn: &Turn<C>,
        memory: &mut PhysMem,
        accesses: &mut Accesses,
    )
        requires may { item_may self.old self.old.binner.kept.config ≡ true }
        requires room { array_vec_len accesses.old < 240 }
        ensures shows { let words = C.listed turn.now.words.now in Carries turn.now.who
            (item_plan self.old self.old.binner.kept.config work.now words) memory.old memory.new
            accesses.old accesses.new (Some self.new) }
    {
        match self.binner().kept.config {
            None => {}
            Some(config) => self.put_chosen(&config, work, turn, memory, accesses),
        }
    }

    // A step with a primitive in work.
    fn step_work<C: Choices>(
        &mut self,
        work: &Work,
        turn: &Turn<C>,
        memory: &mut PhysMem,
        accesses: &mut Accesses,
    ) -> Option<Launch>
        requires may { work_may self.old work.now turn.now.free ≡ true }
        requires room { array_vec_len accesses.old < 240 }
        ensures shows { let words = C.listed turn.now.words.now in Carries turn.now.who
            (work_plan self.old work.now turn.now.free words) memory.old memory.new accesses.old
            accesses.new (Some (turned_to self.new result)) }
    {
        if work.due {
            let reader = &Reader {
                who: turn.who,
                memory,
            };
            self.start_due(work, &turn.free, reader, accesses)
        } else if work.done < work.primitive.length {
            let reader = &Reader {
                who: turn.who,
                memory,
            };
            self.fetch_next(work, reader, accesses);
            None
        } else {
            self.put_item(work, turn, memory, accesses);
            None
        }
    }

    // Whether an item can be put on a tile.
    fn item_may(&self) -> bool
        ensures { result ≡ item_may self.now self.now.binner.kept.config }
    {
        match self.binner().kept.config {
            None => false,
            Some(config) => has_room(&config, self.blocks()) && self.items().len() < MOST_ITEMS,
        }
    }

    // Whether the binner can go on with a primitive in work.
    fn work_may(&self, work: &Work, free: &Free) -> bool
        ensures { result ≡ work_may self.now work.now free.now }
    {
        if work.due {
            can_start(false, free)
        } else if work.done < work.primitive.length {
            true
        } else {
            self.item_may()
        }
    }

    /// Whether the binner may step. Without a primitive in work it is below its list's end. With one, the
    /// program that is due can start, or a vertex is left to fetch, or there is room for a further block
    /// and for an item.
    pub fn is_binner_ready(&self, free: &Free) -> bool
        ensures { binner_ready self.now free.now ≡ Now result }
    {
        let binner = self.binner();
        match binner.work {
            None => binner.place < binner.end,
            Some(work) => self.work_may(&work, free),
        }
    }

    /// Whether the binner has work: it is below its list's end, or has a primitive in work.
    pub fn has_binner_work(&self) -> bool
        ensures { result ≡ has_binner_work self.now }
    {
        let binner = self.binner();
        binner.place < binner.end || binner.work.is_some()
    }

    /// One step of the binner, which may step. It lists its accesses behind those already listed, and
    /// comes to the program that it starts, where it starts one. `None` comes exactly where the step is
    /// undefined; then the binner is at its list's end without work.
    pub fn step_binner<C: Choices>(
        &mut self,
        turn: &Turn<C>,
        memory: &mut PhysMem,
        accesses: &mut Accesses,
    ) -> Option<Option<Launch>>
        requires ready { binner_ready self.old turn.now.free ≡ Now true }
        requires room { array_vec_len accesses.old < 240 }
        ensures shows { let words = C.listed turn.now.words.now in Carries turn.now.who
            (binner_plan self.old turn.now.free words) memory.old memory.new accesses.old
            accesses.new (option_map (turned_to self.new) result) }
        ensures wild { result ≡ None → self.new ≡ binner_ended self.old }
    {
        match self.binner().work {
            None => {
                if self.step_packet(turn.who, memory, accesses) {
                    Some(None)
                } else {
                    None
                }
            }
            Some(work) => Some(self.step_work(&work, turn, memory, accesses)),
        }
    }
}
