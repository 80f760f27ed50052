//! The renderer's step in a tile's list, and its whole step.
ghost use Rattle.std.specs.Prelude.{◌≡◌, ◌+◌, ◌≤◌, ◌<◌, length, true, false, Some, None, IfSome, option_map};
ghost use Rattle.arrayvec.specs.ArrayVec.{array_vec_len};
ghost use Rattle.machine_plan.specs.Glance.{glance_result};
ghost use Rattle.machine_plan.specs.Turn.{Carries, CarriesOver, if_tame};
ghost use Rattle.list_machine.specs.Lists.{Lists, turned_to, quiet, renderer_ended, most_items};
ghost use Rattle.list_machine.specs.Renderer.{item_at, at_item, vertex_plan, program_plan, choice_plan, plan_in, renderer_plan, renderer_ready, has_renderer_work};

use crate::fetch::fetch_vertex;
use crate::job_lists::JobLists;
use crate::start::{Shader, start_program};
use crate::state::{Found, Item, Program, SubList};
use crate::turn::Turn;
use field_words::Way;
use machine_plan::{Accesses, Choices, Free, Launch, Reader, list_access};
use phys_mem::PhysMem;

/// The first item of a tile, from item `at` on.
fn find_item(items: &[Item], sub: SubList) -> Option<Found>
    requires { length items.now ≤ most_items }
    ensures value { result ≡ item_at sub items.now }
    ensures tile { IfSome result (λ found. sub.tile ≡ found.item.tile) }
    ensures near { IfSome result (λ found. found.number < most_items) }
{
    for i in sub.at..items.len() as u32 {
        let item = items[i as usize];
        if item.tile == sub.tile {
            return Some(Found { number: i, item });
        }
    }
    None
}

/// Fetches a vertex of an item, which choice word 1 chooses.
#[tactic(auto, unfolding(crate::specs::Renderer::vertex_plan))]
fn fetch_item<C: Choices>(item: &Item, words: &C, reader: &Reader, accesses: &mut Accesses)
    requires { array_vec_len accesses.old ≤ 8 }
    ensures { (s : Lists) → CarriesOver reader.now.who (vertex_plan s item.now (C.listed words.now))
        reader.now.memory.now accesses.old accesses.new (Some (quiet s)) }
{
    let length = item.primitive.length;
    if length != 0 {
        let k = words.word(1) % length;
        fetch_vertex(&item.primitive, item.word, k, reader, accesses);
    }
}

/// Starts a program of an item, if it can start now.
#[tactic(auto, unfolding(crate::specs::Renderer::program_plan))]
fn start_item(
    item: &Item,
    program: Program,
    free: &Free,
    reader: &Reader,
    accesses: &mut Accesses,
) -> Option<Launch>
    requires { array_vec_len accesses.old ≤ 8 }
    ensures { (s : Lists) → CarriesOver reader.now.who (program_plan s program free.now item.now)
        reader.now.memory.now accesses.old accesses.new (Some (turned_to s result)) }
{
    let shader = Shader {
        program,
        word: item.word,
    };
    start_program(shader, free, reader, accesses)
}

impl JobLists {
    /// Stands at an item, or past it.
    fn stand_at(&mut self, tile: u32, at: u32)
        ensures { self.new ≡ at_item self.old tile at }
    {
        self.go_inside(Some(SubList { tile, at }));
    }

    /// Does at an item of a tile's list what choice word 0 says.
    #[tactic(auto, unfolding(crate::specs::Renderer::choice_plan))]
    fn choose<C: Choices>(
        &mut self,
        found: &Found,
        turn: &Turn<C>,
        memory: &PhysMem,
        accesses: &mut Accesses,
    ) -> Option<Launch>
        requires near { found.now.number < most_items }
        requires room { array_vec_len accesses.old ≤ 8 }
        ensures { (sub : SubList) → sub.tile ≡ found.now.item.tile → CarriesOver turn.now.who
            (choice_plan self.old turn.now.free (C.listed turn.now.words.now) sub found.now)
            memory.now accesses.old accesses.new (Some (turned_to self.new result)) }
    {
        let choice = turn.words.word(0) % 4;
        if choice == 3 {
            self.stand_at(found.item.tile, found.number + 1);
            return None;
        }
        self.stand_at(found.item.tile, found.number);
        let reader = &Reader {
            who: turn.who,
            memory,
        };
        match choice {
            0 => {
                fetch_item(&found.item, turn.words, reader, accesses);
                None
            }
            1 => start_item(&found.item, Program::Vertex, &turn.free, reader, accesses),
            _ => start_item(&found.item, Program::Fragment, &turn.free, reader, accesses),
        }
    }

    /// A step in a tile's list: reads the item and does there what choice word 0 says; where there is
    /// none, leaves the tile's list.
    fn take_item<C: Choices>(
        &mut self,
        sub: SubList,
        turn: &Turn<C>,
        memory: &PhysMem,
        accesses: &mut Accesses,
    ) -> Option<Launch>
        requires { array_vec_len accesses.old ≤ 4 }
        ensures { CarriesOver turn.now.who
            (plan_in self.old turn.now.free (C.listed turn.now.words.now) (Some sub))
            memory.now accesses.old accesses.new (Some (turned_to self.new result)) }
    {
        match find_item(self.items(), sub) {
            None => {
                self.go_inside(None);
                None
            }
            Some(found) => {
                list_access(turn.who, Way::Read, found.item.place, 16, accesses);
                self.choose(&found, turn, memory, accesses)
            }
        }
    }

    /// A step outside of tile lists. False comes exactly where it is undefined; then the renderer's work ends.
    fn take_listed<C: Choices>(
        &mut self,
        turn: &Turn<C>,
        memory: &mut PhysMem,
        accesses: &mut Accesses,
    ) -> bool
        requires below { self.old.renderer.place < self.old.renderer.end }
        requires room { array_vec_len accesses.old ≤ 4 }
        ensures shows { let words = C.listed turn.now.words.now in
            Carries turn.now.who (plan_in self.old turn.now.free words None) memory.old memory.new
            accesses.old accesses.new (if_tame result (quiet self.new)) }
        ensures wild { result ≡ false → self.new ≡ renderer_ended self.old }
    {
        self.take_packet(turn, memory, accesses)
    }

    /// Whether the renderer has work: it is below its list's end, or in a tile's list.
    pub fn has_renderer_work(&self) -> bool
        ensures { result ≡ has_renderer_work self.now }
    {
        let renderer = self.renderer();
        renderer.place < renderer.end || renderer.inside.is_some()
    }

    /// One step of the job's renderer, which may step. Its accesses go behind those listed before.
    ///
    /// It comes to the program that the step starts, where it starts one. `None` comes exactly where the
    /// step is undefined; then a Wild access is listed behind those before it, and the renderer's work ends.
    #[tactic(auto, unfolding(crate::specs::Renderer::renderer_plan))]
    pub fn step_renderer<C: Choices>(
        &mut self,
        turn: &Turn<C>,
        memory: &mut PhysMem,
        accesses: &mut Accesses,
    ) -> Option<Option<Launch>>
        requires ready { glance_result (renderer_ready self.old) memory.old ≡ true }
        requires room { array_vec_len accesses.old ≤ 4 }
        ensures shows { let words = C.listed turn.now.words.now in Carries turn.now.who
            (renderer_plan self.old turn.now.free words) memory.old memory.new accesses.old
            accesses.new (option_map (turned_to self.new) result) }
        ensures wild { result ≡ None → self.new ≡ renderer_ended self.old }
    {
        match self.renderer().inside {
            Some(sub) => Some(self.take_item(sub, turn, memory, accesses)),
            None => {
                if self.take_listed(turn, memory, accesses) {
                    Some(None)
                } else {
                    None
                }
            }
        }
    }
}
