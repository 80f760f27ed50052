//! Collecting the shader states of a list.
ghost use Rattle.std.specs.Prelude.{◌≡◌, ◌≤◌, ◌<◌, ◌+◌, ◌^◌, ◌++◌, ◌∷◌, [], List, ℕ, length, OnOk, OnErr, IfOk, IsSome, ◌⊎◌};
ghost use Rattle.std.specs.Option.{option_to_list};
ghost use Rattle.field_words.specs.Words.{u32_at};
ghost use Rattle.packets.specs.Opcode.{array_primitive_list, gl_shader_state};
ghost use Rattle.packets.specs.Length.{bin_length};
ghost use Rattle.bin_list.specs.Packets.{opcode};
ghost use Rattle.bin_list.specs.States.{state, last_index, draws_to};
ghost use Rattle.bin_list.specs.Collected.{with_index, all_states};

use crate::cut::opcode;
use crate::state::State;
use field_words::word_at;
use packets::opcode::{ARRAY_PRIMITIVE_LIST, GL_SHADER_STATE, INDEXED_PRIMITIVE_LIST};
use std::alloc::{AllocError, Global};

/// The states before the one in view, and that one; and how many the job declares.
#[derive(Drop)]
pub(crate) struct States {
    done: Vec<State>,
    current: Option<State>,
    declared: u32,
}

/// Room for so many states is taken at once, if as many are declared.
const ROOM: u32 = 256;

/// The greatest index that a packet draws, 0 where it draws none.
#[tactic(auto, unfolding(crate::specs::States::draws_to, packets::specs::Length::bin_length))]
fn draws_to(packet: &[u8]) -> u32
    requires some { 1 ≤ length packet.now }
    requires whole { bin_length (opcode packet.now) ≤ length packet.now }
    requires fits { opcode packet.now ≡ array_primitive_list
        → u32_at packet.now 6 + u32_at packet.now 2 < 2 ^ 32 }
    ensures { result ≡ draws_to packet.now }
{
    match opcode(packet) {
        INDEXED_PRIMITIVE_LIST => word_at(packet, 10),
        ARRAY_PRIMITIVE_LIST => last_index(word_at(packet, 6), word_at(packet, 2)),
        _ => 0,
    }
}

/// The last of `count` indexes from `first` on, 0 where there are none.
fn last_index(first: u32, count: u32) -> u32
    requires { first + count < 2 ^ 32 }
    ensures { result ≡ last_index first count }
{
    if count == 0 {
        return 0;
    }
    first + count - 1
}

impl States {
    /// No states yet.
    pub(crate) fn new(alloc: Global, declared: u32) -> States
        ensures done { result.done.items ≡ [] }
        ensures current { result.current ≡ None }
    {
        States {
            done: Vec::new(alloc),
            current: None,
            declared,
        }
    }

    /// Keeps a state that is done. The first takes room for those to come.
    fn keep(&mut self, state: State) -> Result<(), AllocError>
        ensures done { OnOk result (self.new.done.items ≡ self.old.done.items ++ state ∷ []) }
        ensures current { self.new.current ≡ self.old.current }
    {
        if self.done.is_empty() {
            self.done.reserve(self.declared.min(ROOM) as usize)?;
        }
        self.done.push(state)?;
        Ok(())
    }

    /// Begins a state, which draws nothing yet.
    fn begin(&mut self, word: u32) -> Result<(), AllocError>
        ensures done { OnOk result (self.new.done.items ≡ self.old.done.items
            ++ option_to_list self.old.current) }
        ensures current { OnOk result (self.new.current ≡ Some (state word 0)) }
        ensures memory { OnErr result (IsSome self.old.current) }
    {
        if let Some(state) = self.current {
            self.keep(state)?;
        }
        self.current = Some(State { word, max_index: 0 });
        Ok(())
    }

    /// Draws up to an index.
    fn draw(&mut self, index: u32)
        ensures done { self.new.done.items ≡ self.old.done.items }
        ensures current { self.new.current ≡ with_index index self.old.current }
    {
        if let Some(state) = self.current {
            self.current = Some(State {
                word: state.word,
                max_index: state.max_index.max(index),
            });
        }
    }

    /// Takes the next packet in. Memory is taken only where a state came before it.
    #[tactic(auto, unfolding(packets::specs::Length::bin_length))]
    pub(crate) fn pass(&mut self, packet: &[u8]) -> Result<(), AllocError>
        requires some { 1 ≤ length packet.now }
        requires whole { bin_length (opcode packet.now) ≤ length packet.now }
        requires fits { opcode packet.now ≡ array_primitive_list
            → u32_at packet.now 6 + u32_at packet.now 2 < 2 ^ 32 }
        ensures states { OnOk result ((later : List (List ℕ)) → all_states self.new.done.items self.new.current later
            ≡ all_states self.old.done.items self.old.current (packet.now ∷ later)) }
        ensures begun { IsSome self.new.current
            → IsSome self.old.current ⊎ (opcode packet.now ≡ gl_shader_state) }
        ensures memory { OnErr result (IsSome self.old.current) }
    {
        if opcode(packet) == GL_SHADER_STATE {
            return self.begin(word_at(packet, 1));
        }
        self.draw(draws_to(packet));
        Ok(())
    }

    /// All states, behind the last packet.
    pub(crate) fn finish(self) -> Result<Vec<State>, AllocError>
        ensures states { IfOk result (λ states. states.items
            ≡ all_states self.done.items self.current []) }
        ensures memory { OnErr result (IsSome self.current) }
    {
        let States {
            mut done,
            current,
            ..
        } = self;
        if let Some(state) = current {
            done.push(state)?;
        }
        Ok(done)
    }
}
