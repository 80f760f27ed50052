//! What stands before a packet.
ghost use Rattle.std.specs.Prelude.{◌≡◌, ◌≤◌, ◌+◌, [], length};
ghost use Rattle.field_words.specs.Sizes.{most_list};
ghost use Rattle.packets.specs.Length.{bin_length};
ghost use Rattle.bin_list.specs.Packets.{opcode};
ghost use Rattle.bin_list.specs.Fine.{IsBounded};
ghost use Rattle.bin_list.specs.Seen.{seen_before, seen_after, seen_past};

use crate::cut::opcode;
use field_words::{byte_at, word_at};
use packets::opcode::{BUFFER_HANDLES, GL_SHADER_STATE, START_TILE_BINNING, TILE_BINNING_MODE};
use packets::record_room;

/// All that a packet's rules and its emission ask of the packets before it.
///
/// `at` is where the packet begins in the list. `last` and `before_last` are the opcodes of the two packets directly before
/// it, 0 where there is none. `configured` and `started` say whether a configuration and a start of binning came, `states` how
/// many shader states came, and `records` how many bytes their emitted records take. `index_handle` is the handle of the index
/// buffer, 0 at first. `tiles_x` and `tiles_y` are the grid of the configuration, 0 before one.
#[derive(Clone, Copy, Debug, PartialEq, Eq)]
pub struct Seen {
    pub at: u32,
    pub last: u8,
    pub before_last: u8,
    pub configured: bool,
    pub started: bool,
    pub states: u32,
    pub records: u32,
    pub index_handle: u32,
    pub tiles_x: u8,
    pub tiles_y: u8,
}

impl Seen {
    /// Before the first packet.
    #[tactic(auto, unfolding(crate::specs::Seen::seen_before))]
    pub(crate) fn nothing() -> Seen
        ensures { result ≡ seen_before [] }
    {
        Seen {
            at: 0,
            last: 0,
            before_last: 0,
            configured: false,
            started: false,
            states: 0,
            records: 0,
            index_handle: 0,
            tiles_x: 0,
            tiles_y: 0,
        }
    }

    /// Goes on behind this packet.
    #[tactic(auto, unfolding(crate::specs::Seen::seen_after, packets::specs::Length::bin_length))]
    pub(crate) fn go_past(&mut self, packet: &[u8])
        requires some { 1 ≤ length packet.now }
        requires whole { bin_length (opcode packet.now) ≤ length packet.now }
        requires place { self.old.at + length packet.now ≤ most_list }
        requires bounded { IsBounded self.old }
        ensures value { self.new ≡ seen_after self.old packet.now }
        ensures bounded { IsBounded self.new }
    {
        self.at += packet.len() as u32;
        self.before_last = self.last;
        self.last = opcode(packet);
        match opcode(packet) {
            START_TILE_BINNING => self.started = true,
            GL_SHADER_STATE => {
                self.states += 1;
                self.records += record_room(word_at(packet, 1));
            }
            TILE_BINNING_MODE => {
                self.configured = true;
                self.tiles_x = byte_at(packet, 13);
                self.tiles_y = byte_at(packet, 14);
            }
            BUFFER_HANDLES => self.index_handle = word_at(packet, 1),
            _ => {}
        }
    }

    /// Goes on behind this packet, which tells nothing to later ones.
    #[inline(always)]
    #[tactic(auto, unfolding(crate::specs::Seen::seen_past))]
    pub(crate) fn go_past_plain(&mut self, packet: &[u8])
        requires some { 1 ≤ length packet.now }
        requires place { self.old.at + length packet.now ≤ most_list }
        requires bounded { IsBounded self.old }
        ensures value { self.new ≡ seen_past self.old packet.now }
        ensures bounded { IsBounded self.new }
    {
        self.at += packet.len() as u32;
        self.before_last = self.last;
        self.last = opcode(packet);
    }
}
