//! The configuration of the binner.
ghost use Rattle.std.specs.Prelude.{◌≡◌, length};
ghost use Rattle.packets.specs.Config.{config_in};

use byteorder::{ByteOrder, LittleEndian};

/// What opcode 112 sets: the place and size of the memory for tile lists, the place of the tiles'
/// states, and how many tiles there are across and down.
#[derive(Clone, Copy, Debug, PartialEq, Eq)]
pub struct Config {
    pub address: u32,
    pub size: u32,
    pub states: u32,
    pub tiles_x: u8,
    pub tiles_y: u8,
}

/// What a configuration sets.
#[tactic(auto, unfolding(crate::specs::Config::config_in, field_words::specs::Words::u32_at))]
pub fn config_in(packet: &[u8]) -> Config
    requires { length packet.now ≡ 16 }
    ensures { result ≡ config_in packet.now }
{
    Config {
        address: LittleEndian::read_u32(&packet[1..]),
        size: LittleEndian::read_u32(&packet[5..]),
        states: LittleEndian::read_u32(&packet[9..]),
        tiles_x: packet[13],
        tiles_y: packet[14],
    }
}
