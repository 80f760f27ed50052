//! How many steps a binner list takes, and for how many items it makes room.
ghost use Rattle.std.specs.Prelude.{◌≡◌, ◌≤◌, ◌+◌, ◌*◌, ◌/◌, length};
ghost use Rattle.field_words.specs.Sizes.{most_list};
ghost use Rattle.field_words.specs.Words.{u32_at};
ghost use Rattle.bin_list.specs.Packets.{packets, draws};
ghost use Rattle.list_machine.specs.Lists.{most_items};
ghost use Rattle.ends_law.specs.Left.{IsWhole, AllWhole};
ghost use Rattle.promises.specs.Steps.{items_within, room_in, room_of, packet_steps, bin_steps};
ghost use Rattle.job_bound.specs.Bound.{most_program, most_packet};

use bin_list::{draws, split_front};
use byteorder::{ByteOrder, LittleEndian};
use field_words::round_up;
use packets::opcode::TILE_BINNING_MODE;
use packets::{Config, config_in};

/// How many vertices the primitive has that a packet draws.
#[tactic(auto, unfolding(field_words::specs::Words::u32_at))]
fn vertices(packet: &[u8]) -> u32
    requires { 6 ≤ length packet.now }
    ensures { result ≡ u32_at packet.now 2 }
{
    LittleEndian::read_u32(&packet[2..])
}

/// The steps of a primitive of so many vertices beside its items, where no program takes more than `longest`.
fn primitive_steps(longest: u32, vertices: u32) -> u128
    requires { longest ≤ most_program }
    ensures value { result ≡ vertices + (1 + longest) * ((vertices + 15) / 16) + 1 }
    ensures few { result + 1 ≤ most_packet }
{
    let programs = (u128::from(vertices) + 15) / 16;
    u128::from(vertices) + (1 + u128::from(longest)) * programs + 1
}

/// The steps that a packet takes, with those of the primitive that it draws.
#[tactic(auto, using(crate::proofs::Packets::draw_is, crate::proofs::Packets::other_is, crate::proofs::Packets::long_draw))]
fn packet_steps(longest: u32, packet: &[u8]) -> u128
    requires longest { longest ≤ most_program }
    requires whole { IsWhole packet.now }
    ensures value { result ≡ packet_steps longest packet.now }
    ensures few { result ≤ most_packet }
{
    if !draws(packet) {
        return 1;
    }
    1 + primitive_steps(longest, vertices(packet))
}

/// The steps that the packets of a binner list take.
pub fn bin_steps(longest: u32, list: &[u8]) -> u128
    requires longest { longest ≤ most_program }
    requires short { length list.now ≤ most_list }
    requires whole { AllWhole (packets list.now) }
    ensures value { result ≡ bin_steps longest (packets list.now) }
    ensures few { result ≤ most_packet * most_list }
{
    let mut steps = 0;
    let mut rest = list;
    while !rest.is_empty() {
        let (packet, behind) = split_front(rest);
        steps += packet_steps(longest, packet);
        rest = behind;
    }
    steps
}

/// For how many items the tile lists have room under a configuration: one in each tile's first block, and seven in each further block.
#[tactic(auto, using(list_machine::proofs::Putting::tiles_limit), unfolding(promises::specs::Steps::items_within, list_machine::specs::Blocks::tiles_of, list_machine::specs::Blocks::further_offset))]
fn items_within(config: &Config) -> u64
    ensures value { result ≡ items_within config.now }
    ensures few { result ≤ most_items }
{
    let tiles = u64::from(config.tiles_x) * u64::from(config.tiles_y);
    let further = round_up(32 * tiles, 128);
    let blocks = u64::from(config.size).saturating_sub(further) / 128;
    (tiles + 7 * blocks).min(32768)
}

/// For how many items a packet makes room, where it sets a configuration.
#[tactic(auto, unfolding(promises::specs::Steps::room_in, packets::specs::Length::bin_length))]
fn packet_room(packet: &[u8]) -> u64
    requires { IsWhole packet.now }
    ensures value { result ≡ room_in packet.now }
    ensures few { result ≤ most_items }
{
    if packet[0] == TILE_BINNING_MODE {
        return items_within(&config_in(packet));
    }
    0
}

/// For how many items the tile lists have room under the configuration that a binner list sets.
pub fn room(list: &[u8]) -> u64
    requires { AllWhole (packets list.now) }
    ensures value { result ≡ room_of (packets list.now) }
    ensures few { result ≤ most_items }
{
    let mut most = 0;
    let mut rest = list;
    while !rest.is_empty() {
        let (packet, behind) = split_front(rest);
        most = most.max(packet_room(packet));
        rest = behind;
    }
    most
}
