//! The packets of control lists, named once.
//!
//! A control list is a row of packets: an opcode byte, and the packet's fields behind it. `opcode`
//! names the opcodes that the two list units know, as the hardware guide names their packets, and
//! `bin_length` tells how long a binner's packet is; `record_size` tells what a shader state's word says
//! of its record, and `config_in` what a configuration sets. What cuts a binner list, what writes a
//! renderer list and what reads either one go by this table.
#![tactic(auto)]

mod config;
mod length;
mod list;
pub mod opcode;
mod packet;
mod state_word;

pub use config::{Config, config_in};
pub use length::{bin_length, bin_taken, render_taken};
pub use list::{put_packet, put_present, put_slot};
pub use packet::{Packet, decode};
pub use state_word::{attribute_count, is_extended, record_room, record_size};
