//! The memory table of a job: its buffers and regions, checked against the memory.
#![tactic(auto)]

mod buffer;
mod handles;
mod item;
mod sorted;
mod table;

pub use buffer::{Buffer, Kind, Regions, TableFault, TableRule};
pub use handles::{Handles, use_code, use_data};
pub use item::{Item, item_at};
pub use table::{MOST_PLACE, Table, first_fault_is_least, sharing_means_a_byte};
