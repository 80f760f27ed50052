//! What each job of an accepted file begins with: from the rules and from what emission comes to, all that the laws of the machine's
//! units ask.
#![tactic(auto)]

mod bins;
mod clients;
mod memory;
mod records;
mod renders;
mod rights;
mod whole;

pub use bins::{bins_walk, draws_begin};
pub use clients::{accepted_clients_are_apart, clients_are_unshared, neighbours_are_emitted_alike};
pub use memory::{bin_texts_begin, files_allocate, files_ground, files_settle, render_texts_begin};
pub use records::records_launch;
pub use renders::renders_walk;
pub use rights::{lists_and_code_are_fixed, rights_are_held};
pub use whole::{accepted_files_are_sound, files_begin, prepared_memories_agree};
