//! Shader records and the uniform streams of their shaders: checked, and emitted with places in memory.
//!
//! Each state of a binner list has a record in the job file, and its shaders take uniforms there. A record's
//! source is handles of its shaders' code and its attributes' data, and then the record; a shader's uniforms
//! are handles of its samples' textures and then the words of its stream. `Sources` in `specs/` says where
//! they lie, `Rules` which rules they are under, and `Emission` what is emitted of them.
#![tactic(auto)]

mod check;
mod copies;
mod emit;
mod fault;
mod faults;
mod info;
mod inputs;
mod laws;
mod record_rules;
mod record_text;
mod rule;
mod sizes;
mod stream_text;
mod uniform_rules;

pub use check::check_records;
pub use fault::RecordFault;
pub use info::RecordInfo;
pub use inputs::Inputs;
pub use laws::{records_are_facts, streams_are_facts};
pub use rule::RecordRule;
pub use sizes::{handles_size, source_size};
pub use uniform_rules::words_taken;
