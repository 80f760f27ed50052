//! Bytes in and out.
//!
//! A `Source` gives bytes and a `Sink` takes them, a piece at a time, and either may fail. A
//! failure is no value that travels on: it raises a count that the source or sink keeps, so that a
//! caller's contract can say "this answer comes only where the count rose". `read_all` and
//! `write_all` are the two loops over them. Two of the kinds keep their bytes in memory, one gives them
//! without a failure and one takes them without keeping any, and they say exactly what each call does. The
//! two adapters over std's `Read` and `Write` are the edge to the outside: they tell the bytes that their
//! reader or writer tells.
#![tactic(auto)]

mod adapters;
mod give;
mod memory;
mod steady;
mod traffic;
mod whole;

pub use adapters::{ReaderSource, WriterSink};
pub use memory::{MemSink, MemSource};
pub use steady::{NullSink, SteadySource};
pub use traffic::{Failed, Sink, Source};
pub use whole::{ReadEnd, read_all, write_all};
