//! What a person learns of a refusal beside its sentence: the numbers in the file that break the rule, as a short text, and the line in
//! which they stand.
#![tactic(auto)]

mod fact;
mod facts;
mod format;
mod known;
mod line;
mod list_text;
mod lists;
mod records;
mod region;
mod sources;
mod surfaces;
mod table;
mod text;
mod textures;

pub use fact::{
    AttributeFact, BufferFact, EndFact, Facts, HandleFact, IndexFact, ItemFact, NameFact, PairFact,
    PastFact, PixelsFact, RoomFact, StateFact, ThreadFact, UseFact, VertexFact,
};
pub use facts::facts_of;
pub use format::size_of;
pub use line::{Line, line_of};
pub use text::Inside;
