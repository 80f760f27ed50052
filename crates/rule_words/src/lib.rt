//! Why a rule refuses, in words: sentences, and places.
#![tactic(auto)]

mod answers;
mod format;
mod lists;
mod name;
mod records;
mod shaders;
mod spot;
mod strict;
mod surfaces;

pub use name::{Family, RuleName, Words, explain, kind_named, rule_named};
pub use spot::Spot;
