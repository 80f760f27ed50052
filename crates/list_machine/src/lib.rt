//! The list units of the machine: what a job's binner and renderer keep, and their steps.
#![tactic(auto)]

mod binner;
mod blocks;
mod cover;
mod fetch;
mod inside;
mod job_lists;
mod parts;
mod reads;
mod renderer;
mod start;
mod state;
mod surface;
mod turn;

pub use job_lists::{JobLists, MOST_ITEMS};
pub use state::{
    Binner, Found, Frame, Item, Kept, Load, Primitive, Program, Renderer, Spot, SubList, Work,
};
pub use surface::{Cover, Tile};
pub use turn::Turn;
