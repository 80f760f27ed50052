//! The renderer list of a frame.
#![tactic(auto)]

mod fault;
mod frame;
mod setup;
mod size;
mod slots;
mod surfaces;
mod text;
mod tile;

pub use fault::{FrameRule, RenderFault};
pub use setup::Setup;
pub use size::render_size;
pub use surfaces::{check_surfaces, full_end, plain_end};
pub use text::build;
