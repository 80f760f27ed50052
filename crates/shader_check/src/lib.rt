//! The shader checker: which shaders may run, and what an accepted one takes and reads.
//!
//! A shader from a stranger may branch, switch threads, set its uniforms' address and read memory. The rules S1 to S27 refuse
//! whatever the checker can't follow: `Rules` in `specs/` has those on facts and on the whole shader, and all of them in the
//! order of refusal; the crates below have the others. `Info` says what is reported of an accepted shader.
#![tactic(auto)]

mod check;
mod facts;
mod fault;
mod samples;
mod walk;
mod whole;

pub use check::{check_code, check_shader};
pub use fault::ShaderFault;
pub use shader_flow::ShaderRule;
pub use whole::S1_NO_WORDS;
