//! A shader processor (QPU) and its texture and memory units: what an instruction reads, computes, writes and asks for.
//!
//! `specs/` says the hardware's rules, each as one definition: operands and results by element (`Operands`), what is written
//! (`Writes`), where the hardware leaves undefined what happens (`Wild`), and the whole instruction as a plan (`Step`). What
//! the hardware leaves open is answered by choice words. A step takes no memory.
#![tactic(auto)]

mod effects;
mod lanes;
mod operands;
mod qpu;
mod reads;
mod request;
mod serving;
mod settle;
mod start;
mod starting;
mod state;
mod step;
mod wild;

pub use qpu::{is_qpu_idle, is_qpu_ready};
pub use request::serve;
pub use serving::{is_tmu_ready, step_tmu, tmu_job};
pub use settle::{qpu_job, step_qpu};
pub use start::start_thread;
pub use starting::{free_in, idle_qpu, start_in};
pub use state::{Ask, Asked, Fate, Leaves, Mark, Qpu, Request, Row, Thread};
pub use step::{is_ready, step_thread};
