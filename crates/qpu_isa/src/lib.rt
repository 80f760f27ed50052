//! The instruction words of a QPU (quad processing unit, the VideoCore IV's shader processor).
//!
//! A word's fields and what the rules on shaders and the machine say of one instruction have one name each, here. The modules
//! `word` (fields and kinds), `writes` (write addresses, TMUs, uniforms) and `operands` tell them from the word itself, without
//! decoding; `specs/` has the same by the same names in `Word`, `Terms` and `Setups`. `decode` and `encode` go between a word and
//! its fields as an `Inst`.
#![tactic(auto)]

mod coding;
mod inst;
pub mod operands;
mod terms;
pub mod word;
pub mod writes;

pub use coding::{decode, encode, fits, words_return};
pub use inst::{Alu, Branch, Inst, LoadImm, Reg, Sample, ShaderInfo};
pub use terms::{reads_uniform, targets_are_sums, terms_agree, tmu_of, writes_reg};
