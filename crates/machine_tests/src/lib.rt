//! Tests of arithmetic (`qpu_alu`), of shader processors (`qpu_machine`), and of machines with their list units
//! (`machine`). A crate with tests is proved twice, so those of many crates stand in one, which has nothing else.
#![tactic(auto)]

#[cfg(test)]
mod instruction_tests;
#[cfg(test)]
mod list_unit_tests;
#[cfg(test)]
mod qpu_alu_tests;
#[cfg(test)]
mod qpu_machine_tests;
