//! Tests of the memory table (`buffer_table`), and of where a job's tile slot (`strict_lists`) and textures (`texture_layouts`) lie. A crate with tests is proved twice, so those of several crates stand in one, which has nothing else.
#![tactic(auto)]

#[cfg(test)]
mod buffer_table_tests;
#[cfg(test)]
mod strict_lists_tests;
#[cfg(test)]
mod texture_layouts_tests;
