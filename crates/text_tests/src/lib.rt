//! Tests of input and output, of instructions' familiar texts, and of the words of rules. A crate with tests is proved twice, so those of several crates stand in
//! one, which has nothing else.
#![tactic(auto)]

#[cfg(test)]
mod job_io_tests;
#[cfg(test)]
mod qpu_text_tests;
#[cfg(test)]
mod rule_words_tests;
