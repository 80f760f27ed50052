//! Tests of hostile use: sources and sinks that fail, and scripts that aim at the bounds of jobs. Runs by words, input and output are cases
//! (the crate `cases`).
#![tactic(auto)]

#[cfg(test)]
mod failing_tests;
#[cfg(test)]
mod hostile_tests;
#[cfg(test)]
mod jobs;
#[cfg(test)]
mod runs;
