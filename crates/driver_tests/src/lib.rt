//! Tests of how long the shaders of a job wait (`job_bound`).
#![tactic(auto)]

#[cfg(test)]
mod wait_tests;
