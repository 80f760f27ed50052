//! What an emitted uniform stream, shader record and primitive are to whoever runs them.
//!
//! The crate has no code: `Records` says what the words of a record are, with lemmas on what lies in one, and `Facts` what the
//! machine may count on. What is emitted is shown to be that by the crates that emit it, and the laws on the
//! machine use nothing else.
#![tactic(auto)]
