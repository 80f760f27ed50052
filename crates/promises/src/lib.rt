//! What is promised: the statements of the laws, in the order in which a reader needs them. Their proofs stand in the crates of the laws.
#![tactic(auto)]
