//! A job that is accepted and uses what the machine has, alone and beside another client's, so that what is proved of accepted files
//! isn't empty.
#![tactic(auto)]

ghost use Rattle.textured_job.specs.Laws.{IsWitness, IsWitnessOfTwo, AreWitnesses, textured_bytes, two_clients_bytes, one_client_bytes};

/// The law that these 536 bytes break no rule, also no strict one, and that they are the file of one job with a binner list whose fragment
/// shader has two threads, takes a texture and reads directly.
#[tactic(auto, using(crate::proofs::Witness::textured_witness))]
pub fn textured_job_is_accepted()
    ensures { IsWitness textured_bytes }
{}

/// The law that these 1,036 bytes break no rule, also no strict one, and that they are the file of two such jobs of two clients, on one
/// machine.
#[tactic(auto, using(crate::proofs::Witness::two_clients_witness))]
pub fn two_clients_are_accepted()
    ensures { IsWitnessOfTwo two_clients_bytes }
{}

/// The law that these two files are accepted and neighbours for client 1, whose job is the same in both: client 2 has such a job in the
/// first, and isn't in the second.
#[tactic(auto, using(crate::proofs::Neighbours::neighbours_witness))]
pub fn neighbours_are_accepted()
    ensures { AreWitnesses two_clients_bytes one_client_bytes }
{}
