//! Clients of an accepted file are apart.
ghost use Rattle.accepted_law.specs.Neighbours.{ClientsUnshared, EmittedAlike, AcceptedApart};

/// No byte that the jobs of a client may reach may be written by another client's job: each handle names a buffer of its job's own client,
/// no two buffers share a byte, each job has a tile slot of its own, and the lists lie in their region.
#[tactic(auto, using(crate::proofs::Unshared::clients_unshared_law))]
pub fn clients_are_unshared()
    ensures { ClientsUnshared }
{}

/// The memories that two accepted neighbours are emitted as are alike to the client, where they are as long, the lists of its jobs are the
/// same, and so are the contents of the buffers that its jobs' handles name.
#[tactic(auto, using(crate::proofs::Emitted::emitted_alike_law))]
pub fn neighbours_are_emitted_alike()
    ensures { EmittedAlike }
{}

/// Two accepted files that are neighbours for a client are the same to it: in every two runs of them, from memories that have their lists
/// and code and agree where the client's jobs may reach, and in which these jobs take the same steps with the same words, the client's
/// accesses are the same, and so are the bytes there at the end. So it is also while others write what isn't this client's.
#[tactic(auto, using(crate::proofs::Neighbours::accepted_apart_law))]
pub fn accepted_clients_are_apart()
    ensures { AcceptedApart }
{}
