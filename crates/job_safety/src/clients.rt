//! Clients of accepted files are apart.
ghost use Rattle.promises.specs.Apart.{BytesApart};

/// The law that clients are apart: whichever bytes they are, two files that are neighbours for a client, and in which no rule is broken. In
/// every two runs of them in which that client's jobs take the same steps, in the same order, on the same units and threads and with the
/// same words, from memories with their lists and code that agree where these jobs may reach, what these jobs access is the same, and so
/// is at the end what they may reach. It doesn't matter what jobs of other clients are there and what they do, nor what others write
/// meanwhile that isn't this client's.
#[tactic(auto, using(crate::proofs::Safety::bytes_apart_law))]
pub fn clients_are_apart()
    ensures { BytesApart }
{}
