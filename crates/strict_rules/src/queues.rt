//! A queue of requests.
ghost use Rattle.std.specs.Prelude.{◌≡◌, ◌≤◌, length, drop};
ghost use Rattle.strict_rules.specs.Queue.{slots_in};
ghost use Rattle.strict_rules.specs.Rules.{has_older};

use crate::state::Request;

/// The slots of a queue's requests.
pub(crate) fn slots_in(queue: &[Request]) -> u32
    requires few { length queue.now ≤ 4 }
    ensures value { result ≡ slots_in queue.now }
    ensures small { result ≤ 262140 }
{
    let mut slots = 0;
    for request in queue {
        slots += u32::from(request.slots);
    }
    slots
}

/// Whether some request was sent before the instruction `acted`.
#[tactic(auto, using(std::proofs::lemmas::List::Folds::list_any_at, std::proofs::lemmas::List::Folds::list_any_more))]
pub(crate) fn has_older(queue: &[Request], acted: u32) -> bool
    ensures { result ≡ has_older acted queue.now }
{
    for request in queue {
        if request.sent < acted {
            return true;
        }
    }
    false
}

/// Whether a request behind the first `taken` was sent before the last switch acted.
pub(crate) fn has_older_behind(queue: &[Request], taken: usize, acted: u32) -> bool
    ensures { result ≡ has_older acted (drop taken queue.now) }
{
    if taken >= queue.len() {
        return false;
    }
    has_older(&queue[taken..], acted)
}
