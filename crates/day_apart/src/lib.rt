//! The law that clients whose jobs come and go are apart.
#![tactic(auto)]

ghost use Rattle.day_apart.specs.Apart.{DaysApart};

/// Two days, from idle machines on, in which a client's jobs come with the same numbers over the same bytes, take the same steps, find the same
/// registers and go: they make the same accesses, and what they may reach holds the same bytes, whatever other clients' jobs come, run and go
/// in either, and whatever others write.
pub fn days_apart()
    ensures { DaysApart }
{}
