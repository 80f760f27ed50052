//! The law that strict jobs do nothing that the hardware's guide forbids.
//!
//! The crate has laws on definitions alone. `specs::Forbidden` says in the machine's words which step of a thread the guide forbids;
//! the law is that no step is one of them, in each run of jobs whose shaders break no strict rule, also while others write, and while
//! jobs come and go. The laws say nothing of job files, and name no number of jobs.
#![tactic(auto)]

ghost use Rattle.strict_law.specs.Strict.{StrictJobsObey};
ghost use Rattle.strict_law.specs.Days.{StrictDaysObey};
ghost use Rattle.strict_law.specs.Order.{RunsTakeOldest, LoadsTakeOldest};
ghost use Rattle.strict_law.specs.Roles.{RunsKeepRoles, DaysKeepRoles};
ghost use Rattle.strict_law.specs.Lists.{StrictListsObey, StrictBinnersObey};
ghost use Rattle.strict_law.specs.TileSlots.{SlotsKeepTop};
ghost use Rattle.strict_law.specs.Slots.{RunsHaveRoom, DaysHaveRoom};

/// In each state to which a run of strict jobs comes, no event is forbidden.
#[tactic(auto, using(crate::proofs::Runs::strict_jobs_obey_law))]
pub fn strict_jobs_obey()
    ensures { StrictJobsObey }
{}

/// So it is where jobs come and go: after whatever may happen to a machine to which only strict jobs are admitted, no event is forbidden.
pub fn strict_days_obey()
    ensures { StrictDaysObey }
{}

/// In each run of strict jobs, a load takes the oldest request that its processor has sent to the texture unit and not loaded, both threads'
/// counted.
pub fn runs_take_oldest()
    ensures { RunsTakeOldest }
{}

/// So it is where jobs come and go.
pub fn loads_take_oldest()
    ensures { LoadsTakeOldest }
{}

/// In each run of strict jobs, no thread that was started as a fragment program executes an instruction that uses the VPM, and none that was
/// started as a vertex or coordinate program one that uses the tile buffer, the scoreboard or varyings.
pub fn runs_keep_roles()
    ensures { RunsKeepRoles }
{}

/// So it is where jobs come and go.
pub fn days_keep_roles()
    ensures { DaysKeepRoles }
{}

/// In each run of strict jobs, no packet is forbidden that a binner executes, after those that it executed for its job.
#[tactic(auto, using(crate::proofs::Lists::strict_lists_obey_law))]
pub fn strict_lists_obey()
    ensures { StrictListsObey }
{}

/// So it is where jobs come and go.
pub fn strict_binners_obey()
    ensures { StrictBinnersObey }
{}

/// Any address in a tile slot that E12 doesn't refuse has the top four bits of the slot's place.
#[tactic(auto, using(crate::proofs::TileSlots::slots_keep_top_law))]
pub fn slots_keep_top()
    ensures { SlotsKeepTop }
{}

/// In each state to which a run of strict jobs comes, each processor's requests, and the words that are kept for others, fill at most its
/// eight slots, and those of a threaded program at most four.
pub fn runs_have_room()
    ensures { RunsHaveRoom }
{}

/// So it is where jobs come and go.
pub fn days_have_room()
    ensures { DaysHaveRoom }
{}
