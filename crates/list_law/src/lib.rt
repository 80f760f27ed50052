//! The laws of a job's binner and renderer.
//!
//! The crate has laws on definitions alone. From all that stands of what the job's list units keep
//! (`specs::Lists::ListsFine`), one step of either unit looks in the job's region, does accesses that are safe
//! by the job's rights, and starts only programs that may be started; and all stands again. The laws speak of
//! one job's rights and count no jobs. Those in `proofs/` of the same names speak of any memories and of any
//! condition on programs; those here, of the memories of runs and of a test.
#![tactic(auto)]

ghost use Rattle.list_law.specs.Laws.{FetchKeeps, StartFine, BinnerKeeps, RendererKeeps, RendererLooks, StoreFine, LoadFine};
ghost use Rattle.list_law.specs.Start.{ListsBegin, HeadSets};
ghost use Rattle.list_law.specs.Emitted.{EmittedFetches, EmittedPrograms};

/// A vertex of a primitive is fetched by safe reads alone, where the primitive's indexes, the attributes of its
/// record and the data of each vertex that counts lie in the job's region.
#[tactic(auto, using(crate::proofs::Fetching::fetch_keeps))]
pub fn fetch_keeps()
    ensures { FetchKeeps }
{}

/// A program is started by safe reads alone, and is one that may be started, where that is so of each program of
/// the state word's record.
pub fn start_fine()
    ensures { StartFine }
{}

/// One step of the binner keeps all that stands, where the job may write the memory of its tile lists.
pub fn binner_keeps()
    ensures { BinnerKeeps }
{}

/// One step of the renderer keeps all that stands.
pub fn renderer_keeps()
    ensures { RendererKeeps }
{}

/// Whether the renderer may step is seen in the job's region.
pub fn renderer_looks()
    ensures { RendererLooks }
{}

/// All that a store of one tile writes lies in its surface, at whatever tile.
#[tactic(auto, using(crate::proofs::Rendering::store_fine))]
pub fn store_fine()
    ensures { StoreFine }
{}

/// All that a load of one tile reads lies in its surface, at whatever tile.
#[tactic(auto, using(crate::proofs::Rendering::load_fine))]
pub fn load_fine()
    ensures { LoadFine }
{}

/// All stands at the start, where the two lists of a job walk, stand in memory and lie in its region.
pub fn lists_begin()
    ensures { ListsBegin }
{}

/// Of the renderer list that is written for a job, its head alone sets a frame.
#[tactic(auto, using(crate::proofs::Start::head_sets))]
pub fn head_sets()
    ensures { HeadSets }
{}

/// A primitive that was emitted may be fetched under a record that was emitted for it, where the record stands in
/// memory and the data that the job may name lie in its region.
pub fn emitted_fetches()
    ensures { EmittedFetches }
{}

/// Each program of a record that stands in memory may be started, where the three that its words name may be. The
/// fragment program is threaded where the flags don't say that it is single-threaded.
pub fn emitted_programs()
    ensures { EmittedPrograms }
{}
