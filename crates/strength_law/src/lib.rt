//! What safety refuses beside what `job_safety` says: every case that the machine leaves undefined, and every kind of read outside what its
//! job may reach. Whatever the memory, the state of the units and the rights, the machine isn't safe where such a step is next.
//!
//! Each law is named by a function with an empty body, so that a call can cite it.
#![tactic(auto)]

ghost use Rattle.strength_law.specs.Clients.{RightsAreOwn};
ghost use Rattle.strength_law.specs.Instructions.{IsRefused, HasUndefinedSignal, HasUndefinedMode, WritesUndefined, WritesTwoRequests, WritesUnderCondition, WritesFifthSetup, BranchesAnywhere, BranchesEarly, SwitchesEarly, SwitchesAlone, UsesUpper, TakesEarly, UniformsPastAreUnsafe};
ghost use Rattle.strength_law.specs.Packets.{BinningsBlindAreUnsafe, PrimitivesEarlyAreUnsafe, IsRefusedPacket, BranchesNowhere, LoadsTwice, StoresNothing, LoadsNothing, LoadsPastAreUnsafe};
ghost use Rattle.strength_law.specs.Requests.{TexturesUndefinedAreUnsafe};
ghost use Rattle.strength_law.specs.Rows.{ConfigurationFlags, FrameEdges};
ghost use Rattle.strength_law.specs.Vertices.{ItemReadsPastAreUnsafe, IndexesPastAreUnsafe, AttributesPastAreUnsafe, RecordsPastAreUnsafe};

/// An instruction that is undefined by itself is not safe: by its signal, by the mode of its load immediate, by a register that is nobody's
/// to write, by two writes to texture units, or by one under a condition.
pub fn undefined_instructions_are_unsafe()
    ensures signals { IsRefused HasUndefinedSignal }
    ensures modes { IsRefused HasUndefinedMode }
    ensures names { IsRefused WritesUndefined }
    ensures two_requests { IsRefused WritesTwoRequests }
    ensures conditions { IsRefused WritesUnderCondition }
{}

/// An instruction that is undefined where it stands is not safe: a branch by a register or to an absolute place; a branch or a switch where
/// one has yet to act; a switch or an upper register in the wrong kind of program; a fifth set-up word; a uniform one or two after a write
/// of the uniforms' address.
pub fn misplaced_instructions_are_unsafe()
    ensures branches { IsRefused BranchesAnywhere }
    ensures early_branches { IsRefused BranchesEarly }
    ensures early_switches { IsRefused SwitchesEarly }
    ensures lone_switches { IsRefused SwitchesAlone }
    ensures registers { IsRefused UsesUpper }
    ensures setups { IsRefused WritesFifthSetup }
    ensures uniforms { IsRefused TakesEarly }
{}

/// A uniform outside its job's region is not safe.
pub fn uniforms_past_are_unsafe()
    ensures { UniformsPastAreUnsafe }
{}

/// What either list unit reads of a vertex is not safe where it doesn't lie in the job's region: the index, the bytes of an attribute, the
/// word that extends its stride, or the vertex's data.
pub fn vertices_past_are_unsafe()
    ensures indexes { IndexesPastAreUnsafe }
    ensures attributes { AttributesPastAreUnsafe }
{}

/// Nor is the start of a program, by either list unit, whose record doesn't lie there.
pub fn records_past_are_unsafe()
    ensures { RecordsPastAreUnsafe }
{}

/// Nor is an item of a tile's list, or the load of a tile, that the renderer reads outside.
#[tactic(auto, using(crate::proofs::Vertices::item_reads_past_law, crate::proofs::Packets::loads_past_law))]
pub fn render_reads_past_are_unsafe()
    ensures items { ItemReadsPastAreUnsafe }
    ensures loads { LoadsPastAreUnsafe }
{}

/// A packet that is undefined where it stands is not safe: binning without a configuration; a primitive before binning is started or
/// before there is a state word; a branch into tile lists that aren't closed, or to no tile's list; a load where one waits; a store or a
/// load without a surface.
pub fn misplaced_packets_are_unsafe()
    ensures binnings { BinningsBlindAreUnsafe }
    ensures primitives { PrimitivesEarlyAreUnsafe }
    ensures branches { IsRefusedPacket BranchesNowhere }
    ensures second_loads { IsRefusedPacket LoadsTwice }
    ensures stores { IsRefusedPacket StoresNothing }
    ensures loads { IsRefusedPacket LoadsNothing }
{}

/// A texture whose set-up words are undefined is not safe: a cube map of two strides or of none, a type that isn't listed, a child image.
pub fn undefined_textures_are_unsafe()
    ensures { TexturesUndefinedAreUnsafe }
{}

/// Of a file in which no rule is broken, what each job may reach is its tile slot, its four emitted lists, and buffers of its own client.
#[tactic(auto, using(crate::proofs::Clients::rights_own_law))]
pub fn rights_are_own()
    ensures { RightsAreOwn }
{}

/// The flag bits of a configuration that B16 refuses, and those that it doesn't.
#[tactic(auto, using(crate::proofs::Rows::configuration_flags))]
pub fn configuration_flags()
    ensures { ConfigurationFlags }
{}

/// The frames whose last tile G3 refuses, and the nearest that it doesn't.
#[tactic(auto, using(crate::proofs::Rows::frame_edges))]
pub fn frame_edges()
    ensures { FrameEdges }
{}
