//! Sizes and limits that several crates speak of, in bytes where nothing else is said. The
//! definitions have the same names, in `specs/Sizes.antt`.

/// A page: each place and size of a buffer or region is a multiple of it.
pub const PAGE_SIZE: u32 = 4096;

/// A tile slot: the tile memory of one job.
pub const SLOT_SIZE: u32 = 524_288;

/// The most bytes of memory that a job file may have: 64 MiB.
pub const MOST_MEMORY: u32 = 67_108_864;

/// The most bytes of a binner list, of the shader records and of the uniforms of a job, and of the
/// input of the commands on shader text: 1 MiB each.
pub const MOST_LIST: u32 = 1_048_576;

/// The most bytes of a shader.
pub const MOST_CODE: u32 = 65_536;

/// The most instruction words of a shader, of eight bytes each.
pub const MOST_WORDS: u32 = 8192;
