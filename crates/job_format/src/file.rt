//! A job file as values.
use buffer_table::{Buffer, Regions};

/// A surface of a frame. `hindex` is an index into the job's handles; all ones mean that the
/// surface is absent. `offset` counts bytes from the start of the buffer.
#[derive(Clone, Copy, Debug, PartialEq, Eq)]
pub struct Surface {
    pub hindex: u32,
    pub offset: u32,
    pub bits: u16,
    pub flags: u16,
}

/// What a job renders: the size in pixels, the set of tiles from the smallest to the largest in x
/// and y, six surfaces (colour read, colour write, ZS read, ZS write, multisample colour write,
/// multisample ZS write), and the values to clear with.
#[derive(Clone, Copy, Debug, PartialEq, Eq)]
pub struct Frame {
    pub width: u16,
    pub height: u16,
    pub min_x: u8,
    pub min_y: u8,
    pub max_x: u8,
    pub max_y: u8,
    pub surfaces: [Surface; 6],
    pub clear: bool,
    pub clear_color: [u32; 2],
    pub clear_z: u32,
    pub clear_s: u8,
}

/// A job: the client that it belongs to, the buffers that it may name (by their numbers), its
/// binner list, its shader records with the number of shader states that it declares, its
/// uniforms, and its frame.
#[derive(Debug, Drop)]
pub struct Job {
    pub client: u32,
    pub handles: Vec<u32>,
    pub bin: Vec<u8>,
    pub records: Vec<u8>,
    pub declared: u32,
    pub uniforms: Vec<u8>,
    pub frame: Frame,
}

/// A job file. `contents` has one list of bytes for each buffer.
#[derive(Debug, Drop)]
pub struct JobFile {
    pub version: u32,
    pub mem_size: u32,
    pub regions: Regions,
    pub buffers: Vec<Buffer>,
    pub contents: Vec<Vec<u8>>,
    pub jobs: Vec<Job>,
}
