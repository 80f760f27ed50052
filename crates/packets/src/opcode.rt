//! The opcodes, by the names that the hardware guide gives to their packets. A comment says what
//! follows the opcode, in order; numbers are little endian.

/// Ends the list.
pub const HALT: u8 = 0;

/// Does nothing.
pub const NOP: u8 = 1;

/// Flush: closes the tile lists, and adds the pending increments to the semaphore.
pub const FLUSH: u8 = 4;

/// Start tile binning.
pub const START_TILE_BINNING: u8 = 6;

/// Increment semaphore: adds one to the increments that are pending.
pub const INCREMENT_SEMAPHORE: u8 = 7;

/// Wait on semaphore: waits until the semaphore isn't 0, and takes one from it.
pub const WAIT_ON_SEMAPHORE: u8 = 8;

/// Branch to sub-list: address u32.
pub const BRANCH_TO_SUB_LIST: u8 = 17;

/// Store multi-sample resolved tile colour buffer.
pub const STORE_TILE_COLOR: u8 = 24;

/// Store multi-sample resolved tile colour buffer, and signal the end of the frame.
pub const STORE_TILE_COLOR_AND_END: u8 = 25;

/// Store full resolution tile buffer: address u32, whose low four bits say what is left out.
pub const STORE_FULL_RESOLUTION: u8 = 26;

/// Reload full resolution tile buffer: address u32, whose low four bits say what is left out.
pub const LOAD_FULL_RESOLUTION: u8 = 27;

/// Store tile buffer general: bits u16, address u32, whose low four bits are further bits.
pub const STORE_TILE_BUFFER: u8 = 28;

/// Load tile buffer general: bits u16, address u32, whose low four bits are further bits.
pub const LOAD_TILE_BUFFER: u8 = 29;

/// Indexed primitive list: mode and index type u8, length u32, address of the indexes u32, maximum
/// index u32.
pub const INDEXED_PRIMITIVE_LIST: u8 = 32;

/// Vertex array primitives: mode u8, length u32, index of the first vertex u32.
pub const ARRAY_PRIMITIVE_LIST: u8 = 33;

/// Primitive list format: format u8.
pub const PRIMITIVE_LIST_FORMAT: u8 = 56;

/// GL shader state: u32, the record's address with the number of attributes in bits 2:0 and
/// whether it is extended in bit 3.
pub const GL_SHADER_STATE: u8 = 64;

/// Configuration bits: three bytes.
pub const CONFIGURATION_BITS: u8 = 96;

/// Flat shade flags: u32.
pub const FLAT_SHADE_FLAGS: u8 = 97;

/// Point size: u32.
pub const POINT_SIZE: u8 = 98;

/// Line width: u32.
pub const LINE_WIDTH: u8 = 99;

/// Right hand triangle x boundary: u16.
pub const RHT_X_BOUNDARY: u8 = 100;

/// Depth offset: two u16.
pub const DEPTH_OFFSET: u8 = 101;

/// Clip window: four u16.
pub const CLIP_WINDOW: u8 = 102;

/// Viewport offset: two u16.
pub const VIEWPORT_OFFSET: u8 = 103;

/// Clipper x and y scaling: two u32.
pub const CLIPPER_XY_SCALING: u8 = 105;

/// Clipper z scale and offset: two u32.
pub const CLIPPER_Z_SCALING: u8 = 106;

/// Tile binning mode configuration: address of the tile lists' memory u32, its size u32, address of
/// the tile states u32, tiles across u8, tiles down u8, flags u8.
pub const TILE_BINNING_MODE: u8 = 112;

/// Tile rendering mode configuration: address of the colour frame u32, width u16, height u16, bits
/// u16.
pub const TILE_RENDERING_MODE: u8 = 113;

/// Clear colours: two colours u32, Z u32, stencil u8.
pub const CLEAR_COLORS: u8 = 114;

/// Tile coordinates: x u8, y u8.
pub const TILE_COORDINATES: u8 = 115;

/// Buffer handles: two u32. The driver's own packet: a list that is handed in names by it the buffer
/// that its index addresses are in, and the hardware never sees it.
pub const BUFFER_HANDLES: u8 = 254;
