//! What safety refuses, so that to be safe says something.
ghost use Rattle.job_safety.specs.Strength.{StrayBinPacketsAreUnsafe, StrayRenderPacketsAreUnsafe, StrayStartsAreUnsafe, BinListsPastAreUnsafe, RenderListsPastAreUnsafe, CodePastIsUnsafe, DirectReadsPastAreUnsafe, TexturesPastAreUnsafe, StatesPastAreUnsafe, ItemsPastAreUnsafe, StoresPastAreUnsafe};

/// A list with what is no packet is not safe, whatever the memory and whatever its job may reach: from each state in which the binner
/// is to read a byte that begins no packet of a binner list, or the renderer bytes that are no packet of a renderer list. So it is
/// from the start, where the first job's list begins so.
pub fn stray_packets_are_unsafe()
    ensures bin { StrayBinPacketsAreUnsafe }
    ensures render { StrayRenderPacketsAreUnsafe }
    ensures start { StrayStartsAreUnsafe }
{}

/// A list that leaves its job's region is not safe: from each state in which the binner or the renderer is to read a packet that
/// doesn't lie in the region.
pub fn lists_past_are_unsafe()
    ensures bin { BinListsPastAreUnsafe }
    ensures render { RenderListsPastAreUnsafe }
{}

/// A shader that leaves its job's region is not safe: from each state in which a processor is to execute an instruction that doesn't
/// lie in the region.
pub fn code_past_is_unsafe()
    ensures { CodePastIsUnsafe }
{}

/// A direct read of a shader past its job's buffers is not safe: from each state in which such a request is the oldest of a texture
/// unit, where the word of one of the 16 elements doesn't lie in the region.
pub fn direct_reads_past_are_unsafe()
    ensures { DirectReadsPastAreUnsafe }
{}

/// A texture that leaves its buffer is not safe: from each state in which such a request is the oldest of a texture unit, where what
/// is read for one pixel of one level of one face begins below 0 or doesn't lie in the region.
pub fn textures_past_are_unsafe()
    ensures { TexturesPastAreUnsafe }
{}

/// A write outside what its job may write is not safe, whichever of the machine's writes it is: from each state in which the binner is
/// to start binning, and the states of the tiles don't lie there; in which it is to put an item on a tile, and the item or the link
/// before it doesn't; or in which the renderer is to read the packet of a store, and some part of the tile doesn't.
pub fn writes_past_are_unsafe()
    ensures states { StatesPastAreUnsafe }
    ensures items { ItemsPastAreUnsafe }
    ensures stores { StoresPastAreUnsafe }
{}
