//! The rules of binner lists, in words. The pages in docs/ have the same text: docs/check_words compares.

/// The rules of binner lists, B1 on.
pub(crate) const LISTS: [&str; 19] = [
    "no packet has this opcode
The packets that a client may write are listed; all others are refused, among them those of other shader
states, of sub-lists, and the flush of all state.
- Usual cause: a packet of the wrong length before this one, so that a field is read as an opcode.
- Fix: give the packet before its full length.",
    "the packet goes past the list's end
- Usual cause: a list that was cut off, or a wrong size in the job's entry.
- Fix: give the size of all packets.",
    "a flush isn't the list's last byte
A flush ends the binning of the frame, and the renderer waits for it.
- Usual cause: the last two packets in the wrong order, or bytes that fill the list up.
- Fix: end the list with an increment of the semaphore and then the flush.",
    "a start of binning follows another
The second would empty the tile lists of the first.
- Fix: one start in a list.",
    "a start of binning has no configuration before it
The binner would not know where its memory is.
- Fix: put the configuration (112) before the start (6).",
    "an increment of the semaphore isn't the list's last byte but one
It tells the renderer that the tile lists are whole, so nothing but
the flush may come behind it.
- Fix: as at B3.",
    "a primitive has no shader state before it
The hardware would take the last job's shader record.
- Fix: a shader state (64) before the first primitive.",
    "a primitive has no start of binning before it
It would be binned into the last frame's memory.
- Fix: a start (6) before it.",
    "the handle of the index buffer names no Plain buffer
The first handle of the last buffer handles packet (254) counts, or 0 where
there is none; it is the index of a handle of the job. It is asked at an indexed primitive alone.
- Usual cause: a buffer's number written for the handle, or a Code buffer.
- Fix: the index, in the job's handles, of a Plain buffer.",
    "the indexes end past their buffer
The address, counted from the buffer's start, plus the length times the bytes of an index is over
the buffer's size. The sum is exact, also past 2^32.
- Usual cause: the wrong index type, or an address that already is a place in memory.
- Fix: the offset in the buffer.",
    "first index and length of an array primitive add up to 2^32 or more
The last index would wrap.
- Fix: draw less, or from a smaller index on.",
    "there are more shader states than the job declares
It is asked at each shader state, and stands at the first that is over the
number.
- Fix: count them in the job's entry.",
    "a shader state's word has a bit above bit 3
The word is no address: bits 2:0 are the number of attributes (0 means 8), bit 3 says
that the record is extended. The records are taken in the order of the states.
- Fix: leave the address out.",
    "a configuration follows another
- Fix: one configuration in a list.",
    "a configuration has no tiles across or no tiles down
- Fix: at least one of each.",
    "bit 7 or bit 1 of a configuration's flags is set
Bit 7 is double buffering and bit 1 colours of 64 bits; in both a tile has another
size than the checker and the renderer list count with.
- Fix: clear them. The other bits may have any value: bit 0, four samples a pixel, is kept, and the rest is set by the checker.",
    "a tile slot has no room for so many tiles
A tile takes 48 bytes of state; behind the states, from the next multiple of 4,096 on, it
takes 32 bytes for the first block of its list. Both have to fit 524,288 bytes.
- Fix: a smaller frame, of 6,528 tiles at most.",
    "the list has no start of binning
- Fix: a start (6), behind the configuration.",
    "the list's last two bytes aren't an increment of the semaphore and a flush
They have to be packets of their own, as the list is cut.
The renderer would wait for ever.
- Fix: end the list with 7 and 4, and no halt before them.",
];
