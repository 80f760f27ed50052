//! The rules of the frame and its surfaces, in words. The pages in docs/ have the same text: docs/check_words compares.

/// The rules of the frame and its surfaces, G1 on.
pub(crate) const SURFACES: [&str; 13] = [
    "a smallest tile number is over its largest
The renderer would have no last tile, and so never end the frame.
- Usual cause: exchanging the two.
- Fix: smallest x, smallest y, largest x, largest y, in this order, the largest included.",
    "there is a binner list, and the largest tile isn't below its grid in x or y
The renderer would run a tile list that the binner never
made.
- Usual cause: frame and binner list were made for different sizes.
- Fix: a grid that covers the frame's tiles; the grid counts tiles, and the largest tile number is at most one less.",
    "the largest tile number times a tile's side isn't below the width, or the height
That tile would have no pixel of the frame.
- Usual cause: a width or height of 0, or tiles counted with 64 pixels where they have 32, or the other way round.
- Fix: the largest number is the width (or height) less one, divided by the side, rounded down, or less.",
    "a flag is set that the surface doesn't have
Bit 0 of items 1, 3 and 4 is the only flag.
- Fix: flags of 0, but for a read that is in full resolution.",
    "not in full resolution, and a bit outside the surface's fields is set
The table above has the fields.
- Usual cause: colour write's bits used for a general surface, or a mode of the hardware that the checker doesn't know.
- Fix: the fields of the table above, and no more.",
    "the handle index names no Plain buffer
It is past the job's handles, or the buffer holds shader code, which nothing may write, or
else a job could change a shader after it was checked.
- Fix: a handle of the job whose buffer is Plain; the index counts the job's handles, and is no buffer number.",
    "not in full resolution, and the tiling is 3
There is no such tiling.
- Fix: 0, 1 or 2.",
    "not in full resolution, and there is no such buffer and format
Colour write has format 0, 1 or 2; a general surface has buffer 1 (colour)
with format 0, 1 or 2, or buffer 2 (ZS) with format 0. Buffer and format decide, and not the item: a ZS write whose
bits name a colour buffer is accepted, as its size goes by its bits.
- Fix: one of these.",
    "the offset is no multiple of 16
The renderer's packets keep bits of their own in the low four bits of a place.
- Fix: begin the surface at a multiple of 16 in its buffer.",
    "not in full resolution, and the frame is over 4,096 pixels wide or high, or the surface goes past its buffer's end
The surface takes
its offset and, behind it, the aligned width times the aligned height times the bytes of a pixel. With microtiles of 64 bytes
(8x8 pixels of 1 byte, 8x4 of 2, 4x4 of 4, 2x4 of 8), T aligns both sides to 8x8 microtiles, Lt to one microtile, and raster the
width to one microtile's width.
- Usual cause: counting the bytes of the pixels alone.
- Fix: a buffer of the aligned size: 1920x1080 pixels of 4 bytes in T take 1920 times 1088 times 4 bytes.",
    "ZS write in full resolution, or a surface in full resolution whose bits aren't 0
A surface in full resolution has no bits.
- Usual cause: the bits of the plain surface left in, or item 4's flag set.
- Fix: bits of 0; ZS is written in full resolution by item 6.",
    "in full resolution, and the largest tile ends past the buffer
The surface has a tile for each 32 pixels of the width in a row,
rounded up, so its last tile ends at the offset plus `16384 * (ceil(width / 32) * largest y + largest x + 1)`.
- Usual cause: a buffer of the pixels' size.
- Fix: a buffer of that end; each pixel takes four samples.",
    "no surface is written: items 2, 4, 5 and 6 are all absent
Nothing would be stored, and no store would end the frame.
- Fix: one write.

What the renderer list of a frame without faults looks like is in docs/FORMATS.md.",
];
