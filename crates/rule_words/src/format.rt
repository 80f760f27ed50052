//! The rules of the format, the memory table, the handles and the layout, in words. The pages in docs/ have the same text:
//! docs/check_words compares.

/// The rules of the format, F1 on; F6 is none.
pub(crate) const FORMAT: [&str; 7] = [
    "the first four bytes aren't `VC4J`, or the version is neither 1 nor 2
The offset is that of the field, 0 or 4.
- Usual cause: a file of another kind, or of a later version.
- Fix: write both as docs/FORMATS.md gives them.",
    "the file ends before the part's end
The offset is where the part starts.
- Usual cause: a file that was cut off; or a count or a size larger than what was written.
- Fix: the part before the one that is cut off is the one to mend, where the file is whole.",
    "bytes follow the last part
The offset is that of the first of them.
- Usual cause: writing more handles or contents than their counts say.
- Fix: count again what was written.",
    "a number is over its limit
In version 1 at most 64 buffers, exactly one job, and at most 64 handles; in version 2 at most 1,024
buffers, one to eight jobs, and at most 1,024 handles of each. In both at most 65,536 bytes of contents of a Code buffer, at most 1,048,576
bytes each of a job's binner list, records and uniforms, at most 65,536 declared shader states. The offset is that of the field.
- Fix: write the file as version 2 (`vc4check upgrade`), or divide the work between several jobs.",
    "a field holds what has no meaning
A kind over 1; a job flag above bit 0; a number of uniform bytes that is no multiple of 4; a byte
of the job's entry that has to be zero. The offset is that of the field, or of that byte.
- Usual cause: leaving memory of one's own uncleared in the last three bytes of the job's entry.
- Fix: clear the entry before filling it in.",
    "",
    "version 2 has fewer tile slots than jobs, and not none
The offset is 24, the number of slots. Job j uses slot j.
- Fix: give the tile region a slot for each job. (No slots at all are M2's to refuse.)",
];

/// The rules of the memory table, M1 on.
pub(crate) const TABLE: [&str; 5] = [
    "the memory's size is 0, no multiple of 4,096, or over the limit (64 MiB in a file, 0xFF000000 for a driver)
- Usual cause: giving the size of the contents, and not of whole pages.
- Fix: round up to a page.",
    "a place or size is no multiple of 4,096, or the size is 0
Everything is made of whole pages.
- Usual cause: a tile region of no slots.
- Fix: round up, and give each item at least a page.",
    "the item ends past the memory
- Usual cause: the memory's size was counted before the last buffer was added.
- Fix: count the size after the last item.",
    "the item has a byte of an earlier item other than the memory
A buffer over the lists would let a job write its own lists after they
were checked. The later of the two items is the one that is named.
- Fix: move one of the two.",
    "more contents are given than the buffer has bytes
- Usual cause: giving a surface its own size in place of whole pages.
- Fix: make the buffer larger, or give less.",
];

/// The rules of handles, H1 on.
pub(crate) const HANDLES: [&str; 1] = [
    "the handle is no buffer's number, or the buffer belongs to another client than the job's
The offset is that of the first such handle,
after the contents.
- Usual cause: the buffer's place written for its number, or a job that names a buffer of somebody else.
- Fix: name buffers by their numbers in the file, from 0, and buffers of the job's own client alone.",
];

/// The rules of the layout, X1 on.
pub(crate) const LAYOUT: [&str; 1] = [
    "the job's lists end past the lists' region
The first job's binner list stands at the region's start, then its shader records, its
uniforms and its renderer list, each from a multiple of 16 on; each further job's lists follow those of the job before it, in the same way.
Room is made for the sizes of the first three in the file, and for the length of the renderer list: 11 bytes, 24 more with the clear
flag, and for each tile 3 bytes of coordinates, what it loads and what it stores; with a binner list 5 bytes more for each tile, and
one for the first. A general load takes 7 bytes and one in full resolution 5, and 10 stand between two loads; the stores take 5
(multisample), 7 (ZS) and 1 byte (colour), and all but a tile's first have 3 bytes before them. The offset is that of the job's entry
plus 12, where the size of the binner list stands.
- Usual cause: a region of one page and many tiles: 32x32 tiles that only store colour need 4,107 bytes.
- Fix: make the region larger.",
];
