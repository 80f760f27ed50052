//! The rules of shader records and their textures, in words. The pages in docs/ have the same text: docs/check_words compares.

/// The rules of shader records, A1 on.
pub(crate) const RECORDS: [&str; 10] = [
    "the job's records end before the handles of this one do
The offset is where its handles begin.
- Usual cause: more states in the binner list than there are records.
- Fix: write a record for each state.",
    "the job's records end before this one does
The offset is behind its handles.
- Usual cause: a state word that has more attributes than its record, or that says extended where the record isn't.
- Fix: make them agree.",
    "a handle for code is no handle of the job, or names a Plain buffer
The offset is that handle.
- Fix: give the code a Code buffer, and name it among the job's handles.",
    "a handle for an attribute is no handle of the job, or names a Code buffer
The offset is that handle. Code can't be read as vertices.
- Fix: put the data into a Plain buffer.",
    "the flags and the fragment shader disagree on whether it switches threads
The flags say that it is single-threaded and it switches
threads, or they don't and it doesn't. The offset is the record's first byte.
- Fix: set bit 0 of the flags exactly where the shader has no thread switch.",
    "the vertex or the coordinate shader switches threads
The offset is its handle. Only fragment shaders run in pairs.
- Fix: leave the thread switches out.",
    "the word for a code's address isn't 0
The offset is that word, 4, 16 or 28 bytes into the record. The address is put there in
emission.
- Fix: leave it 0.",
    "fewer bytes of uniforms are left than a shader takes
That is four bytes for each of its samples and each word of its stream. The
offset, in the uniforms, is where its own begin. docs/RULES.md says how they are counted.
- Usual cause: counting a uniform too few, often the word that a backward branch needs for the stream's address.",
    "an attribute's address and size go past its buffer
The offset is the attribute, 36 + 8t bytes into the record. The address counts
from the buffer's start.
- Fix: make the buffer larger, or the address smaller.",
    "the data of the greatest index go past the buffer
The stride isn't 0, and the greatest index is over the number of strides that fit
behind the first vertex's data. The offset is the attribute.
- Usual cause: a maximum index larger than the indexes are, or a stride with high bits left over in an extended record.
- Fix: make the buffer larger, or the maximum index true.",
];

/// The rules of textures, U1 on.
pub(crate) const TEXTURES: [&str; 9] = [
    "the handle word names no Plain buffer
It is past the job's handles, or the buffer holds shader code.
- Usual cause: writing the buffer's number or place in place of the index of its handle.",
    "a direct read, and its base plus 4 is past the buffer's end
The shader adds an offset to the first of the sample's uniforms; already
without one it would read past the buffer.
- Usual cause: writing an absolute place: the checker adds the buffer's place itself.",
    "a direct read, and its base plus its bound plus 4 is past the buffer's end
The bound is the uniform that the shader clamps its offset
by, in bytes: it is the offset of the last word that may be read, and not the length.
- Usual cause: giving the buffer's size as the bound; the size less the base less 4 is the largest that passes.",
    "cube mode, and the third and the fourth set-up word both have a cube stride
Which of them is meant isn't known.
- Fix: leave one of them out, or give it kind 0.",
    "cube mode, and neither the third nor the fourth word has a cube stride, or the stride is 0
The faces' places aren't known.
- Fix: give a stride of whole pages, at least the bytes of level 0; a stride below 4,096 counts as 0, as its field has pages.",
    "the type isn't listed
Types 0 to 11 and 16 are. Its bit four is bit 31 of the second word.
- Usual cause: one of the hardware's further types, or bits of the address left in 7:4 of the first word.
- Fix: a type of the list; the base is a multiple of 4,096.",
    "level 0 of some face ends past the buffer
It takes its aligned width times its aligned height times the bytes of a pixel; in T both
sides are aligned to 8 microtiles. In cube mode the last face decides; count the stride five times, and then the face.
- Usual cause: making the buffer as large as the pixels alone: 33x33 pixels of 4 bytes take 64x64.",
    "levels 1 and up take more bytes than there are below the base
Levels lie below level 0, and so the base can't be the buffer's start
where there are levels.
- Fix: move the base up by the levels' bytes, rounded up to 4,096, and the buffer's size with it.",
    "the third or the fourth word has a child image
A child image has a second size and place, which this checker doesn't know.
- Fix: bind it as a texture of its own.",
];
