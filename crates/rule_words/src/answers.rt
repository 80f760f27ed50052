//! What the other commands refuse, in words. The pages in docs/ have the same text: docs/check_words compares.

/// The rules of the slot allocator, O1 on.
pub(crate) const SLOTS: [&str; 6] = [
    "the job is running
Asked by: `begin`, first.
- Fix: end it first, or take another number.",
    "the job isn't running
Asked by: `take`, `overflow`, `end`, first.
- Fix: begin it.",
    "no slot is free
Asked by: `begin`, `overflow`, last.
- Fix: wait until another job has ended.",
    "the job's newest slot has fewer than 128 bytes left
Asked by: `take`, second.
- Fix: `overflow`, and then `take` again.",
    "the job's newest slot has 128 bytes or more left
Asked by: `overflow`, second.
- Fix: `take` them.",
    "the job has no tiles, or more than a slot has room for (6,528)
Asked by: `begin`, second.
- Fix: a smaller frame, or several jobs.",
];

/// The rules of the queue, Q1 on.
pub(crate) const QUEUE: [&str; 7] = [
    "a number is no buffer's; the first such of the reads, and then of the writes, is named
Asked by: `submit`.
- Fix: name buffers of the queue.",
    "4,096 jobs haven't rendered
Asked by: `submit`.
- Fix: wait until one has rendered.",
    "a job is binning
Asked by: `start`.
- Fix: `bin_done` first.",
    "each submitted job was started
Asked by: `start`.
- Fix: submit one.",
    "an earlier job that writes a buffer which this one reads hasn't rendered; the last such job is named
Asked by: `start`.
- Fix: start again when that job has rendered.",
    "no job is binning
Asked by: `bin_done`.
- Fix: start one.",
    "each binned job has rendered
Asked by: `render_done`.
- Fix: wait until one is binned.",
];

/// The rules of sessions, J1 on.
pub(crate) const SESSION: [&str; 6] = [
    "the id names no live buffer of this client
Ids are a client's own: another client's buffer has none here, and a freed one has none any more.
Asked by: `write`, `read`, `free`, first.
- Usual cause: an id that another client was given, or one that was freed.
- Fix: name a buffer that this client was given and hasn't freed.",
    "the bytes go past the buffer's end, or more than 256 are read at once
Asked by: `write`, last; `read`, second.
- Fix: stay inside the buffer, whose size is its number of pages times 4,096, and read in parts of at most 256 bytes.",
    "the buffer holds shader code, which nothing may write
Else a client could change a shader after it was checked.
Asked by: `write`, second.
- Fix: make new code, and free the old.",
    "the client has 64 live buffers
Asked by: `create`, second; `code`, behind the rules of shaders.
- Fix: free one first.",
    "a buffer of no pages, or of more than 1,024
Asked by: `create`, first.
- Fix: ask for 1 to 1,024 pages of 4,096 bytes.",
    "no run of free pages is long enough
It is the one refusal that other clients can bring about.
Asked by: `create`, `code`, last.
- Fix: free buffers, ask for fewer pages, or wait until others have freed theirs.",
];

/// The rules of one level of a texture, V1 on.
pub(crate) const LEVELS: [&str; 2] = [
    "the texture doesn't have that face: it is no cube map and the face isn't 0, or the face is over 5
Asked by: `level`.
- Fix: face 0, or 0 to 5 of a cube map.",
    "the texture doesn't have that level
Asked by: `level`.
- Fix: a level from 0 to the number in bits 3:0 of the first set-up word.",
];

/// The rules of the assembler, by kind, kind 1 on.
pub(crate) const ASSEMBLER: [&str; 5] = [
    "the first word or an item's name is unknown, an item has no `=`, `nop` has items, or a label's line is malformed
- Usual cause: a mistyped name, or blanks around `=`.
- Fix: a name of docs/FORMATS.md, right before `=` and its value.",
    "a value is no number and no name, an item is repeated or out of order, `imm` stands beside `to`, or `to` has no name
- Fix: one decimal number or name for each item, and the items in the order of docs/FORMATS.md.",
    "a number is over its field, however long it is
- Fix: a number that the item's bits can hold; for `alu`, a signal from 0 to 13.",
    "`to` names a label that the text doesn't have
- Usual cause: a mistyped label, or one without `:`.
- Fix: a line of the text with the name and `:` alone.",
    "the label was defined on an earlier line
- Fix: give the second label another name.",
];
