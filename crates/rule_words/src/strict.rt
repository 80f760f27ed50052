//! The strict rules, in words. The pages in docs/ have the same text: docs/check_words compares.

/// The strict rules, E1 on.
pub(crate) const STRICT: [&str; 13] = [
    "set-up words of a texture unit are pending when a switch acts
A processor queues the words of both threads together. So the other thread's
words would complete the request: one texture's base with another's size. The offset is that of the switch.
- Usual cause: T is written before the switch, and S behind it.
- Fix: write all words of a request, S last, on one side of where the switch acts.",
    "set-up words of a texture unit are pending behind the program end
They stay for the next program, which may be another client's. The offset is
that of the program end.
- Usual cause: a request that lacks its S.
- Fix: write S and load the result, or leave the words out.",
    "texture requests and loads don't match, or there is no room for them
A load has no request outstanding; a set-up word has no slot, or a
request no room for its result; a branch leads to an instruction, or its slots end there, while a request is outstanding; or one is outstanding behind
the program end. A processor has 8 slots, and room for the results of 4 requests; a shader with a switch may use half. A load of nothing, or a write to a
full queue, stops the processor for ever. A result that is left over becomes the next program's.
- Usual cause: a load was left out; or five requests come before the first load.
- Fix: load each result, on every path; with more than four requests, load some before the next.",
    "a load takes a result that no switch came after, or a switch acts over older results
It is asked of shaders with a switch. There the other
thread's results may stand before this one's, so the thread could take another program's texels. Each load needs a switch that acted behind its
request, and each result has to be loaded before the next switch acts.
- Usual cause: a read at a computed address is loaded without a switch.
- Fix: put one switch between a request and its load, and at least two instructions between the switch and the load.",
    "one of the last three instructions takes a uniform, reads a varying, or uses the VPM
These are the program end and the two behind it. Each write
to a texture unit takes a uniform too; a varying is read at 35, and 48 to 50 are the VPM. The read would take the next program's uniform or varying, or
never end.
- Usual cause: the program end was moved up to save an instruction.
- Fix: put it later, and instructions behind it that use none of these.",
    "an instruction makes more than one coupled access
Each unit's write to 44 to 47 (tile buffer), 52 to 55 (special functions) or 56 to 63 (TMU)
counts as one, and so does signal 8, 10 or 11 (a load), and a read of 51. The guide allows one at a time; what the hardware does with two is undefined.
- Usual cause: a texture's result is loaded in the instruction that sends the next request.
- Fix: two instructions.",
    "the mutex is read (51)
S14 refuses its release, so every processor that asks for it afterwards would wait for ever.
- Fix: leave the read out. A read counts where no operand selects it: give that instruction another `ra` or `rb`.",
    "a record's shader uses what only another kind of program may
A fragment shader reads or writes the VPM (48 to 50); or a vertex or coordinate
shader writes to the tile (43 to 47), reads a varying (35), or has signal 4, 5 or 8 (scoreboard and colour). It would wait for ever, or overwrite the
vertices or the tile of others. The offset is that of its handle in the record's source.
- Usual cause: the handles in the wrong order.
- Fix: fragment, vertex and coordinate shader, in this order.",
    "a primitive has an index type or a mode that doesn't exist
Of an indexed primitive, bits 7:4 behind the opcode are over 1, or bits 3:0 over 6; of
an array primitive the whole byte is over 6. It is asked also where the length is 0. The hardware would decide how many bytes an index has, and B10 and
A10 counted others. The offset is that of the packet.
- Fix: type 0 (8 bits) or 1 (16 bits), and mode 0 to 6.",
    "a job has more than 7,920 primitives
Those of length 0 count too. The tiles know their state by a small counter, which would wrap. The offset is
that of the 7,921st packet of opcode 32 or 33.
- Fix: divide the draws between several jobs.",
    "a record selects an attribute that isn't there
Behind the record's handles, byte 14 (of the vertex shader) or 26 (of the coordinate shader) has
a bit at or above the state's number of attributes. The hardware would read that attribute from the bytes of the next record. The offset is that of
the byte.
- Usual cause: an attribute was taken out of the shader state alone.
- Fix: bits below the number of attributes.",
    "a tile slot crosses a multiple of 256 MiB
It is asked of a driver's addresses alone. The binner keeps 28 bits of a tile list's address, and
takes the other four from the address of the tile states. Tile lists would be written 256 MiB away.
- Fix: a slot whose first and last byte have the same top four bits of address.",
    "a tile list doesn't begin with the reset of its format
Behind the start of binning (6), the next packet has to be the primitive list format (56)
with the value 0x12, and no other packet of opcode 56 may come later. With another format the renderer may read the binner's packed indexes wrongly, past
what A10 counted. The offset is that of the packet behind the start, or of the later one.
- Usual cause: a list made by hand, without the two bytes.
- Fix: the bytes 38 12 (hexadecimal) directly behind the start.",
];
