//! The rules of shaders, in words. The pages in docs/ have the same text: docs/check_words compares.

/// The rules of shaders, S1 on.
pub(crate) const SHADERS: [&str; 27] = [
    "there are no words, or no whole ones
Without any word the processor would run what lies after the buffer's place. `E` would
be nowhere. (Whether a buffer's bytes are whole words is asked by whoever makes words of them, under the same number.)
- Usual cause: a Code buffer for which the file gives no contents.
- Fix: give the shader's words, eight bytes each.

Refused:

    #! no words

Accepted:

    alu sig=3
    nop
    nop",
    "the program end or its two further instructions are missing
Then the processor runs past the shader's last word, into
whatever lies behind it.
- Fix: end the shader with `alu sig=3` and two further instructions.

Refused:

    alu sig=3
    nop
    #! the word after the last is run too

Accepted:

    alu sig=3
    nop
    nop",
    "a forbidden signal: breakpoint (0), coverage load (7), colour load and end (9) or alpha mask load (12)
A breakpoint stops the
processor for all. A colour load and end is a second kind of program end, which no rule here follows. The two loads are for vector graphics.
- Fix: another signal. Signal 3 ends a shader, and 8 loads a colour.

Refused:

    alu sig=0
    #!
    alu sig=3
    nop
    nop

Accepted:

    nop
    nop
    alu sig=8
    alu sig=3
    nop
    nop",
    "a branch stands in the slots of a branch
Where two branches overlap, the slots of the second run at the first one's target, and
the checker would follow another path than the hardware.
- Fix: put three instructions that don't branch behind each branch.

Refused:

    br to=A
    br to=B
    #!
    nop
    nop
    nop
    A:
    B:
    alu sig=3
    nop
    nop

Accepted:

    br to=A
    nop
    nop
    nop
    A:
    br to=B
    nop
    nop
    nop
    B:
    alu sig=3
    nop
    nop",
    "a branch goes by a register
Its target would be any number that the shader computed.
- Fix: branch to a label.

Refused:

    br reg=1 ra=3
    #!
    nop
    nop
    nop
    alu sig=3
    nop
    nop

Accepted:

    br to=A
    nop
    nop
    nop
    A:
    alu sig=3
    nop
    nop",
    "a branch is absolute
An absolute target is a place in memory, so the shader could run any bytes as code.
- Fix: leave `rel` at 1, and branch to a label.

Refused:

    br rel=0 imm=4096
    #!
    nop
    nop
    nop
    alu sig=3
    nop
    nop

Accepted:

    br imm=0
    nop
    nop
    nop
    alu sig=3
    nop
    nop",
    "a branch's immediate is no multiple of 8
It leads into the middle of a word, and the two halves read as one instruction
that was never checked.
- Fix: branch to a label, or give eight times a number of instructions.

Refused:

    br imm=4
    #!
    nop
    nop
    nop
    alu sig=3
    nop
    nop

Accepted:

    br imm=8
    nop
    nop
    nop
    nop
    alu sig=3
    nop
    nop",
    "a branch leads to no instruction from the first to the program end
It leaves the shader: the index is none from 0 to E.
- Fix: a target in the shader. The immediate counts from four instructions after the branch, in bytes.

Refused:

    br imm=8000
    #!
    nop
    nop
    nop
    alu sig=3
    nop
    nop

Accepted:

    br imm=0
    nop
    nop
    nop
    alu sig=3
    nop
    nop",
    "a branch's slots end past the program end
Then the program end stands in its slots, and where execution goes on is not what
the checker took it for.
- Fix: put three instructions between the branch and the program end.

Refused:

    A:
    br to=A
    #!
    alu sig=3
    nop
    nop

Accepted:

    A:
    br to=A
    nop
    nop
    nop
    alu sig=3
    nop
    nop",
    "a branch writes a register
It can store its return address in a register, and the terms above have branches name none: facts
would survive a write.
- Fix: leave both write addresses of a branch at 39.

Refused:

    br wa=32 to=A
    #!
    nop
    nop
    nop
    A:
    alu sig=3
    nop
    nop

Accepted:

    br to=A
    nop
    nop
    nop
    A:
    alu sig=3
    nop
    nop",
    "a switch stands one or two after a switch
The second would come while the first is on its way, and which thread runs then is not
defined.
- Fix: put two instructions between the switches.

Refused:

    alu sig=2
    alu sig=2
    #!
    nop
    nop
    alu sig=3
    nop
    nop

Accepted:

    alu sig=2
    nop
    nop
    alu sig=6
    nop
    nop
    alu sig=3
    nop
    nop",
    "a branch stands one or two after a switch
The branch's slots would be cut in two by the other thread.
- Fix: put two instructions between the switch and the branch.

Refused:

    alu sig=2
    br to=A
    #!
    nop
    nop
    nop
    A:
    alu sig=3
    nop
    nop

Accepted:

    alu sig=6
    nop
    nop
    br to=A
    nop
    nop
    nop
    A:
    alu sig=3
    nop
    nop",
    "a switch stands in a branch's slots, or acts after the program end
It would act on another path, or when
the thread is gone.
- Fix: put the switch three or more instructions before the branch, or behind its slots; and three or more before the program end.

Refused:

    br to=A
    alu sig=2
    #!
    nop
    nop
    A:
    alu sig=3
    nop
    nop

Accepted:

    br to=A
    nop
    nop
    nop
    A:
    alu sig=6
    nop
    nop
    alu sig=3
    nop
    nop",
    "a forbidden register is written: 36, 38, 47, 50 or 51
They change how TMUs are shared, raise a host interrupt, mask
alpha, start VPM DMA, which writes memory at any address, or release a mutex.
- Fix: leave the write out. Address 39 writes nothing.

Refused:

    alu ca=1 wa=50
    #!
    alu sig=3
    nop
    nop

Accepted:

    alu ca=1 wa=39
    alu sig=3
    nop
    nop",
    "40, the uniforms' address, is written on the B side
It moves the uniforms' place by the processor's own element number,
which no checker knows.
- Fix: write 40 by the add unit without `ws`.

Refused:

    alu cm=1 wm=40
    #!
    alu sig=3
    nop
    nop

Accepted:

    li ca=1 wa=33 imm=4
    alu ca=1 wa=40 oa=add ra=32 aa=1 ab=6
    alu sig=3
    nop
    nop",
    "an address write (of 40) is not exact
An exact one is an `add`, by the add unit, always and not packed, under a signal
that changes nothing, of a register that holds the immediate 4 * (Count + 1) and of a uniform. That uniform is the one that the
checker fills with the stream's own place, so the sum is the place of the word after it. Any other sum would let the shader take
uniforms, and with them texture bases, from memory of its own choice.
- Fix: load 4 * (Count + 1) into a register with `li`, and `add` a uniform to it by the add unit.

Refused:

    li ca=1 wa=33 imm=400
    alu ca=1 wa=40 oa=add ra=32 aa=1 ab=6
    #!
    alu sig=3
    nop
    nop

Accepted:

    li ca=1 wa=33 imm=4
    alu ca=1 wa=40 oa=add ra=32 aa=1 ab=6
    alu sig=3
    nop
    nop",
    "an address write stands in a branch's slots
Whether the write comes before or after the jump would depend on the branch, and with
it from where the uniforms come at the target.
- Fix: put the address write before the branch, or behind its slots.

Refused:

    li ca=1 wa=33 imm=4
    br cond=2 to=A
    alu ca=1 wa=40 oa=add ra=32 aa=1 ab=6
    #!
    nop
    nop
    A:
    alu sig=3
    nop
    nop

Accepted:

    li ca=1 wa=33 imm=4
    alu ca=1 wa=40 oa=add ra=32 aa=1 ab=6
    br cond=2 to=A
    nop
    nop
    nop
    A:
    alu sig=3
    nop
    nop",
    "a uniform is taken one or two after an address write
The hardware has already fetched from the old place, or has not: which
word comes is not defined.
- Fix: put two instructions that take no uniform behind the address write.

Refused:

    li ca=1 wa=33 imm=4
    alu ca=1 wa=40 oa=add ra=32 aa=1 ab=6
    alu ra=32
    #!
    nop
    alu sig=3
    nop
    nop

Accepted:

    li ca=1 wa=33 imm=4
    alu ca=1 wa=40 oa=add ra=32 aa=1 ab=6
    nop
    nop
    alu ra=32
    alu sig=3
    nop
    nop",
    "a uniform is taken where the position is not known
A loop could take one uniform more each time round and run past
the stream's end, and each emitted word would be used as another than the one that was checked. An address write itself takes its
uniform before it sets a new position.
- Fix: take the uniform before the target, and keep it in a register; or write the uniforms' address behind the target first.

Refused:

    br cond=2 to=A
    nop
    nop
    nop
    A:
    alu ra=32
    #!
    alu sig=3
    nop
    nop

Accepted:

    alu ra=32
    br cond=2 to=A
    nop
    nop
    nop
    A:
    alu sig=3
    nop
    nop",
    "both units write a TMU
They would share one uniform, and the checker counts one setup word.
- Fix: write one TMU in an instruction.

Refused:

    alu ca=1 cm=1 wa=57 wm=58
    #!
    alu sig=3
    nop
    nop

Accepted:

    alu ca=1 wa=57
    alu ca=1 wa=56
    alu sig=3
    nop
    nop",
    "a TMU write is done under a condition
Under a condition it depends on each pixel whether the TMU has the word, and a
request's setup would be of another kind than the one shown.
- Fix: condition 1, always.

Refused:

    alu ca=2 wa=57
    #!
    alu sig=3
    nop
    nop

Accepted:

    alu ca=1 wa=57
    alu ca=1 wa=56
    alu sig=3
    nop
    nop",
    "a TMU write finds four set-up words pending
A request has at most four setup words; the hardware's behaviour with more
is not defined.
- Fix: write S (56 or 60), which sends the request, as the fourth at the latest.

Refused:

    alu ca=1 wa=57
    alu ca=1 wa=58
    alu ca=1 wa=59
    alu ca=1 wa=57
    alu ca=1 wa=56
    #!
    alu sig=3
    nop
    nop

Accepted:

    alu ca=1 wa=57
    alu ca=1 wa=58
    alu ca=1 wa=59
    alu ca=1 wa=56
    alu sig=3
    nop
    nop",
    "a setup write stands in an instruction that reads a uniform
Both would get the same word, so a texture's base, which the
checker relocates, would reach a register.
- Fix: read the uniform in an instruction of its own.

Refused:

    alu ca=1 wa=57 ra=32
    #!
    alu sig=3
    nop
    nop

Accepted:

    alu ra=32
    alu ca=1 wa=57
    alu ca=1 wa=56
    alu sig=3
    nop
    nop",
    "a direct write (a read at a computed address) is not clamped
A clamped one is an `add`, by the add unit and not packed,
of a register that is clamped by one uniform and of another uniform. The first of these uniforms is a bound and the second a
buffer's place, so the address lies in that buffer. Any other address would read any memory of the machine: other clients'
buffers, or the kernel's.
- Fix: `max` the offset with 0, `min` it with one uniform, and `add` another uniform to it.

Refused:

    alu ca=1 wa=56 oa=add ra=32 ab=6
    #!
    alu sig=3
    nop
    nop

A `min` whose register may be negative does not clamp: as an address a negative number is beyond every buffer.

Refused:

    alu ca=1 wa=32 oa=min ra=32 ab=6
    alu ca=1 wa=56 oa=add ra=32 ab=6
    #!
    alu sig=3
    nop
    nop

Accepted:

    alu sig=13 ca=1 wa=32 oa=max rb=0 ab=7
    alu ca=1 wa=32 oa=min ra=32 ab=6
    alu ca=1 wa=56 oa=add ra=32 ab=6
    alu sig=10
    alu sig=3
    nop
    nop",
    "a setup word is pending at a target
By one path the TMU would have it, by another not, so a later request would mix the
setup words of two textures.
- Fix: send the request before the branch, or begin it behind the target.

Refused:

    alu ca=1 wa=57
    br cond=2 to=A
    nop
    nop
    nop
    A:
    nop
    #!
    alu sig=3
    nop
    nop

Accepted:

    alu ca=1 wa=57
    alu ca=1 wa=56
    br cond=2 to=A
    nop
    nop
    nop
    A:
    alu sig=3
    nop
    nop",
    "a shader that switches threads uses a file register from 16 to 31
Each of two threads has half of each file; registers 16
to 31 are the other thread's, and hold another shader's, perhaps another client's, values and clamped addresses.
- Fix: use registers 0 to 15 of each file, or leave the thread switches out.

Refused:

    alu sig=2
    alu ra=16
    nop
    alu sig=3
    nop
    nop
    #! at the end, since it is a rule on the whole

Accepted:

    alu sig=6
    alu ra=15
    nop
    alu sig=3
    nop
    nop",
    "a load immediate has another mode than 0, 1 and 3
The hardware defines no other.
- Fix: mode 0, 1 or 3.

Refused:

    li mode=2 ca=1 wa=32
    #!
    alu sig=3
    nop
    nop

Accepted:

    li mode=1 ca=1 wa=32
    alu sig=3
    nop
    nop",
];
