//! What the machine keeps of a thread of a shader processor.
use arrayvec::ArrayVec;

/// One word for each of a processor's 16 elements.
pub type Row = [u32; 16];

/// An instruction that a thread has executed: its word, and where it led, if it is a branch that was
/// taken.
#[derive(Clone, Copy, Debug, PartialEq, Eq)]
pub struct Mark {
    pub word: u64,
    pub to: Option<u32>,
}

/// A thread that runs.
///
/// `place` is that of its next instruction, `uniforms` that of its next uniform. `setups0` and `setups1` are the setup words
/// that it keeps for the two texture and memory units (TMUs), `results0` and `results1` their finished results in order: of a
/// direct request its words, and `None` of a texture, whose words are free. `a` and `b` are the register files, `acc` is r0 to
/// r5, which mean nothing while the thread is `fresh`. `last1` is the instruction that it executed last, `last2` and `last3`
/// those before.
#[derive(Drop)]
pub struct Thread {
    pub job: u8,
    pub threaded: bool,
    pub place: u64,
    pub uniforms: u32,
    pub setups0: ArrayVec<u32, 4>,
    pub setups1: ArrayVec<u32, 4>,
    pub a: [Row; 32],
    pub b: [Row; 32],
    pub fresh: bool,
    pub acc: [Row; 6],
    pub last1: Mark,
    pub last2: Mark,
    pub last3: Mark,
    pub results0: ArrayVec<Option<Row>, 8>,
    pub results1: ArrayVec<Option<Row>, 8>,
}

/// What a thread asks a TMU for: the words at 16 addresses, or a texture by its four setup words, of which those that aren't
/// there are 0.
#[derive(Clone, Copy, Debug, PartialEq, Eq)]
pub enum Ask {
    Direct(Row),
    Texture([u32; 4]),
}

// What an empty place of a queue holds.
impl Default for Ask {
    fn default() -> Ask {
        Ask::Direct([0; 16])
    }
}

/// A request, and the number of the TMU that it goes to.
#[derive(Clone, Copy, Debug, PartialEq, Eq)]
pub struct Asked {
    pub tmu: u8,
    pub ask: Ask,
}

/// What becomes of a thread after an instruction: it goes on, it switches to the other thread of its processor, or it ends.
#[derive(Clone, Copy, Debug, PartialEq, Eq)]
pub enum Fate {
    GoesOn,
    Switches,
    Ends,
}

/// What one instruction of a thread leaves beside the thread itself.
#[derive(Clone, Copy, Debug, PartialEq, Eq)]
pub struct Leaves {
    pub asked: Option<Asked>,
    pub fate: Fate,
}

/// A request in a TMU's queue: which thread of the processor made it (the second or the first), for which job, and what for.
#[derive(Clone, Copy, Debug, Default, PartialEq, Eq)]
pub struct Request {
    pub second: bool,
    pub job: u8,
    pub ask: Ask,
}

/// A shader processor: its two threads, each where it runs, which of them is active (the second or the first), and the queues
/// of requests of its two TMUs, oldest first. A thread has at most eight requests and results in a TMU, so a queue has at most
/// 16 requests.
#[derive(Drop)]
pub struct Qpu {
    pub first: Option<Thread>,
    pub other: Option<Thread>,
    pub second: bool,
    pub queue0: ArrayVec<Request, 16>,
    pub queue1: ArrayVec<Request, 16>,
}
