//! From the parts to the whole: what each job of an accepted file begins with, and so every run of the machine.
ghost use Rattle.accepted_law.specs.Parts.{FilesBegin};
ghost use Rattle.accepted_law.specs.Prepared.{PreparedMemoriesAgree};
ghost use Rattle.accepted_law.specs.Whole.{FilesSound};

/// Each job of an accepted file begins as the laws of the machine's units ask: its two lists walk, and what they draw, load and store
/// may be drawn, loaded and stored.
#[tactic(auto, using(crate::proofs::Joining::files_begin_law))]
pub fn files_begin()
    ensures { FilesBegin }
{}

/// The 1 to 8 jobs of an accepted file are sound from every memory of the emitted one's length that has their emitted lists and their
/// code as that one, whatever all its other bytes are: in every run of the machine, whichever unit steps next, whatever words answer, and
/// whatever others write beside lists and code, no access is undefined, each lies in the buffers, lists, code or tile slot of the job for
/// which it is done, and each write in a data buffer of that job or in its tile slot. Bytes outside have no effect. And a step of a
/// texture unit does nothing to memory but read inside one data buffer that a handle of its job names.
pub fn accepted_files_are_sound()
    ensures { FilesSound }
{}

/// A memory that is prepared for the jobs of an accepted file, with the bytes of their relocated lists from the lists' place on, and in each
/// Code buffer that a handle names its shader with zeros behind, has the lists and the code of all jobs as the emitted memory, whatever
/// all its other bytes are.
#[tactic(auto, using(crate::proofs::Prepared::prepared_memories_agree_law))]
pub fn prepared_memories_agree()
    ensures { PreparedMemoriesAgree }
{}
