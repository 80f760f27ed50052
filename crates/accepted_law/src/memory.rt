//! From the file to its memory: what no rule of a file that was accepted says settles it, and what its emitted memory holds.
ghost use Rattle.accepted_law.specs.Parts.{FilesSettle, FilesGround, FilesAllocate};
ghost use Rattle.accepted_law.specs.Texts.{BinTextsBegin, RenderTextsBegin};

/// A file in which no rule is broken has a sound memory table, shaders without faults, and in each of its jobs lists, frame and surfaces in
/// which no rule is broken.
pub fn files_settle()
    ensures { FilesSettle }
{}

/// The memory that such a file is emitted as holds its contents and the lists of each job, and a job's rights have each thing that it
/// holds. No job may write the lists and the code of any.
pub fn files_ground()
    ensures { FilesGround }
{}

/// Each job may write the memory of its tiles' states and that of its tile lists, which has room for the first block of each.
pub fn files_allocate()
    ensures { FilesAllocate }
{}

/// The emitted binner list of a job stands where the job begins it, in the job's region, and no job may write it.
pub fn bin_texts_begin()
    ensures { BinTextsBegin }
{}

/// So does the emitted renderer list.
pub fn render_texts_begin()
    ensures { RenderTextsBegin }
{}
