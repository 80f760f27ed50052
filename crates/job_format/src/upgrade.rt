//! A file in the later version of the format.
ghost use Rattle.std.specs.Prelude.{◌≡◌};
ghost use Rattle.job_format.specs.File.{IsWellFormed, file_upgraded};
ghost use Rattle.job_format.specs.Model.{file_view};

use crate::file::JobFile;

/// A file as version 2. A file of version 2 stays as it is.
pub fn upgrade_file(file: JobFile) -> JobFile
    ensures same { file_view result ≡ file_upgraded (file_view file) }
    // What could be written can be written still.
    ensures well_formed { IsWellFormed (file_view file) → IsWellFormed (file_view result) }
{
    JobFile {
        version: 2,
        mem_size: file.mem_size,
        regions: file.regions,
        buffers: file.buffers,
        contents: file.contents,
        jobs: file.jobs,
    }
}
