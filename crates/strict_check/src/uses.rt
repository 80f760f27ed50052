//! What shaders use that not each kind of program may.
ghost use Rattle.std.specs.Prelude.{◌≡◌, ◌<◌, length};
ghost use Rattle.job_format.specs.File.{IsWellFormed};
ghost use Rattle.job_format.specs.Parts.{parts_view};
ghost use Rattle.strict_check.specs.Findings.{all_findings};
ghost use Rattle.strict_check.specs.Uses.{uses_nothing, uses_named};

use crate::findings::Findings;
use job_check::job_at;
use job_format::FileParts;

/// Whether a shader uses the VPM, which a fragment shader may not, and whether it uses the tile buffer, the scoreboard or varyings,
/// which a vertex or coordinate shader may not.
#[derive(Clone, Copy, Debug, PartialEq, Eq)]
pub struct Uses {
    pub vpm: bool,
    pub tile: bool,
}

impl Uses {
    /// Neither.
    pub(crate) fn nothing() -> Uses
        ensures { result ≡ uses_nothing }
    {
        Uses {
            vpm: false,
            tile: false,
        }
    }
}

/// What the shader uses that a handle of the job of this number names, where `findings` has what was found of the shader of each buffer;
/// nothing where it names no Code buffer.
pub(crate) fn uses_named(
    file: &FileParts,
    number: usize,
    findings: &[Findings],
    handle: u32,
) -> Uses
    requires well_formed { IsWellFormed (parts_view file.now) }
    requires inside { number < length file.now.jobs.items }
    ensures { findings.now ≡ all_findings (parts_view file.now)
        → result ≡ uses_named (parts_view file.now) number handle }
{
    let handles = job_at(file, number).handles.as_slice();
    if handles.len() <= handle as usize {
        return Uses::nothing();
    }
    let buffer = handles[handle as usize] as usize;
    if findings.len() <= buffer {
        return Uses::nothing();
    }
    findings[buffer].uses
}
