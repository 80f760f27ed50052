//! `vc4check`: a checker of 3D jobs for the VideoCore IV.
//!
//! It reads standard input or a file and writes standard output; the words after its name say what to do.
#![tactic(auto)]

ghost use Rattle.commands.specs.Run.{Promises};

use commands::Checker;
use entry::{Ran, run};

/// Runs the checker. What it promises of all that it may be given holds.
fn run_checker(rt: &HostRuntime) -> Ran
    ensures { Promises }
{
    run(rt, &Checker)
}

fn main(rt: HostRuntime) -> Ran {
    run_checker(&rt)
}
