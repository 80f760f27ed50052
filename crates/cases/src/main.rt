//! Tries the cases of the files that data/list names: words and input of `vc4check`, and the status, output and notice that it answers.
//!
//! CONTRIBUTING.md says what stands in a file. Of each case that differs a line is printed, and last how many there are. The exit status is
//! 1 where one differs, and 2 where a file can't be read.
#![tactic(auto)]

mod answer;
mod case;
mod input;
mod tried;

use commands::Checker;
use std::process::ExitCode;
use tried::Tally;

fn main(rt: HostRuntime) -> ExitCode {
    match tried::all(&rt, &Checker) {
        Ok(Tally { differ: 0, .. }) => ExitCode::from(0),
        Ok(_) => ExitCode::from(1),
        Err(error) => {
            let _ = eprintln!(rt; "cases: {error}");
            ExitCode::from(2)
        }
    }
}
