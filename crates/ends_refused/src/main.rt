//! The program over a script that is refused: it ends with status 1.
#![tactic(auto)]

use ff_host::answer;
use std::process::ExitCode;

fn main(rt: HostRuntime) -> ExitCode {
    answer(&rt)
}
