//! The program without a command: it ends with status 2.
#![tactic(auto)]

use ff_host::answer;
use std::process::ExitCode;

fn main(rt: HostRuntime) -> ExitCode {
    answer(&rt)
}
