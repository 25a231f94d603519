//! Answers a script about the functions of a curve over a finite field: it reads the script from standard input, and
//! prints to standard output a block for each statement.
#![tactic(auto)]

use ff_host::answer;
use std::process::ExitCode;

fn main(rt: HostRuntime) -> ExitCode {
    answer(&rt)
}
