//! The program `columns` on a job that it refuses: standard error and the status say why.
#![tactic(auto)]

use std::process::ExitCode;

fn main(rt: HostRuntime) -> ExitCode {
    jobs::run_program(&rt)
}
