//! Reads a column as JSON, and writes the canonical layout of its slots.
#![tactic(auto)]

use std::process::ExitCode;

fn main(rt: HostRuntime) -> ExitCode {
    jobs::run_program(&rt)
}
