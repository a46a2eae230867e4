//! The program: its words, one run over standard input and output, its message and its status.
ghost use Rattle.std.specs.Prelude.{◌≡◌};
ghost use Rattle.std.specs.Process.{exit_status};
ghost use Rattle.jobs.specs.Outcomes.{status_of, IsStatus};

use crate::outcome::{Outcome, message, status};
use crate::runs::run;
use crate::standard::{StdSink, StdSource};
use std::process::ExitCode;
use std::rt::Env;
use std::{env, io};

/// Runs the words that follow the program's name over standard input and standard output, and
/// writes a message to standard error where the run isn't done.
///
/// The status is that of the run's outcome; 1 where the words couldn't be had, and then nothing is
/// read or written.
pub fn run_program<R: AllocGlobal + Env + Input + Print + Eprint>(rt: &R) -> ExitCode
    ensures { IsStatus (exit_status result) }
{
    let Ok(args) = env::args(rt) else {
        return ExitCode::from(1);
    };
    let Ok(words) = args.skip(1).collect::<Vec<String>>(rt.alloc()) else {
        return ExitCode::from(1);
    };
    let mut source = StdSource::new(rt.reader());
    let mut sink = StdSink::new(io::writer(rt));
    let outcome = run(rt.alloc(), words.as_slice(), &mut source, &mut sink);
    report(rt, &outcome)
}

/// Writes an outcome's message, if it has one, to standard error, and returns its status, even
/// where that write fails.
fn report<R: Eprint>(rt: &R, outcome: &Outcome) -> ExitCode
    ensures { exit_status result ≡ status_of outcome.now }
{
    if let Some(text) = message(outcome) {
        let _ = eprintln!(rt; "{text}");
    }
    ExitCode::from(status(outcome))
}
