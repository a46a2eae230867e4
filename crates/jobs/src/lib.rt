//! The jobs of the program: what it reads, what it answers, and how a run ends.
#![tactic(auto)]

mod answer;
mod command;
mod depth;
mod job;
pub mod laws;
mod memory;
mod outcome;
mod outside;
mod plain;
mod program;
mod runs;
mod standard;

pub use command::{Command, parse_command};
pub use memory::{MemorySink, MemorySource};
pub use outcome::{Outcome, message, outcome_text, status};
pub use outside::{Sink, SinkFailed, Source, SourceFailed};
pub use plain::{PlainSink, PlainSource};
pub use program::run_program;
pub use runs::run;
pub use standard::{StdSink, StdSource};
