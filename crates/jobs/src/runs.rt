//! The top call: the words, the bytes read, and the bytes written.
ghost use Rattle.std.specs.Prelude.{◌≡◌, ◌≢◌, ◌↔◌, ◌≤◌, ◌⊎◌, [], map, length, string_bytes, Some, None, IsSome, IfSome};
ghost use Rattle.std.specs.Io.KnownBytes.{Appends};
ghost use Rattle.jobs.specs.Causes.{Rose, AppendsFront, TookMore};
ghost use Rattle.jobs.specs.Commands.{command_of};
ghost use Rattle.jobs.specs.Job.{HasAnswer, IsJob, IsOf, Job, answer_text, limit};
ghost use Rattle.jobs.specs.Outcomes.{verdict_of};
ghost use Rattle.jobs.specs.Refusals as refused;
ghost use Rattle.jobs.specs.declared.command.Command.TheVariants.{Check};

use crate::answer::answer;
use crate::command::{Command, parse_command};
use crate::job::Refusal;
use crate::outcome::Outcome;
use crate::outside::{ReadError, Sink, Source, read_all, write_all};
use std::alloc::Global;

/// Reads one job as JSON to the source's end, and writes what the command that the words are
/// answers to it.
///
/// `canon` writes the canonical column of the slots that a column selects; `check` writes nothing,
/// and is done where the column is canonical. The words are the arguments after the program's name.
pub fn run<S: Source, K: Sink>(
    alloc: Global,
    words: &[String],
    source: &mut S,
    sink: &mut K,
) -> Outcome
    // The bytes are one whole job, and exactly its answer was written.
    ensures done { result ≡ Outcome.Done → IfSome (command_of (map string_bytes words.now)) (λ c.
        IfSome (S.left source.old) (λ bytes. (S.left source.new ≡ Some [])
        × ((j : Job) × (IsJob c bytes j × HasAnswer c j)
        × Appends (K.held sink.old) (K.held sink.new) (answer_text c j)))) }
    ensures usage { (result ≡ Outcome.Usage) ↔ (command_of (map string_bytes words.now) ≡ None) }
    ensures unread { result ≡ Outcome.Usage → source.new ≡ source.old }
    ensures read_fault { result ≡ Outcome.ReadFault
        → Rose (S.faults source.old) (S.faults source.new) }
    ensures write_fault { result ≡ Outcome.WriteFault
        → Rose (K.faults sink.old) (K.faults sink.new) }
    // Where a write failed, the sink has gained a prefix of the answer.
    ensures part { result ≡ Outcome.WriteFault
        → IfSome (command_of (map string_bytes words.now)) (λ c.
        IfSome (S.left source.old) (λ bytes. (S.left source.new ≡ Some [])
        × ((j : Job) × (IsJob c bytes j × HasAnswer c j)
        × AppendsFront (K.held sink.old) (K.held sink.new) (answer_text c j)))) }
    // A verdict is true of the bytes. Verdicts exclude one another, so each answer comes exactly
    // for its own.
    ensures verdict { IfSome (command_of (map string_bytes words.now)) (λ c.
        IfSome (S.left source.old) (λ bytes. IfSome (verdict_of result) (λ v. IsOf c v bytes))) }
    // A source that has too much was read past the limit.
    ensures past { result ≡ Outcome.TooLong
        → TookMore limit (S.left source.old) (S.left source.new) }
    // They were read to their end, where there aren't too many.
    ensures read { IfSome (S.left source.old) (λ bytes.
        IsSome (verdict_of result) → length bytes ≤ limit → S.left source.new ≡ Some []) }
    // No other answer has written anything, and a check writes nothing.
    ensures unwritten { result ≢ Outcome.Done → result ≢ Outcome.WriteFault → sink.new ≡ sink.old }
    ensures checked { command_of (map string_bytes words.now) ≡ Some Check
        → sink.new ≡ sink.old }
    // Without a fault a job that has an answer is done, or memory ran out.
    ensures complete { IfSome (command_of (map string_bytes words.now)) (λ c.
        ¬ Rose (S.faults source.old) (S.faults source.new)
        → ¬ Rose (K.faults sink.old) (K.faults sink.new)
        → IfSome (S.left source.old) (λ bytes. (j : Job) → IsJob c bytes j → HasAnswer c j
        → (result ≡ Outcome.Done) ⊎ (result ≡ Outcome.OutOfMemory))) }
{
    let Some(command) = parse_command(words) else {
        return Outcome::Usage;
    };
    run_command(alloc, command, source, sink)
}

/// The same of a command.
fn run_command<S: Source, K: Sink>(
    alloc: Global,
    command: Command,
    source: &mut S,
    sink: &mut K,
) -> Outcome
    ensures done { result ≡ Outcome.Done
        → IfSome (S.left source.old) (λ bytes. (S.left source.new ≡ Some [])
        × ((j : Job) × (IsJob command bytes j × HasAnswer command j)
        × Appends (K.held sink.old) (K.held sink.new) (answer_text command j))) }
    ensures no_usage { result ≢ Outcome.Usage }
    ensures read_fault { result ≡ Outcome.ReadFault
        → Rose (S.faults source.old) (S.faults source.new) }
    ensures write_fault { result ≡ Outcome.WriteFault
        → Rose (K.faults sink.old) (K.faults sink.new) }
    ensures part { result ≡ Outcome.WriteFault
        → IfSome (S.left source.old) (λ bytes. (S.left source.new ≡ Some [])
        × ((j : Job) × (IsJob command bytes j × HasAnswer command j)
        × AppendsFront (K.held sink.old) (K.held sink.new) (answer_text command j))) }
    ensures verdict { IfSome (S.left source.old) (λ bytes.
        IfSome (verdict_of result) (λ v. IsOf command v bytes)) }
    ensures past { result ≡ Outcome.TooLong
        → TookMore limit (S.left source.old) (S.left source.new) }
    ensures read { IfSome (S.left source.old) (λ bytes.
        IsSome (verdict_of result) → length bytes ≤ limit → S.left source.new ≡ Some []) }
    ensures unwritten { result ≢ Outcome.Done → result ≢ Outcome.WriteFault → sink.new ≡ sink.old }
    ensures checked { command ≡ Check → sink.new ≡ sink.old }
    ensures complete { ¬ Rose (S.faults source.old) (S.faults source.new)
        → ¬ Rose (K.faults sink.old) (K.faults sink.new)
        → IfSome (S.left source.old) (λ bytes. (j : Job) → IsJob command bytes j
        → HasAnswer command j → (result ≡ Outcome.Done) ⊎ (result ≡ Outcome.OutOfMemory)) }
{
    let bytes = match read_all(alloc, source) {
        Ok(bytes) => bytes,
        Err(ReadError::Fault) => return Outcome::ReadFault,
        Err(ReadError::TooLong) => return Outcome::TooLong,
        Err(ReadError::OutOfMemory) => return Outcome::OutOfMemory,
    };
    let text = match answer(alloc, command, &bytes) {
        Ok(text) => text,
        Err(refusal) => return outcome_of(refusal),
    };
    match write_all(sink, text.as_bytes()) {
        Ok(()) => Outcome::Done,
        Err(_) => Outcome::WriteFault,
    }
}

/// How a run ends that is refused.
fn outcome_of(refusal: Refusal) -> Outcome
    ensures { result ≡ refused.outcome_of refusal }
{
    match refusal {
        Refusal::BadText => Outcome::BadText,
        Refusal::BadJob => Outcome::BadJob,
        Refusal::TooDeep => Outcome::TooDeep,
        Refusal::BadLayout(i) => Outcome::BadLayout(i),
        Refusal::NotCanonical => Outcome::NotCanonical,
        Refusal::Overflow => Outcome::Overflow,
        Refusal::OutOfMemory => Outcome::OutOfMemory,
    }
}
