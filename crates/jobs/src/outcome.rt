//! How a run ends.
ghost use Rattle.std.specs.Prelude.{◌≡◌, option_map};

/// How a run ended, and what the program tells of it.
#[derive(Clone, Copy, Debug, PartialEq, Eq)]
pub enum Outcome {
    /// The input was read to its end and the output written whole.
    Done,
    /// The words are none of the forms.
    Usage,
    /// The bytes are no JSON text that nests to depth 127.
    BadText,
    /// The value isn't in the command's grammar.
    BadJob,
    /// The column at this position is the first that isn't well formed.
    BadLayout(usize),
    /// The source gave more bytes than a job may have.
    TooLong,
    /// The type of a column is deeper than 32 levels.
    TooDeep,
    /// The column isn't canonical.
    NotCanonical,
    /// A count or an offset of the answer passes its range.
    Overflow,
    /// The source failed.
    ReadFault,
    /// The sink failed; it holds a prefix of the output.
    WriteFault,
    /// Memory ran out; nothing is written.
    OutOfMemory,
}

ghost use Rattle.jobs.specs.Outcomes.{text_of, message_of, status_of};

/// The text of an outcome. Takes no memory.
pub fn outcome_text(outcome: &Outcome) -> &str
    ensures { result.now ≡ text_of outcome.now }
{
    match outcome {
        Outcome::Done => "done",
        Outcome::Usage => "usage",
        Outcome::BadText => "bad text",
        Outcome::BadJob => "bad job",
        Outcome::BadLayout(_) => "bad layout",
        Outcome::TooLong => "too long",
        Outcome::TooDeep => "too deep",
        Outcome::NotCanonical => "not canonical",
        Outcome::Overflow => "overflow",
        Outcome::ReadFault => "read fault",
        Outcome::WriteFault => "write fault",
        Outcome::OutOfMemory => "out of memory",
    }
}

/// What the program writes to standard error, before a line feed: nothing where the run was done.
/// Takes no memory.
pub fn message(outcome: &Outcome) -> Option<&str>
    ensures { option_map (λ text. text.now) result ≡ message_of outcome.now }
{
    match outcome {
        Outcome::Done => None,
        _ => Some(outcome_text(outcome)),
    }
}

/// The status that the program ends with. Takes no memory.
pub fn status(outcome: &Outcome) -> u8
    ensures { result ≡ status_of outcome.now }
{
    match outcome {
        Outcome::Done => 0,
        Outcome::Usage => 2,
        Outcome::BadText => 3,
        Outcome::BadJob => 4,
        Outcome::BadLayout(_) => 5,
        Outcome::TooLong => 6,
        Outcome::TooDeep => 7,
        Outcome::NotCanonical => 8,
        Outcome::Overflow => 15,
        Outcome::ReadFault => 20,
        Outcome::WriteFault => 21,
        Outcome::OutOfMemory => 30,
    }
}
