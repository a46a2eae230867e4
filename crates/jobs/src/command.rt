//! The commands of the program.
ghost use Rattle.std.specs.Prelude.{◌≡◌, map, string_bytes};
ghost use Rattle.jobs.specs.Commands.{command_of, command_of_word};

/// What a run does with a job.
#[derive(Clone, Copy, Debug, PartialEq, Eq)]
pub enum Command {
    /// Writes the canonical column of the slots that a column selects.
    Canon,
    /// Says whether a column is canonical.
    Check,
}

/// The command that the words after the program's name are, None where they are none.
pub fn parse_command(words: &[String]) -> Option<Command>
    ensures { result ≡ command_of (map string_bytes words.now) }
{
    match words {
        [word] => command_named(word.as_str()),
        _ => None,
    }
}

/// The command of a word.
fn command_named(word: &str) -> Option<Command>
    ensures { result ≡ command_of_word word.now }
{
    if word == "canon" {
        Some(Command::Canon)
    } else if word == "check" {
        Some(Command::Check)
    } else {
        None
    }
}
