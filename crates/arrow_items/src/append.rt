//! Runs appended to others.
ghost use Rattle.std.specs.Prelude.{◌≡◌, ℕ, ◌++◌, OnOk};
ghost use Rattle.arrow_canon.specs.Runs.{places, places_of, IsWithin, AreWithin};

use crate::joined::{push_fill, push_slots};
use arrow_canon::Run;
use arrow_types::Mem;

/// Appends a run, joined to the last one where it continues it.
pub(crate) fn push_run(runs: &mut Vec<Run>, run: Run) -> Mem<()>
    ensures places { OnOk result (places runs.new.items ≡ places runs.old.items ++ places_of run) }
    ensures within { OnOk result ((n : ℕ) → IsWithin n run
        → AreWithin n runs.old.items → AreWithin n runs.new.items) }
{
    match run {
        Run::Slots { start, length } => {
            push_slots(runs, start, length)?;
            Ok(())
        }
        Run::Fill { count } => {
            push_fill(runs, count)?;
            Ok(())
        }
    }
}
