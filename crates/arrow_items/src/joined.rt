//! Runs that grow at their end, joined where one continues another.
ghost use Rattle.std.specs.Prelude.{◌≡◌, ℕ, ◌++◌, ◌+◌, ◌≤◌, replicate, None, IfSome, OnOk};
ghost use Rattle.arrow_canon.specs.Picks.{span};
ghost use Rattle.arrow_canon.specs.Runs.{places, places_of, IsWithin, AreWithin};

use arrow_canon::Run;
use arrow_types::Mem;

/// Appends the slots from `start` on, joined to the last run where they continue it.
pub(crate) fn push_slots(runs: &mut Vec<Run>, start: usize, length: usize) -> Mem<()>
    ensures places { OnOk result (places runs.new.items ≡ places runs.old.items ++ span start length) }
    ensures inside { OnOk result ((n : ℕ) → AreWithin n runs.old.items → start + length ≤ n
        → AreWithin n runs.new.items) }
{
    if length == 0 {
        return Ok(());
    }
    if let Some(last) = runs.pop() {
        if let Some(run) = joined_slots(last, start, length) {
            runs.push(run)?;
            return Ok(());
        }
        runs.push(last)?;
    }
    runs.push(Run::Slots { start, length })?;
    Ok(())
}

/// Appends n fillings, joined to the last run where it is one of fillings.
pub(crate) fn push_fill(runs: &mut Vec<Run>, count: usize) -> Mem<()>
    ensures places { OnOk result
        (places runs.new.items ≡ places runs.old.items ++ replicate count None) }
    ensures inside { OnOk result ((n : ℕ) → AreWithin n runs.old.items → AreWithin n runs.new.items) }
{
    if count == 0 {
        return Ok(());
    }
    if let Some(last) = runs.pop() {
        if let Some(run) = joined_fill(last, count) {
            runs.push(run)?;
            return Ok(());
        }
        runs.push(last)?;
    }
    runs.push(Run::Fill { count })?;
    Ok(())
}

/// The run with the slots after it, where they continue it.
fn joined_slots(last: Run, start: usize, length: usize) -> Option<Run>
    ensures places { IfSome result (λ run. places_of run ≡ places_of last ++ span start length) }
    ensures inside { IfSome result (λ run. (n : ℕ) → IsWithin n last → start + length ≤ n
        → IsWithin n run) }
{
    match last {
        Run::Slots {
            start: first,
            length: before,
        } => {
            if first.checked_add(before)? != start {
                return None;
            }
            Some(Run::Slots {
                start: first,
                length: before.checked_add(length)?,
            })
        }
        Run::Fill { .. } => None,
    }
}

/// The run with n fillings after it, where it is one of fillings.
fn joined_fill(last: Run, count: usize) -> Option<Run>
    ensures places { IfSome result (λ run. places_of run ≡ places_of last ++ replicate count None) }
    ensures inside { IfSome result (λ run. (n : ℕ) → IsWithin n run) }
{
    match last {
        Run::Slots { .. } => None,
        Run::Fill { count: before } => Some(Run::Fill {
            count: before.checked_add(count)?,
        }),
    }
}
