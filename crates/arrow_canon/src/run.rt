//! Runs of slots that are picked out of an array.
ghost use Rattle.std.specs.Prelude.{◌≡◌, ◌++◌, ◌^◌, ◌≤◌, length as len, replicate, None, IfOk, OnOk, MatchOption};
ghost use Rattle.arrow_canon.specs.Picks.{span};
ghost use Rattle.arrow_canon.specs.Runs.{places, places_of};

use arrow_types::Mem;
use std::alloc::{AllocError, Global};

/// Slots picked out of an array one after another.
#[derive(Clone, Copy)]
pub enum Run {
    /// The slots from `start` on.
    Slots { start: usize, length: usize },
    /// Fillings: a union's slot of its first type number, else nulls.
    Fill { count: usize },
}

/// How many slots a run picks.
fn count_of(run: Run) -> usize
    ensures { result ≡ len (places_of run) }
{
    match run {
        Run::Slots { length, .. } => length,
        Run::Fill { count } => count,
    }
}

/// How many slots the runs pick; None exactly where a usize doesn't hold it.
pub fn count_slots(runs: &[Run]) -> Option<usize>
    ensures { MatchOption result (2 ^ 64 ≤ len (places runs.now)) (λ n. n ≡ len (places runs.now)) }
{
    let mut total: usize = 0;
    for run in runs {
        match total.checked_add(count_of(*run)) {
            Some(sum) => total = sum,
            None => return None,
        }
    }
    Some(total)
}

/// The position of each slot that the runs pick, none for a filling, with room made for n slots.
pub(crate) fn places_of_runs(alloc: Global, runs: &[Run], room: usize) -> Mem<Vec<Option<usize>>>
    ensures { IfOk result (λ v. v.items ≡ places runs.now) }
{
    let mut positions = Vec::new(alloc);
    positions.reserve(room)?;
    for run in runs {
        push_run(&mut positions, *run)?;
    }
    Ok(positions)
}

/// Appends the positions of a run.
fn push_run(positions: &mut Vec<Option<usize>>, run: Run) -> Mem<()>
    ensures { OnOk result (positions.new.items ≡ positions.old.items ++ places_of run) }
{
    match run {
        Run::Slots { start, length } => {
            push_slots(positions, start, length)?;
            Ok(())
        }
        Run::Fill { count } => {
            push_fill(positions, count)?;
            Ok(())
        }
    }
}

/// Appends n positions.
fn push_slots(positions: &mut Vec<Option<usize>>, start: usize, length: usize) -> Mem<()>
    ensures { OnOk result (positions.new.items ≡ positions.old.items ++ span start length) }
{
    let Some(end) = start.checked_add(length) else {
        return Err(AllocError);
    };
    for i in start..end {
        positions.push(Some(i))?;
    }
    Ok(())
}

/// Appends n fillings.
fn push_fill(positions: &mut Vec<Option<usize>>, count: usize) -> Mem<()>
    ensures { OnOk result (positions.new.items ≡ positions.old.items ++ replicate count None) }
{
    let Some(end) = positions.len().checked_add(count) else {
        return Err(AllocError);
    };
    positions.resize(end, None)
}
