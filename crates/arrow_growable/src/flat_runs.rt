//! Runs that growables of arrays without children take.
ghost use Rattle.std.specs.Prelude.{[], ◌∷◌};
ghost use Rattle.arrow_layout.specs.Forms.{form_of};
ghost use Rattle.arrow_grow_flat.specs.Grown.{Grows, copied};
ghost use Rattle.arrow_growable.specs.NestedGrown.{IsFlat, MayTake, taken_of};

use arrow_canon::Run;
use arrow_grow_flat::Growable;
use arrow_types::GrowError;

/// Appends the slots that runs pick out of an array, `copies` times.
pub fn extend_flat<G: Growable>(
    growable: &mut G,
    index: usize,
    runs: &[Run],
    copies: usize,
) -> Result<(), GrowError>
    requires taken { MayTake (G.seen growable.old) index runs.now }
    requires flat { IsFlat (form_of (G.seen growable.old).dtype) }
    ensures { let slots = copied copies (taken_of (G.seen growable.old) index runs.now) in
        Grows (G.seen growable.old) slots (G.seen growable.new) result }
{
    growable.invariant();
    for _copy in 0..copies {
        extend_once(growable, index, runs)?;
    }
    Ok(())
}

/// Appends the slots that runs pick out of an array.
fn extend_once<G: Growable>(growable: &mut G, index: usize, runs: &[Run]) -> Result<(), GrowError>
    requires taken { MayTake (G.seen growable.old) index runs.now }
    requires flat { IsFlat (form_of (G.seen growable.old).dtype) }
    ensures { Grows (G.seen growable.old) (taken_of (G.seen growable.old) index runs.now)
        (G.seen growable.new) result }
{
    growable.invariant();
    for run in runs {
        extend_run(growable, index, *run)?;
    }
    Ok(())
}

/// Appends the slots that a run picks out of an array.
fn extend_run<G: Growable>(growable: &mut G, index: usize, run: Run) -> Result<(), GrowError>
    requires { MayTake (G.seen growable.old) index (run ∷ []) }
    ensures { Grows (G.seen growable.old) (taken_of (G.seen growable.old) index (run ∷ []))
        (G.seen growable.new) result }
{
    match run {
        Run::Slots { start, length } => growable.extend(index, start, length),
        Run::Fill { count } => growable.extend_validity(count),
    }
}
