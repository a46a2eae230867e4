//! Canonical bits and masks.
ghost use Rattle.std.specs.Prelude.{◌≡◌, ◌++◌, map, None, IfOk, OnOk};
ghost use Rattle.std.specs.List.{list_all};
ghost use Rattle.std.specs.Option.{option_copied};
ghost use Rattle.arrow_buffers.specs.Bits.{plain, same};
ghost use Rattle.arrow_canon.specs.Picks.{picked_mask, valid_place};
ghost use Rattle.arrow_canon.specs.Runs.{places, places_of, IsWithinMask, AreWithinMask};

use crate::run::Run;
use arrow_buffers::{Bitmap, MutableBitmap};
use arrow_types::Mem;
use std::alloc::Global;

/// The mask of the slots that runs pick; none where no bit is unset. Bits are copied whole bytes at
/// a time.
pub fn mask_of_runs(alloc: Global, validity: Option<&Bitmap>, runs: &[Run]) -> Mem<Option<Bitmap>>
    requires { AreWithinMask (option_copied validity) runs.now }
    ensures { IfOk result (λ m.
        m ≡ picked_mask (option_copied validity.entry) (places runs.now)) }
{
    if validity.is_none() && are_slots(runs) {
        return Ok(None);
    }
    let bits = bits_of_runs(alloc, validity, runs)?;
    Ok(bits.into_opt_validity())
}

/// Whether no run picks a filling.
fn are_slots(runs: &[Run]) -> bool
    ensures { result ≡ list_all same (map (valid_place None) (places runs.now)) }
{
    for run in runs {
        if !is_of_slots(*run) {
            return false;
        }
    }
    true
}

/// Whether a run picks no filling.
fn is_of_slots(run: Run) -> bool
    ensures { result ≡ list_all same (map (valid_place None) (places_of run)) }
{
    match run {
        Run::Slots { .. } => true,
        Run::Fill { count } => count == 0,
    }
}

/// The bits of the slots that runs pick, set ones where there is no bitmap, and unset ones for
/// fillings.
pub(crate) fn bits_of_runs(alloc: Global, validity: Option<&Bitmap>, runs: &[Run]) -> Mem<Bitmap>
    requires { AreWithinMask (option_copied validity) runs.now }
    ensures { IfOk result (λ b.
        b ≡ plain (map (valid_place (option_copied validity.entry)) (places runs.now))) }
{
    let mut bits = MutableBitmap::new(alloc);
    for run in runs {
        push_bits(&mut bits, validity, *run)?;
    }
    bits.freeze()
}

/// Appends the bits of a run.
fn push_bits(bits: &mut MutableBitmap, validity: Option<&Bitmap>, run: Run) -> Mem<()>
    requires { IsWithinMask (option_copied validity) run }
    ensures { OnOk result (bits.new
        ≡ bits.old ++ map (valid_place (option_copied validity.entry)) (places_of run)) }
{
    match run {
        Run::Fill { count } => {
            bits.extend_constant(count, false)?;
            Ok(())
        }
        Run::Slots { start, length } => match validity {
            None => {
                bits.extend_constant(length, true)?;
                Ok(())
            }
            Some(mask) => {
                bits.extend_from_range(mask, start, length)?;
                Ok(())
            }
        },
    }
}
