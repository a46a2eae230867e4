//! Whether an array is canonical.
ghost use Rattle.std.specs.Prelude.{◌↔◌, IfOk, IsTrue};
ghost use Rattle.arrow_layout.specs.Canonical.{Canonical};

use crate::normal::normalized;
use arrow_canonical::test_canonical;
use arrow_meaning::ArrayRef;
use arrow_scalar::same_layout;
use arrow_types::Mem;
use std::alloc::{AllocError, Global};

/// Whether an array is the canonical array of its slots, layout and all.
///
/// Tested on the array itself; where it holds a dictionary, the canonical array is built beside it.
/// Refused for want of memory alone; with a dictionary, a canonical array that fits no memory, its
/// counts or offsets passing their range, is answered so too.
pub fn is_canonical(alloc: Global, array: &ArrayRef) -> Mem<bool>
    ensures { IfOk result (λ b. IsTrue b ↔ Canonical array.now) }
{
    match test_canonical(alloc, array)? {
        Some(is_canonical) => Ok(is_canonical),
        None => equals_canonical(alloc, array),
    }
}

/// Whether an array has the layout of the canonical array that is built beside it.
fn equals_canonical(alloc: Global, array: &ArrayRef) -> Mem<bool>
    ensures { IfOk result (λ b. IsTrue b ↔ Canonical array.now) }
{
    array.invariant();
    match normalized(alloc, array) {
        Ok(canonical) => {
            let is_same = same_layout(array, &canonical);
            drop(canonical);
            Ok(is_same)
        }
        Err(_) => Err(AllocError),
    }
}
