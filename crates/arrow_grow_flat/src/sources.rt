//! The arrays that a growable takes from.
ghost use Rattle.std.specs.Prelude.{◌≡◌, map, IfOk};
ghost use Rattle.std.specs.List.{AllByRecursion};
ghost use Rattle.arrow_layout.specs.WellFormed.{WellFormed};

use arrow_meaning::FlatNode;
use arrow_types::Mem;
use std::alloc::Global;

/// Shared copies of arrays, each of which is well formed.
pub(crate) fn share_all<A: FlatNode>(alloc: Global, arrays: &[A]) -> Mem<Vec<A>>
    ensures same { IfOk result (λ v. v.items ≡ arrays.now) }
    ensures sound { IfOk result (λ v. AllByRecursion WellFormed (map A.layout arrays.now)) }
{
    let mut shared = Vec::new(alloc);
    for array in arrays {
        array.invariant();
        shared.push(array.try_clone(alloc)?)?;
    }
    Ok(shared)
}
