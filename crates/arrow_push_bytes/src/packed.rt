//! The array of values by views.
ghost use Rattle.std.specs.Prelude.{◌≡◌, length as count, IfOk};
ghost use Rattle.arrow_flat.specs.Primitives.{MaskHasLength};
ghost use Rattle.arrow_views.specs.ViewArrays.{values_of};
ghost use Rattle.arrow_push_bytes.specs.BuiltViews.{AreViewStrings};

use crate::ByteStrings;
use arrow_buffers::{Bitmap, Buffer};
use arrow_flat::ViewType;
use arrow_types::{ArrowDataType, Mem};
use arrow_views::{BinaryValues, BinaryViewArrayGeneric, pack_values};
use std::alloc::Global;

impl BinaryValues for ByteStrings<i64> {
    ghost values = { λ strings. strings };

    fn value_count(&self) -> usize {
        self.len()
    }

    fn value_at(&self, i: usize) -> &[u8] {
        self.value(i)
    }
}

/// The array of the values under a mask.
pub(crate) fn packed_array<T: ViewType>(
    alloc: Global,
    dtype: &ArrowDataType,
    strings: &ByteStrings<i64>,
    validity: Option<Bitmap>,
) -> Mem<BinaryViewArrayGeneric<T>>
    requires fits { MaskHasLength validity (count strings.now) }
    requires sound { AreViewStrings T.IS_TEXT record { dtype = dtype.now; strings = strings.now } }
    ensures kind { IfOk result (λ a. a.dtype ≡ dtype.now) }
    ensures value { IfOk result (λ a. values_of a ≡ strings.now) }
    ensures mask { IfOk result (λ a. a.mask ≡ validity) }
{
    let dtype = dtype.try_clone(alloc)?;
    let (views, buffers) = pack_values(alloc, strings)?;
    let views = Buffer::from_vec(alloc, views)?;
    Ok(BinaryViewArrayGeneric::new(dtype, views, buffers, validity))
}
