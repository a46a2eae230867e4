//! The canonical arrays of byte strings and texts by views.
use crate::fixtures::{buffer_of, is_plain};
use arrow_buffers::{Bitmap, Buffer};
use arrow_canon::{Run, canonical_view};
use arrow_types::{ArrowDataType, Mem};
use arrow_views::{BinaryViewArrayGeneric, View, ViewBytes, ViewStr, ViewType};
use std::alloc::Global;
use std::test::Fail;

/// A buffer of one null's bytes and two long values.
fn one_buffer(alloc: Global) -> Mem<Vec<Buffer<u8>>> {
    let buffer = buffer_of(
        alloc,
        b"hidden under a nullfirst long valuesecond long value",
    )?;
    Ok(vec![in alloc; buffer]?)
}

/// The views of a long value, of another that stands before it, of a short one, and of a second
/// long one.
fn four_views(alloc: Global) -> Mem<Buffer<View>> {
    let views = [
        View::new_long(16, *b"firs", 0, 19),
        View::new_long(19, *b"hidd", 0, 0),
        View::new_inline(b"tiny"),
        View::new_long(17, *b"seco", 0, 35),
    ];
    buffer_of(alloc, &views)
}

/// A long value, a null over another, a short value and a second long one; the null's bytes stand
/// first in the buffer.
fn scattered_views<T: ViewType>(alloc: Global) -> Result<BinaryViewArrayGeneric<T>, Fail> {
    let views = four_views(alloc)?;
    let mask = Bitmap::from_bools(alloc, &[true, false, true, true])?;
    let buffers = one_buffer(alloc)?;
    let dtype = if T::IS_TEXT {
        ArrowDataType::Utf8View
    } else {
        ArrowDataType::BinaryView
    };
    Ok(BinaryViewArrayGeneric::try_new(dtype, views, buffers, Some(mask))?)
}

/// Whether there is one buffer, and it has these bytes.
fn are_these(buffers: &[Buffer<u8>], wanted: &[u8]) -> bool {
    buffers.len() == 1 && buffers[0].as_slice() == wanted
}

/// Whether the two long values follow one another from 0 on, and the null's view is that of no
/// bytes.
fn is_packed<T: ViewType>(array: &BinaryViewArrayGeneric<T>) -> bool {
    let wanted = [
        View::new_long(16, *b"firs", 0, 0),
        View::new_inline(b""),
        View::new_inline(b"tiny"),
        View::new_long(17, *b"seco", 0, 16),
    ];
    array.views().as_slice() == wanted.as_slice()
        && are_these(array.data_buffers(), b"first long valuesecond long value")
        && is_plain(array.validity(), &[true, false, true, true])
}

fn views_are_packed<T: ViewType>(alloc: Global) -> Result<bool, Fail> {
    let array = scattered_views::<T>(alloc)?;
    let length = array.len();
    let runs = [Run::Slots { start: 0, length }];
    let canonical = canonical_view(alloc, &array, array.dtype(), &runs);
    drop(array);
    let packed = canonical?;
    let is_right = is_packed(&packed);
    drop(packed);
    Ok(is_right)
}

#[test]
fn long_values_move_into_one_buffer(rt: HostRuntime) -> Result<(), Fail> {
    let alloc = rt.alloc();
    assert!(rt; views_are_packed::<ViewBytes>(alloc)? && views_are_packed::<ViewStr>(alloc)?);
    Ok(())
}
