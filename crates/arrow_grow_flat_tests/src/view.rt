//! The growable of views shares its arrays' buffers, and puts the view of no bytes under a null.
ghost use Rattle.std.specs.Prelude.{◌≡◌, IfOk};
ghost use Rattle.arrow_types.specs.declared.datatype.ArrowDataType.TheVariants as dtype;

use arrow_buffers::Buffer;
use arrow_grow_flat::{Growable, GrowableBinaryViewArray};
use arrow_meaning::ArrayRef;
use arrow_types::{ArrowDataType, GrowError, Mem};
use arrow_views::{Utf8ViewArray, View, ViewStr};
use flat_fixtures::{buffer_of, mask_of};
use std::alloc::Global;
use std::test::Fail;

/// Strings over one buffer, whose second slot is null where there is a mask.
fn strings(
    alloc: Global,
    views: &[View],
    bytes: &[u8],
    masked: Option<usize>,
) -> Result<Utf8ViewArray, Fail>
    ensures { IfOk result (λ a. a.dtype ≡ dtype.Utf8View) }
{
    let views = buffer_of(alloc, views)?;
    let buffers = one_buffer(alloc, bytes)?;
    let mask = mask_of(alloc, masked)?;
    Ok(Utf8ViewArray::try_new(ArrowDataType::Utf8View, views, buffers, mask)?)
}

fn one_buffer(alloc: Global, bytes: &[u8]) -> Mem<Vec<Buffer<u8>>> {
    let buffer = buffer_of(alloc, bytes)?;
    Ok(vec![in alloc; buffer]?)
}

/// A long value, a null over another, and a short value.
fn first(alloc: Global) -> Result<Utf8ViewArray, Fail>
    ensures { IfOk result (λ a. a.dtype ≡ dtype.Utf8View) }
{
    let views = [
        View::new_long(16, *b"firs", 0, 19),
        View::new_long(19, *b"hidd", 0, 0),
        View::new_inline(b"tiny"),
    ];
    strings(
        alloc,
        &views,
        b"hidden under a nullfirst long value",
        Some(3),
    )
}

/// A long value, and one without bytes.
fn second(alloc: Global) -> Result<Utf8ViewArray, Fail>
    ensures { IfOk result (λ a. a.dtype ≡ dtype.Utf8View) }
{
    let views = [View::new_long(17, *b"seco", 0, 0), View::new_inline(b"")];
    strings(alloc, &views, b"second long value", None)
}

/// All slots of the first array, a null, and twice those of the second; None where the growable
/// isn't made of these.
fn grown<G: Growable>(growable: &mut G) -> Result<Option<ArrayRef>, GrowError> {
    if growable.is_failed() || !growable.takes_nulls() || growable.array_count() != 2 {
        return Ok(None);
    }
    if growable.array_len(0) != 3 || growable.array_len(1) != 2 {
        return Ok(None);
    }
    growable.extend(0, 0, 3)?;
    growable.extend_validity(1)?;
    growable.extend_copies(1, 0, 2, 2)?;
    Ok(Some(growable.as_box()?))
}

/// Whether the views name the buffers of both arrays, one after another, and those of nulls are of
/// no bytes.
fn shares_buffers(array: &Utf8ViewArray) -> bool {
    let nothing = View::new_inline(b"");
    let second = View::new_long(17, *b"seco", 1, 0);
    let wanted = [
        View::new_long(16, *b"firs", 0, 19),
        nothing,
        View::new_inline(b"tiny"),
        nothing,
        second,
        nothing,
        second,
        nothing,
    ];
    let buffers = array.data_buffers();
    array.views().as_slice() == wanted.as_slice()
        && buffers.len() == 2
        && buffers[0].as_slice() == b"hidden under a nullfirst long value".as_slice()
        && buffers[1].as_slice() == b"second long value".as_slice()
}

/// Whether these are the strings that grow.
fn are_strings(array: &Utf8ViewArray) -> bool {
    let long = Some("second long value");
    let wanted = [
        Some("first long value"),
        None,
        Some("tiny"),
        None,
        long,
        Some(""),
        long,
        Some(""),
    ];
    array.iter().eq(wanted.iter().copied())
}

/// Whether the array has the strings and shares the buffers.
fn is_grown(array: &ArrayRef) -> bool {
    match array.as_view::<ViewStr>() {
        Some(array) => are_strings(array) && shares_buffers(array),
        None => false,
    }
}

/// Whether strings grow twice out of one growable.
fn grows_twice(alloc: Global) -> Result<bool, Fail> {
    let arrays = [first(alloc)?, second(alloc)?];
    let mut growable = GrowableBinaryViewArray::<ViewStr>::new(alloc, &arrays, false, 3)?;
    for _ in 0..2 {
        let Some(array) = grown(&mut growable)? else {
            return Ok(false);
        };
        if !is_grown(&array) {
            return Ok(false);
        }
    }
    Ok(!growable.is_failed() && growable.len() == 0)
}

#[test]
fn strings_share_the_buffers_of_their_arrays(rt: HostRuntime) -> Result<(), Fail> {
    assert!(rt; grows_twice(rt.alloc())?);
    Ok(())
}
