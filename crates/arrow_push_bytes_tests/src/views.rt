//! What no clause says of builders of views: that calls succeed with ample memory, and that the
//! clauses mean what builders of views do.
use arrow_push::{NullableBuilder, TryExtend, TryPush};
use arrow_push_bytes::{ExtendFromLengths, MutableBinaryViewArray};
use arrow_types::{ArrowDataType, PolarsResult};
use arrow_views::{Utf8ViewArray, View, ViewBytes, ViewStr, ViewType};
use push_fixtures::Call::{Push, PushNull, Reserve, ShrinkToFit};
use push_fixtures::{Slots, gives, is_copied};
use std::test::Fail;

const LONG: &str = "abcdefghijklmnopqrstuvwxyz0123456789ABCDEFGHI";

const PAIR: &[u8] = b"\xff\x00";

/// Whether these texts stand in the array, the last by a view of its bytes in a buffer.
fn has_texts(array: &Utf8ViewArray) -> bool {
    let dtype = ArrowDataType::Utf8View;
    let is_right = array.has(&dtype, &[Some("abc"), None, Some(LONG)]);
    drop(dtype);
    is_right && array.views().as_slice().last().copied() == Some(View::new_long(45, *b"abcd", 0, 0))
}

/// Whether texts give their array, and the builder is left empty and without a mask.
fn gives_texts(builder: &mut MutableBinaryViewArray<ViewStr>) -> PolarsResult<bool> {
    builder.try_extend([Some("abc"), None, Some(LONG)])?;
    let array = builder.finish()?;
    let is_right = has_texts(&array) && builder.len() == 0 && builder.validity().is_none();
    drop(array);
    Ok(is_right)
}

#[test]
fn texts_stand_as_they_were_pushed(rt: HostRuntime) -> Result<(), Fail> {
    let mut builder = MutableBinaryViewArray::<ViewStr>::new(rt.alloc())?;
    let is_right = gives_texts(&mut builder);
    drop(builder);
    assert!(rt; is_right?);
    Ok(())
}

#[test]
fn byte_strings_stand_as_they_were_pushed(rt: HostRuntime) -> Result<(), Fail> {
    let calls = [Reserve(20), Push(Some(PAIR)), PushNull, ShrinkToFit];
    let builder = MutableBinaryViewArray::<ViewBytes>::new(rt.alloc());
    let other = MutableBinaryViewArray::<ViewBytes>::new(rt.alloc());
    let slots = [Some(PAIR), None];
    let is_right = gives(builder, other, &calls, ArrowDataType::BinaryView, &slots);
    assert!(rt; is_right?);
    Ok(())
}

/// Whether these are the values, from both ends.
fn holds<T: ViewType>(builder: &MutableBinaryViewArray<T>, values: &[&[u8]]) -> bool {
    let built = builder.values();
    built.values_iter().eq(values.iter().copied())
        && built.values_iter().rev().eq(values.iter().rev().copied())
}

/// Whether no bytes stand under a null.
fn is_blank_under_a_null(builder: &mut MutableBinaryViewArray<ViewStr>) -> PolarsResult<bool> {
    builder.try_push(Some("abc"))?;
    builder.push_null()?;
    Ok(holds(builder, &[b"abc", b""]))
}

#[test]
fn no_bytes_stand_under_a_null(rt: HostRuntime) -> Result<(), Fail> {
    let mut builder = MutableBinaryViewArray::<ViewStr>::new(rt.alloc())?;
    let is_right = is_blank_under_a_null(&mut builder);
    drop(builder);
    assert!(rt; is_right?);
    Ok(())
}

/// Whether short values go in at once.
fn takes_short(builder: &mut MutableBinaryViewArray<ViewStr>) -> PolarsResult<bool> {
    builder.extend_from_lengths(b"abcdefghixxyza1234abcd", &[3, 4, 3, 12])?;
    Ok(holds(builder, &[b"abc", b"defg", b"hix", b"xyza1234abcd"]))
}

#[test]
fn short_values_go_in_at_once(rt: HostRuntime) -> Result<(), Fail> {
    let mut builder = MutableBinaryViewArray::<ViewStr>::new(rt.alloc())?;
    let is_right = takes_short(&mut builder);
    drop(builder);
    assert!(rt; is_right?);
    Ok(())
}

/// Whether a short and a long value go in at once.
fn takes_long(builder: &mut MutableBinaryViewArray<ViewBytes>) -> PolarsResult<bool> {
    let bytes = b"abcabcdefghijklmnopqrstuvwxyz0123456789ABCDEFGHI";
    builder.extend_from_lengths(bytes, &[3, 45])?;
    Ok(holds(builder, &[b"abc", LONG.as_bytes()]))
}

#[test]
fn a_long_value_goes_in_at_once(rt: HostRuntime) -> Result<(), Fail> {
    let mut builder = MutableBinaryViewArray::<ViewBytes>::new(rt.alloc())?;
    let is_right = takes_long(&mut builder);
    drop(builder);
    assert!(rt; is_right?);
    Ok(())
}

#[test]
fn builders_are_copied(rt: HostRuntime) -> Result<(), Fail> {
    assert!(rt;
        is_copied(
            rt.alloc(),
            MutableBinaryViewArray::<ViewStr>::new(rt.alloc())
        )?
    );
    Ok(())
}
