//! What no clause says of builders of binary values and of strings: that calls succeed with ample
//! memory, and the generic calls through their bounds.
use arrow_bytes::{BinaryArray, Utf8Array};
use arrow_push::{TryExtend, TryPush};
use arrow_push_bytes::{
    MutableBinaryArray, MutableBinaryValuesArray, MutableBinaryViewArray,
    MutableFixedSizeBinaryArray, MutableUtf8Array, MutableUtf8ValuesArray, NewSized,
};
use arrow_types::{ArrowDataType, PolarsResult, Reason};
use arrow_views::ViewStr;
use push_fixtures::Call::{
    Append, Extend, Fill, Push, PushRefused, Reserve, ShrinkToFit, Truncate,
};
use push_fixtures::{Call, gives, is_copied, makes_room};
use std::alloc::Global;
use std::test::Fail;

/// The byte strings that are pushed.
const ABC: &[u8] = b"abc";

const AB: &[u8] = b"ab";

const CD: &[u8] = b"cd";

const DE: &[u8] = b"de";

const F: &[u8] = b"f";

/// Whether calls of a builder of byte strings give these slots.
fn gives_byte_strings(
    alloc: Global,
    calls: &[Call<'_, &[u8]>],
    slots: &[Option<&[u8]>],
) -> PolarsResult<bool> {
    gives(
        MutableBinaryArray::<i32>::new(alloc),
        MutableBinaryArray::<i32>::new(alloc),
        calls,
        ArrowDataType::Binary,
        slots,
    )
}

/// Whether calls of a builder of byte strings of two bytes give these slots.
fn gives_pairs(
    alloc: Global,
    calls: &[Call<'_, &[u8]>],
    slots: &[Option<&[u8]>],
) -> PolarsResult<bool> {
    gives(
        MutableFixedSizeBinaryArray::new_sized(alloc, 2),
        MutableFixedSizeBinaryArray::new_sized(alloc, 2),
        calls,
        ArrowDataType::FixedSizeBinary(2),
        slots,
    )
}

#[test]
fn byte_strings_stand_as_they_were_pushed(rt: HostRuntime) -> Result<(), Fail> {
    let calls = [
        Reserve(4),
        Push(Some(ABC)),
        Push(None),
        Extend(&[None, Some(DE)]),
        ShrinkToFit,
    ];
    let slots = [Some(ABC), None, None, Some(DE)];
    assert!(rt; gives_byte_strings(rt.alloc(), &calls, &slots)?);
    Ok(())
}

#[test]
fn large_byte_strings_are_cut_back(rt: HostRuntime) -> Result<(), Fail> {
    let calls = [Push(Some(ABC)), Push(None), Truncate(1), Push(Some(F))];
    let builder = MutableBinaryArray::<i64>::new(rt.alloc());
    let other = MutableBinaryArray::<i64>::new(rt.alloc());
    let slots = [Some(ABC), Some(F)];
    let is_right = gives(builder, other, &calls, ArrowDataType::LargeBinary, &slots);
    assert!(rt; is_right?);
    Ok(())
}

#[test]
fn texts_stand_as_they_were_pushed(rt: HostRuntime) -> Result<(), Fail> {
    let calls = [Push(Some("abc")), Extend(&[None, Some("é")])];
    let builder = MutableUtf8Array::<i32>::new(rt.alloc());
    let other = MutableUtf8Array::<i32>::new(rt.alloc());
    let slots = [Some("abc"), None, Some("é")];
    let is_right = gives(builder, other, &calls, ArrowDataType::Utf8, &slots);
    assert!(rt; is_right?);
    Ok(())
}

/// Whether these are the values of the array.
fn has_values(array: &BinaryArray<i64>, values: &[&[u8]]) -> bool {
    array.values_iter().eq(values.iter().copied())
}

/// Whether these are the strings of the array.
fn has_texts(array: &Utf8Array<i32>, values: &[&str]) -> bool {
    array.values_iter().eq(values.iter().copied())
}

/// Whether byte strings, one by one and from an iterator, give their array, without a mask.
fn gives_values(builder: &mut MutableBinaryValuesArray<i64>) -> PolarsResult<bool> {
    builder.try_push(ABC)?;
    builder.try_extend([b"", DE])?;
    let array = builder.finish()?;
    let is_right = has_values(&array, &[ABC, b"", DE]) && array.validity().is_none();
    drop(array);
    Ok(is_right)
}

#[test]
fn byte_strings_without_nulls_go_in(rt: HostRuntime) -> Result<(), Fail> {
    let mut builder = MutableBinaryValuesArray::<i64>::new(rt.alloc())?;
    let is_right = gives_values(&mut builder);
    drop(builder);
    assert!(rt; is_right?);
    Ok(())
}

/// Whether texts, one by one and from an iterator, give their array, without a mask.
fn gives_text_values(builder: &mut MutableUtf8ValuesArray<i32>) -> PolarsResult<bool> {
    builder.try_push("abc")?;
    builder.try_extend(["", "é"])?;
    let array = builder.finish()?;
    let is_right = has_texts(&array, &["abc", "", "é"]) && array.validity().is_none();
    drop(array);
    Ok(is_right)
}

#[test]
fn texts_without_nulls_go_in(rt: HostRuntime) -> Result<(), Fail> {
    let mut builder = MutableUtf8ValuesArray::<i32>::new(rt.alloc())?;
    let is_right = gives_text_values(&mut builder);
    drop(builder);
    assert!(rt; is_right?);
    Ok(())
}

#[test]
fn byte_strings_of_another_size_are_refused(rt: HostRuntime) -> Result<(), Fail> {
    let calls = [
        Reserve(3),
        Push(Some(AB)),
        PushRefused(Some(ABC), Reason::WrongWidth),
        Extend(&[None, Some(CD)]),
    ];
    let slots = [Some(AB), None, Some(CD)];
    assert!(rt; gives_pairs(rt.alloc(), &calls, &slots)?);
    Ok(())
}

#[test]
fn byte_strings_of_another_builder_go_in(rt: HostRuntime) -> Result<(), Fail> {
    let strings = [Push(Some(ABC)), Append(&[None])];
    assert!(rt; gives_byte_strings(rt.alloc(), &strings, &[Some(ABC), None])?);
    let pairs = [Push(Some(AB)), Append(&[None, Some(CD)]), Truncate(2)];
    assert!(rt; gives_pairs(rt.alloc(), &pairs, &[Some(AB), None])?);
    Ok(())
}

#[test]
fn large_texts_of_another_builder_go_in(rt: HostRuntime) -> Result<(), Fail> {
    let calls = [Push(Some("abc")), Append(&[None, Some("é")]), Truncate(2)];
    let builder = MutableUtf8Array::<i64>::new(rt.alloc());
    let other = MutableUtf8Array::<i64>::new(rt.alloc());
    let slots = [Some("abc"), None];
    let is_right = gives(builder, other, &calls, ArrowDataType::LargeUtf8, &slots);
    assert!(rt; is_right?);
    Ok(())
}

#[test]
fn builders_are_filled_through_their_bounds(rt: HostRuntime) -> Result<(), Fail> {
    let slots = [Some(AB), None];
    assert!(rt; gives_byte_strings(rt.alloc(), &[Fill(AB)], &slots)?);
    assert!(rt; gives_pairs(rt.alloc(), &[Fill(AB)], &slots)?);
    Ok(())
}

#[test]
fn builders_are_copied(rt: HostRuntime) -> Result<(), Fail> {
    assert!(rt; is_copied(rt.alloc(), MutableBinaryArray::<i32>::new(rt.alloc()))?);
    assert!(rt; is_copied(rt.alloc(), MutableUtf8Array::<i64>::new(rt.alloc()))?);
    assert!(rt; is_copied(rt.alloc(), MutableUtf8ValuesArray::<i32>::new(rt.alloc()))?);
    let pairs = MutableFixedSizeBinaryArray::new_sized(rt.alloc(), 2);
    assert!(rt; is_copied(rt.alloc(), pairs)?);
    Ok(())
}

#[test]
fn room_is_made_for_bytes(rt: HostRuntime) -> Result<(), Fail> {
    assert!(rt; makes_room(MutableBinaryArray::<i32>::new(rt.alloc()), 2, 10)?);
    assert!(rt; makes_room(MutableBinaryViewArray::<ViewStr>::new(rt.alloc()), 2, 100)?);
    Ok(())
}
