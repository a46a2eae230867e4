//! Each kind of array as text.
use crate::fixtures::{buffer_of, days, is_text, is_value, offsets_of};
use arrow_buffers::{Bitmap, Buffer};
use arrow_bytes::{BinaryArray, FixedSizeBinaryArray, Utf8Array};
use arrow_flat::{BooleanArray, DaysMs, MonthDayNano, PrimitiveArray};
use arrow_types::{ArrowDataType, IntervalUnit, Mem};
use arrow_views::{BinaryViewArray, View};
use column_json::{
    JsonNative, binary_json, boolean_json, column_json, column_text, fixed_size_binary_json,
    primitive_json, view_json,
};
use std::alloc::Global;
use std::test::Fail;

/// Whether values of one type, none of them null, are written as this text.
fn are_written<T: JsonNative>(
    alloc: Global,
    dtype: ArrowDataType,
    values: &[T],
    wanted: &str,
) -> Result<bool, Fail> {
    let values = buffer_of(alloc, values)?;
    let array = PrimitiveArray::<T>::try_new(dtype, values, None)?;
    let value = primitive_json(alloc, &array);
    drop(array);
    Ok(is_value(alloc, value, wanted))
}

#[test]
fn values_of_native_types(rt: HostRuntime) -> Result<(), Fail> {
    let alloc = rt.alloc();
    assert!(rt;
        are_written(
            alloc,
            ArrowDataType::Int128,
            &[-2i128, 255],
            concat!(
                r#"{"mask":null,"values":["fffffffffffffffffffffffffffffffe","#,
                r#""000000000000000000000000000000ff"]}"#
            ),
        )?
    );
    assert!(rt;
        are_written(
            alloc,
            ArrowDataType::UInt64,
            &[u64::MAX],
            r#"{"mask":null,"values":[18446744073709551615]}"#,
        )?
    );
    assert!(rt;
        are_written(
            alloc,
            ArrowDataType::Interval(IntervalUnit::DayTime),
            &[DaysMs(-1, 2)],
            r#"{"mask":null,"values":[[-1,2]]}"#,
        )?
    );
    assert!(rt;
        are_written(
            alloc,
            ArrowDataType::Interval(IntervalUnit::MonthDayNano),
            &[MonthDayNano(1, -2, 3)],
            r#"{"mask":null,"values":[[1,-2,3]]}"#,
        )?
    );
    Ok(())
}

/// The bits 1, 0 and null over 1.
fn bits(alloc: Global) -> Result<BooleanArray, Fail> {
    let values = Bitmap::from_bools(alloc, &[true, false, true])?;
    let mask = Bitmap::from_bools(alloc, &[true, true, false])?;
    Ok(BooleanArray::try_new(ArrowDataType::Boolean, values, Some(mask))?)
}

#[test]
fn bits_under_a_mask(rt: HostRuntime) -> Result<(), Fail> {
    let alloc = rt.alloc();
    let array = bits(alloc)?;
    let value = boolean_json(alloc, &array);
    drop(array);
    assert!(rt; is_value(alloc, value, r#"{"mask":"110","values":"101"}"#));
    Ok(())
}

/// No bytes and two bytes, with one before them.
fn strings(alloc: Global) -> Result<BinaryArray<i32>, Fail> {
    let bytes = buffer_of(alloc, &[9u8, 10, 255])?;
    let offsets = offsets_of(alloc, &[1i32, 1, 3])?;
    Ok(BinaryArray::try_new(ArrowDataType::Binary, offsets, bytes, None)?)
}

#[test]
fn byte_strings(rt: HostRuntime) -> Result<(), Fail> {
    let alloc = rt.alloc();
    let array = strings(alloc)?;
    let value = binary_json(alloc, &array);
    drop(array);
    assert!(rt;
        is_value(
            alloc,
            value,
            r#"{"bytes":"090aff","mask":null,"offsets":[1,1,3]}"#
        )
    );
    Ok(())
}

/// The text `hi`.
fn texts(alloc: Global) -> Result<Utf8Array<i64>, Fail> {
    let bytes = buffer_of(alloc, &[104u8, 105])?;
    let offsets = offsets_of(alloc, &[0i64, 2])?;
    Ok(Utf8Array::try_new(ArrowDataType::LargeUtf8, offsets, bytes, None)?)
}

#[test]
fn texts_as_bytes(rt: HostRuntime) -> Result<(), Fail> {
    let alloc = rt.alloc();
    let array = texts(alloc)?;
    let value = binary_json(alloc, &array);
    drop(array);
    assert!(rt;
        is_value(
            alloc,
            value,
            r#"{"bytes":"6869","mask":null,"offsets":[0,2]}"#
        )
    );
    Ok(())
}

#[test]
fn byte_strings_of_one_size(rt: HostRuntime) -> Result<(), Fail> {
    let alloc = rt.alloc();
    let bytes = buffer_of(alloc, &[1u8, 2, 3, 4])?;
    let array = FixedSizeBinaryArray::try_new(ArrowDataType::FixedSizeBinary(2), bytes, None)?;
    let value = fixed_size_binary_json(alloc, &array);
    drop(array);
    assert!(rt; is_value(alloc, value, r#"{"bytes":"01020304","mask":null}"#));
    Ok(())
}

#[test]
fn a_column_as_a_value(rt: HostRuntime) -> Result<(), Fail> {
    let alloc = rt.alloc();
    let array = days(alloc)?;
    let value = column_json(alloc, &array);
    drop(array);
    assert!(rt;
        is_value(
            alloc,
            value,
            r#"{"data":{"mask":"101","values":[1,7,-3]},"type":"date32"}"#,
        )
    );
    Ok(())
}

#[test]
fn a_column_as_text(rt: HostRuntime) -> Result<(), Fail> {
    let alloc = rt.alloc();
    let array = days(alloc)?;
    let text = column_text(alloc, &array);
    drop(array);
    assert!(rt;
        is_text(
            text,
            "{\"data\":{\"mask\":\"101\",\"values\":[1,7,-3]},\"type\":\"date32\"}\n",
        )
    );
    Ok(())
}

/// A buffer of one byte that no view has, and the thirteen of a long value.
fn one_buffer(alloc: Global) -> Mem<Vec<Buffer<u8>>> {
    let bytes = [45u8, 48, 49, 50, 51, 52, 53, 54, 55, 56, 57, 97, 98, 99];
    let buffer = buffer_of(alloc, &bytes)?;
    Ok(vec![in alloc; buffer]?)
}

/// A value of two bytes and one of thirteen.
fn strings_by_views(alloc: Global) -> Result<BinaryViewArray, Fail> {
    let slots = [View::new_inline(b"ab"), View::new_long(13, *b"0123", 0, 1)];
    let slots = buffer_of(alloc, &slots)?;
    let buffers = one_buffer(alloc)?;
    Ok(BinaryViewArray::try_new(ArrowDataType::BinaryView, slots, buffers, None)?)
}

#[test]
fn short_and_long_values_by_views(rt: HostRuntime) -> Result<(), Fail> {
    let alloc = rt.alloc();
    let array = strings_by_views(alloc)?;
    let value = view_json(alloc, &array);
    drop(array);
    assert!(rt;
        is_value(
            alloc,
            value,
            r#"{"buffers":["2d30313233343536373839616263"],"mask":null,"views":["6162",[13,0,1]]}"#,
        )
    );
    Ok(())
}
