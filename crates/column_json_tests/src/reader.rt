//! Values that are no column, and the arrays of those that are.

use arrow_meaning::ArrayRef;
use arrow_types::ArrowDataType;
use column_read::{Column, LayoutError};
use serde_json::Value;
use std::alloc::Global;
use std::test::Fail;
use type_json::JsonError;

/// Whether a text is JSON that is no column.
fn is_refused(alloc: Global, text: &str) -> bool {
    match Value::from_str(alloc, text) {
        Ok(value) => matches!(Column::from_json(alloc, &value), Err(JsonError::BadValue)),
        Err(_) => false,
    }
}

#[test]
fn refused(rt: HostRuntime) -> Result<(), Fail> {
    let alloc = rt.alloc();
    for text in [
        r#"{"data":{"mask":null,"values":"12"},"type":"boolean"}"#,
        r#"{"data":{"mask":null,"values":[256]},"type":"uint8"}"#,
        r#"{"data":{"mask":null,"values":[1.0]},"type":"uint8"}"#,
        r#"{"data":{"mask":null,"values":["ff"]},"type":"int128"}"#,
        r#"{"data":{"mask":null,"values":[]},"type":"float32"}"#,
        r#"{"data":{"bytes":"616","mask":null,"offsets":[0]},"type":"binary"}"#,
        r#"{"data":{"bytes":"","mask":null,"offsets":[2147483648]},"type":"utf8"}"#,
        r#"{"data":{"mask":null,"values":[1]},"name":1,"slice":[0,1],"type":"uint8"}"#,
        r#"{"data":{"mask":null,"values":[1]},"slice":[1],"type":"uint8"}"#,
        r#"{"data":{"buffers":[],"mask":null,"views":[[12,0,0]]},"type":"utf8_view"}"#,
        r#"{"data":{"length":-1},"type":"null"}"#,
        r#"{"data":{"length":1,"mask":null},"type":"null"}"#,
        concat!(
            r#"{"data":{"child":{"length":0},"mask":null,"offsets":[0],"x":0},"type":["list","#,
            r#"["item","null",true,null]]}"#
        ),
        concat!(
            r#"{"data":{"children":[{"length":0}],"length":0,"mask":null},"type":["struct","#,
            r#"[["a","null",true,null],["b","null",true,null]]]}"#
        ),
        concat!(
            r#"{"data":{"children":[{"length":0}],"offsets":null,"types":[128]},"type":["union","#,
            r#""sparse",null,[["a","null",true,null]]]}"#
        ),
        concat!(
            r#"{"data":{"keys":[128],"mask":null,"values":{"length":200}},"type":["dictionary","#,
            r#""int8","null",false]}"#
        ),
        concat!(
            r#"{"data":{"children":[{"mask":"1","values":[]},{"mask":null,"values":[256]}],"#,
            r#""length":0,"mask":null},"type":["struct",[["a","int32",true,null],"#,
            r#"["b","uint8",true,null]]]}"#
        ),
    ] {
        assert!(rt; is_refused(alloc, text));
    }
    Ok(())
}

/// The column that a text is; none where it is none.
fn column_in(alloc: Global, text: &str) -> Option<Column> {
    let value = Value::from_str(alloc, text).ok()?;
    let column = Column::from_json(alloc, &value);
    drop(value);
    match column {
        Ok(column) => Some(column),
        Err(_) => None,
    }
}

/// The array of the slots that a column selects; none where its layout is bad.
fn array_in(alloc: Global, column: Column) -> Option<ArrayRef> {
    match column.into_array(alloc) {
        Ok(array) => Some(array),
        Err(_) => None,
    }
}

/// Whether a text is a column whose layout is bad.
fn is_bad_layout(alloc: Global, text: &str) -> bool {
    match column_in(alloc, text) {
        Some(column) => matches!(column.into_array(alloc), Err(LayoutError::BadLayout)),
        None => false,
    }
}

#[test]
fn bad_layouts(rt: HostRuntime) -> Result<(), Fail> {
    let alloc = rt.alloc();
    for text in [
        r#"{"data":{"mask":"1","values":"10"},"type":"boolean"}"#,
        r#"{"data":{"bytes":"ff","mask":null,"offsets":[0,1]},"type":"utf8"}"#,
        r#"{"data":{"mask":null,"values":[1]},"slice":[1,1],"type":"uint8"}"#,
        r#"{"data":{"mask":"11","values":[1]},"slice":[0,1],"type":"uint8"}"#,
        concat!(
            r#"{"data":{"child":{"length":1},"mask":null,"offsets":[0,2]},"type":["list","#,
            r#"["item","null",true,null]]}"#
        ),
        concat!(
            r#"{"data":{"child":{"length":1},"mask":null,"offsets":[]},"type":["large_list","#,
            r#"["item","null",true,null]]}"#
        ),
        concat!(
            r#"{"data":{"child":{"mask":"1","values":[]},"mask":null,"offsets":[0]},"#,
            r#""type":["list",["item","int32",true,null]]}"#
        ),
        concat!(
            r#"{"data":{"child":{"length":3},"length":2,"mask":null},"type":["fixed_size_list","#,
            r#"["item","null",true,null],2]}"#
        ),
        concat!(
            r#"{"data":{"children":[{"length":1}],"length":2,"mask":null},"type":["struct","#,
            r#"[["a","null",true,null]]]}"#
        ),
        concat!(
            r#"{"data":{"children":[{"length":1}],"offsets":[1],"types":[0]},"type":["union","#,
            r#""dense",null,[["a","null",true,null]]]}"#
        ),
        concat!(
            r#"{"data":{"children":[{"length":1}],"offsets":null,"types":[0,0]},"#,
            r#""type":["union","sparse",null,[["a","null",true,null]]]}"#
        ),
        concat!(
            r#"{"data":{"keys":[1],"mask":null,"values":{"length":1}},"type":["dictionary","#,
            r#""int8","null",false]}"#
        ),
    ] {
        assert!(rt; is_bad_layout(alloc, text));
    }
    Ok(())
}

/// Whether a column is one of 32 bits, whose slice takes the last two of its three slots.
fn is_sliced(column: &Column) -> bool {
    column.dtype == ArrowDataType::Int32 && column.slice == Some((1, 2))
}

/// Whether an array has the slots null and 3.
fn has_last_numbers(array: &ArrayRef) -> bool {
    match array.as_primitive::<i32>() {
        Some(numbers) => numbers.iter().eq([None, Some(3)].iter().copied()),
        None => false,
    }
}

#[test]
fn a_column_with_a_slice(rt: HostRuntime) -> Result<(), Fail> {
    let alloc = rt.alloc();
    let text = r#"{"data":{"mask":"101","values":[1,7,3]},"slice":[1,2],"type":"int32"}"#;
    let column = column_in(alloc, text).ok_or("no column")?;
    let is_read = is_sliced(&column);
    let array = array_in(alloc, column).ok_or("no array")?;
    let is_made = has_last_numbers(&array);
    drop(array);
    assert!(rt; is_read && is_made);
    Ok(())
}

/// Whether a text is a column whose layout is good.
fn is_column(alloc: Global, text: &str) -> bool {
    let Some(column) = column_in(alloc, text) else {
        return false;
    };
    array_in(alloc, column).is_some()
}

#[test]
fn an_array_of_each_kind(rt: HostRuntime) -> Result<(), Fail> {
    let alloc = rt.alloc();
    for text in [
        r#"{"data":{"length":3},"type":"null"}"#,
        r#"{"data":{"mask":"110","values":"101"},"type":"boolean"}"#,
        r#"{"data":{"mask":"101","values":[1,7,3]},"type":"int32"}"#,
        r#"{"data":{"bytes":"090aff","mask":null,"offsets":[1,1,3]},"type":"binary"}"#,
        r#"{"data":{"bytes":"6869","mask":"1","offsets":[0,2]},"type":"large_utf8"}"#,
        r#"{"data":{"bytes":"01020304","mask":"10"},"type":["fixed_size_binary",2]}"#,
        concat!(
            r#"{"data":{"buffers":["2d30313233343536373839616263"],"mask":null,"views":["6162","#,
            r#"[13,0,1]]},"type":"binary_view"}"#
        ),
        concat!(
            r#"{"data":{"buffers":["2d30313233343536373839616263"],"mask":"10","views":["6162","#,
            r#"[13,0,1]]},"type":"utf8_view"}"#
        ),
        concat!(
            r#"{"data":{"child":{"mask":null,"values":[1,2,3,4]},"mask":"101","#,
            r#""offsets":[1,2,3,4]},"type":["list",["item","int32",true,null]]}"#
        ),
        concat!(
            r#"{"data":{"child":{"length":9223372036854775807},"mask":"0","#,
            r#""offsets":[0,9223372036854775807]},"type":["large_list",["item","null",true,"#,
            r#"null]]}"#
        ),
        concat!(
            r#"{"data":{"child":{"mask":null,"values":[]},"length":3,"mask":"101"},"#,
            r#""type":["fixed_size_list",["item","int32",true,null],0]}"#
        ),
        concat!(
            r#"{"data":{"children":[{"mask":null,"values":[7,8]}],"length":2,"mask":"10"},"#,
            r#""type":["struct",[["a","int32",true,null]]]}"#
        ),
        r#"{"data":{"children":[],"length":18446744073709551615,"mask":null},"type":["struct",[]]}"#,
        concat!(
            r#"{"data":{"child":{"children":[{"bytes":"6162","mask":null,"offsets":[0,1,2]},"#,
            r#"{"mask":null,"values":[1,2]}],"length":2,"mask":null},"mask":null,"#,
            r#""offsets":[0,1,2]},"type":["map",["entries",["struct",[["key","utf8",false,null],"#,
            r#"["value","int32",true,null]]],false,null],false]}"#
        ),
        concat!(
            r#"{"data":{"children":[{"mask":null,"values":[9,8]},{"mask":null,"values":"10"}],"#,
            r#""offsets":null,"types":[1,0]},"type":["union","sparse",null,[["a","int32",true,"#,
            r#"null],["b","boolean",true,null]]]}"#
        ),
        concat!(
            r#"{"data":{"children":[{"mask":null,"values":[1,2]},{"mask":null,"values":""}],"#,
            r#""offsets":[0,1],"types":[5,9]},"type":["union","dense",[5,7],[["a","int32",true,"#,
            r#"null],["b","boolean",true,null]]]}"#
        ),
        concat!(
            r#"{"data":{"keys":[100,1],"mask":"01","values":{"mask":null,"values":[5,6]}},"#,
            r#""type":["dictionary","uint8","int32",false]}"#
        ),
    ] {
        assert!(rt; is_column(alloc, text));
    }
    Ok(())
}
