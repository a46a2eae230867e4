//! Columns of nested kinds as text.
use crate::fixtures::{days, is_text, offsets_of};
use arrow_buffers::Bitmap;
use arrow_meaning::{ArrayRef, TypedArray, new_null_array};
use arrow_nested::ListArray;
use arrow_types::ArrowDataType;
use column_json::column_text;
use serde_json::Value;
use std::alloc::Global;
use std::test::Fail;
use type_json::type_from_json;

/// The type that a text is; none where it is none.
fn type_of(alloc: Global, spelling: &str) -> Option<ArrowDataType> {
    let value = Value::from_str(alloc, spelling).ok()?;
    let dtype = type_from_json(alloc, &value);
    drop(value);
    dtype.ok()
}

/// The type's spelling, how many nulls, and the data's.
type Row = (&'static str, usize, &'static str);

const ROWS: [Row; 9] = [
    (r#""null""#, 3, r#"{"length":3}"#),
    (
        r#"["list",["item","null",true,null]]"#,
        2,
        r#"{"child":{"length":0},"mask":"00","offsets":[0,0,0]}"#,
    ),
    (
        r#"["map",["entries",["struct",[["key","utf8",false,null],["value","int32",true,null]]],false,null],false]"#,
        1,
        r#"{"child":{"children":[{"bytes":"","mask":null,"offsets":[0]},{"mask":null,"values":[]}],"length":0,"mask":null},"mask":"0","offsets":[0,0]}"#,
    ),
    (
        r#"["fixed_size_list",["item","boolean",true,null],2]"#,
        2,
        r#"{"child":{"mask":"0000","values":"0000"},"length":2,"mask":"00"}"#,
    ),
    (
        r#"["struct",[["a","int32",true,null],["b","boolean",true,null]]]"#,
        2,
        r#"{"children":[{"mask":"00","values":[0,0]},{"mask":"00","values":"00"}],"length":2,"mask":"00"}"#,
    ),
    (
        r#"["struct",[]]"#,
        1,
        r#"{"children":[],"length":1,"mask":"0"}"#,
    ),
    (
        r#"["union","sparse",[7,5],[["a","int32",true,null],["b","boolean",true,null]]]"#,
        1,
        r#"{"children":[{"mask":"0","values":[0]},{"mask":"0","values":"0"}],"offsets":null,"types":[7]}"#,
    ),
    (
        r#"["union","dense",[7,5],[["a","int32",true,null],["b","boolean",true,null]]]"#,
        2,
        r#"{"children":[{"mask":"00","values":[0,0]},{"mask":null,"values":""}],"offsets":[0,1],"types":[7,7]}"#,
    ),
    (
        r#"["dictionary","int128","boolean",false]"#,
        1,
        r#"{"keys":["00000000000000000000000000000000"],"mask":"0","values":{"mask":"0","values":"0"}}"#,
    ),
];

/// Whether the nulls of a row are written as it says.
fn is_row(alloc: Global, row: &Row) -> Result<bool, Fail> {
    let Some(dtype) = type_of(alloc, row.0) else {
        return Ok(false);
    };
    let array = new_null_array(alloc, dtype, row.1)?;
    let text = column_text(alloc, &array);
    drop(array);
    let wanted = format!(in alloc; "{{\"data\":{},\"type\":{}}}\n", row.2, row.0)?;
    Ok(is_text(text, wanted.as_str()))
}

#[test]
fn nulls_of_every_nested_kind(rt: HostRuntime) -> Result<(), Fail> {
    let alloc = rt.alloc();
    for row in &ROWS {
        assert!(rt; is_row(alloc, row)?, "{}", row.0);
    }
    Ok(())
}

/// One list of the second and the third day.
fn list_of_days(alloc: Global) -> Result<Option<ArrayRef>, Fail> {
    let Some(dtype) = type_of(alloc, r#"["list",["item","date32",true,null]]"#) else {
        return Ok(None);
    };
    let offsets = offsets_of(alloc, &[1i32, 3])?;
    let mask = Bitmap::from_bools(alloc, &[true])?;
    let list = ListArray::try_new(alloc, dtype, offsets, days(alloc)?, Some(mask))?;
    Ok(Some(list.boxed()))
}

#[test]
fn lists_as_they_stand(rt: HostRuntime) -> Result<(), Fail> {
    let alloc = rt.alloc();
    let wanted = concat!(
        r#"{"data":{"child":{"mask":"101","values":[1,7,-3]},"mask":"1","offsets":[1,3]},"#,
        r#""type":["list",["item","date32",true,null]]}"#,
        "\n"
    );
    let is_right = match list_of_days(alloc)? {
        Some(list) => {
            let text = column_text(alloc, &list);
            drop(list);
            is_text(text, wanted)
        }
        None => false,
    };
    assert!(rt; is_right);
    Ok(())
}
