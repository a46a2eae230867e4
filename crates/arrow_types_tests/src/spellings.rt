//! Each spelling there and back, and values that spell no type.

use arrow_types::ArrowDataType;
use serde_json::Value;
use std::alloc::Global;
use std::test::Fail;
use type_json::{JsonError, type_from_json, type_json};

/// The value of a text; None where it is no JSON.
fn value_of(alloc: Global, text: &str) -> Option<Value> {
    Value::from_str(alloc, text).ok()
}

/// Whether a type spells itself so.
fn is_spelled(alloc: Global, dtype: &ArrowDataType, text: &str) -> bool {
    match type_json(alloc, dtype) {
        Ok(value) => {
            let again = value.to_string(alloc);
            drop(value);
            let is_right = match &again {
                Ok(again) => again.as_str() == text,
                Err(_) => false,
            };
            drop(again);
            is_right
        }
        Err(_) => false,
    }
}

/// Whether a text spells a type that spells itself so again.
fn is_again(alloc: Global, text: &str) -> bool {
    match value_of(alloc, text) {
        Some(value) => {
            let dtype = type_from_json(alloc, &value);
            drop(value);
            let is_right = match &dtype {
                Ok(dtype) => is_spelled(alloc, dtype, text),
                Err(_) => false,
            };
            drop(dtype);
            is_right
        }
        None => false,
    }
}

/// Whether a text is JSON that spells no type.
fn is_refused(alloc: Global, text: &str) -> bool {
    match value_of(alloc, text) {
        Some(value) => {
            let dtype = type_from_json(alloc, &value);
            drop(value);
            let is_right = matches!(&dtype, Err(JsonError::BadValue));
            drop(dtype);
            is_right
        }
        None => false,
    }
}

#[test]
fn spellings(rt: HostRuntime) -> Result<(), Fail> {
    let alloc = rt.alloc();
    for text in [
        r#""null""#,
        r#""boolean""#,
        r#""int8""#,
        r#""int16""#,
        r#""int32""#,
        r#""int64""#,
        r#""int128""#,
        r#""uint8""#,
        r#""uint16""#,
        r#""uint32""#,
        r#""uint64""#,
        r#""date32""#,
        r#""date64""#,
        r#""binary""#,
        r#""large_binary""#,
        r#""utf8""#,
        r#""large_utf8""#,
        r#""binary_view""#,
        r#""utf8_view""#,
        r#"["timestamp","us","Europe/Zurich"]"#,
        r#"["timestamp","ns",null]"#,
        r#"["time32","s"]"#,
        r#"["time64","us"]"#,
        r#"["duration","ms"]"#,
        r#"["interval","year_month"]"#,
        r#"["interval","day_time"]"#,
        r#"["interval","month_day_nano"]"#,
        r#"["fixed_size_binary",18446744073709551615]"#,
        r#"["decimal",38,10]"#,
        r#"["list",["item","int32",true,null]]"#,
        r#"["large_list",["item","int32",false,{}]]"#,
        r#"["fixed_size_list",["item",["large_list",["x","utf8",false,{}]],true,null],3]"#,
        r#"["struct",[]]"#,
        concat!(
            r#"["map",["entries",["struct",[["k","utf8",false,null],"#,
            r#"["v","int8",true,{"a":"b","c":"d"}]]],false,null],true]"#
        ),
        r#"["union","dense",[-2147483648,7],[["a","int8",true,null],["b","null",true,null]]]"#,
        r#"["union","sparse",null,[]]"#,
        r#"["dictionary","uint8",["extension","x","utf8","m"],true]"#,
        r#"["extension","x","date64",null]"#,
    ] {
        assert!(rt; is_again(alloc, text));
    }
    Ok(())
}

#[test]
fn refused(rt: HostRuntime) -> Result<(), Fail> {
    let alloc = rt.alloc();
    for text in [
        "null",
        r#""float64""#,
        r#""unknown""#,
        r#"["decimal256",1,1]"#,
        r#"["time32","s",null]"#,
        r#"["fixed_size_binary",-1]"#,
        r#"["fixed_size_binary",1.0]"#,
        r#"["list",["item","int32",true]]"#,
        r#"["list",["item","int32",true,{"a":1}]]"#,
        r#"["union","dense",[2147483648],[]]"#,
        r#"["dictionary","utf8","utf8",true]"#,
        "{}",
    ] {
        assert!(rt; is_refused(alloc, text));
    }
    Ok(())
}
