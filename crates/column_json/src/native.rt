//! The values of primitive arrays as JSON values.
ghost use Rattle.std.specs.Prelude.{◌≡◌, [], ◌∷◌, IfOk, OnOk};
ghost use Rattle.serde_json.specs.View.{view};
ghost use Rattle.column_grammar.specs.Values.{integer_value, list_value, number_value};
ghost use Rattle.column_json.specs.Puts.{Puts};

use crate::text::put_few;
use crate::writer::bytes_json;
use arrow_flat::{DaysMs, MonthDayNano, NativeType};
use arrow_types::Mem;
use json::Writer;
use serde_json::{Value, json};
use std::alloc::Global;

/// A native type whose values JSON holds: a whole number, 32 hexadecimal digits for 128 bits, or a
/// list of two or three whole numbers.
pub trait JsonNative: NativeType {
    /// The JSON value of a value. It fails only where memory runs out.
    fn write(alloc: Global, value: Self) -> Mem<Value>
        ensures { IfOk result (λ v. view v ≡ number_value Self.PRIMITIVE (Self.parts value)) };

    /// Writes the JSON value of a value. It fails only where memory runs out.
    fn put(out: &mut Writer, value: Self) -> Mem<()>
        ensures { OnOk result (Puts out.old out.new
            (number_value Self.PRIMITIVE (Self.parts value))) };
}

fn put_integers(out: &mut Writer, first: i64, second: i64, third: i64) -> Mem<()>
    ensures { OnOk result (Puts out.old out.new (list_value (integer_value first
        ∷ integer_value second
        ∷ integer_value third
        ∷ []))) }
{
    out.begin_array()?;
    out.i64(first)?;
    out.i64(second)?;
    out.i64(third)?;
    out.end_array()
}

impl JsonNative for i8 {
    fn write(_alloc: Global, value: i8) -> Mem<Value> {
        Ok(Value::from(value))
    }

    fn put(out: &mut Writer, value: i8) -> Mem<()> {
        out.i64(i64::from(value))
    }
}

impl JsonNative for i16 {
    fn write(_alloc: Global, value: i16) -> Mem<Value> {
        Ok(Value::from(value))
    }

    fn put(out: &mut Writer, value: i16) -> Mem<()> {
        out.i64(i64::from(value))
    }
}

impl JsonNative for i32 {
    fn write(_alloc: Global, value: i32) -> Mem<Value> {
        Ok(Value::from(value))
    }

    fn put(out: &mut Writer, value: i32) -> Mem<()> {
        out.i64(i64::from(value))
    }
}

impl JsonNative for i64 {
    fn write(_alloc: Global, value: i64) -> Mem<Value> {
        Ok(Value::from(value))
    }

    fn put(out: &mut Writer, value: i64) -> Mem<()> {
        out.i64(value)
    }
}

impl JsonNative for i128 {
    fn write(alloc: Global, value: i128) -> Mem<Value> {
        bytes_json(alloc, &value.to_be_bytes())
    }

    fn put(out: &mut Writer, value: i128) -> Mem<()> {
        put_few(out, &value.to_be_bytes())
    }
}

impl JsonNative for u8 {
    fn write(_alloc: Global, value: u8) -> Mem<Value> {
        Ok(Value::from(value))
    }

    fn put(out: &mut Writer, value: u8) -> Mem<()> {
        out.u64(u64::from(value))
    }
}

impl JsonNative for u16 {
    fn write(_alloc: Global, value: u16) -> Mem<Value> {
        Ok(Value::from(value))
    }

    fn put(out: &mut Writer, value: u16) -> Mem<()> {
        out.u64(u64::from(value))
    }
}

impl JsonNative for u32 {
    fn write(_alloc: Global, value: u32) -> Mem<Value> {
        Ok(Value::from(value))
    }

    fn put(out: &mut Writer, value: u32) -> Mem<()> {
        out.u64(u64::from(value))
    }
}

impl JsonNative for u64 {
    fn write(_alloc: Global, value: u64) -> Mem<Value> {
        Ok(Value::from(value))
    }

    fn put(out: &mut Writer, value: u64) -> Mem<()> {
        out.u64(value)
    }
}

impl JsonNative for DaysMs {
    fn write(alloc: Global, value: DaysMs) -> Mem<Value> {
        let days = value.0;
        let milliseconds = value.1;
        json!(in alloc; [days, milliseconds])
    }

    fn put(out: &mut Writer, value: DaysMs) -> Mem<()> {
        out.begin_array()?;
        out.i64(i64::from(value.0))?;
        out.i64(i64::from(value.1))?;
        out.end_array()
    }
}

impl JsonNative for MonthDayNano {
    fn write(alloc: Global, value: MonthDayNano) -> Mem<Value> {
        let months = value.0;
        let days = value.1;
        let nanoseconds = value.2;
        json!(in alloc; [months, days, nanoseconds])
    }

    fn put(out: &mut Writer, value: MonthDayNano) -> Mem<()> {
        put_integers(out, i64::from(value.0), i64::from(value.1), value.2)
    }
}
