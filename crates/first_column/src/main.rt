//! A column from a builder, a slice of it, and the canonical text of the slice.
#![tactic(auto)]

use anyhow::Error;
use arrow::PolarsResult;
use arrow::array::{FlatArray, Int32Array, MutablePrimitiveArray, TryExtend};
use arrow::canon::normalized;
use arrow::json::column_text;
use std::alloc::Global;

/// The slots 9, 1, null and 3.
fn numbers(alloc: Global) -> PolarsResult<Int32Array> {
    let mut builder = MutablePrimitiveArray::<i32>::new(alloc)?;
    let pushed = builder.try_extend([Some(9), Some(1), None, Some(3)]);
    let array = builder.finish();
    drop(builder);
    pushed?;
    Ok(array?)
}

fn main(rt: HostRuntime) -> Result<(), Error> {
    let alloc = rt.alloc();
    let array = numbers(alloc)?;
    let column = array.boxed(alloc)?;
    if column.len() == 4 {
        let part = column.sliced(alloc, 1, 3)?;
        let canonical = normalized(alloc, &part)?;
        print!(rt; "{}", column_text(alloc, &canonical)?)?;
    }
    Ok(())
}
