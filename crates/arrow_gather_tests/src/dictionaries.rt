//! A dictionary of many values that keys name in falling order.
use crate::fixtures::{dictionaries, numbers};
use arrow_choice::DictionaryArray;
use arrow_gather::normalized;
use arrow_meaning::{ArrayRef, TypedArray};
use arrow_types::Mem;
use std::alloc::Global;
use std::test::Fail;

/// How many values there are.
const COUNT: i32 = 100_000;

/// The numbers below the count, rising or falling.
fn all_numbers(alloc: Global, falls: bool) -> Mem<Vec<i32>> {
    let mut all = Vec::new(alloc);
    for i in 0..COUNT {
        all.push(if falls {
            (COUNT - 1).wrapping_sub(i)
        } else {
            i
        })?;
    }
    Ok(all)
}

/// The canonical array of the dictionary whose keys name all values in falling order.
fn rebuilt(alloc: Global) -> Result<ArrayRef, Fail> {
    let rising = all_numbers(alloc, false)?;
    let values = numbers(alloc, rising.as_slice(), None)?;
    let falling = all_numbers(alloc, true)?;
    let array = dictionaries(alloc, falling.as_slice(), None, values)?;
    Ok(normalized(alloc, &array)?)
}

/// Whether the keys rise, and the values fall.
fn is_turned(array: &DictionaryArray<i32>, rising: &[i32], falling: &[i32]) -> bool {
    match array.values().as_primitive::<i32>() {
        Some(values) => {
            array.keys().values().as_slice() == rising && values.values().as_slice() == falling
        }
        None => false,
    }
}

#[test]
fn many_values_stand_in_order_of_first_use(rt: HostRuntime) -> Result<(), Fail> {
    let alloc = rt.alloc();
    let rising = all_numbers(alloc, false)?;
    let falling = all_numbers(alloc, true)?;
    let array = rebuilt(alloc)?;
    let is_right = match DictionaryArray::<i32>::from_array(array) {
        Ok(array) => is_turned(&array, rising.as_slice(), falling.as_slice()),
        Err(_) => false,
    };
    assert!(rt; is_right);
    Ok(())
}
