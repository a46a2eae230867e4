//! Copies through the bound: each type that is copied is, with ample memory.

use arrow_flat::{DaysMs, MonthDayNano, TryClone};
use arrow_types::{
    ArrowDataType, ArrowSchema, Dimension, ExtensionType, Field, Fields, Ids, IntegerType,
    IntervalUnit, Mem, Metadata, PhysicalType, PlSmallStr, PolarsError, PrimitiveType, Reason,
    ReshapeDimension, SharedMetadata, TimeUnit, UnionMode, UnionType,
};
use flat_fixtures::twice;
use std::alloc::Global;
use std::collections::BTreeMap;

/// Whether two copies of a value, through the bound, are equal to it.
fn are_equal<T: TryClone + PartialEq + Drop>(alloc: Global, value: &T) -> Mem<bool> {
    let (first, second) = twice(alloc, value)?;
    let are_equal = first == *value && second == *value;
    drop(first);
    drop(second);
    Ok(are_equal)
}

/// Whether the value was made, and its copies are equal to it.
fn is_copied<T: TryClone + PartialEq + Drop>(alloc: Global, made: Mem<T>) -> bool {
    match made {
        Ok(value) => {
            let are_equal = are_equal(alloc, &value);
            drop(value);
            are_equal.unwrap_or(false)
        }
        Err(_) => false,
    }
}

/// The same of kinds of types.
fn kinds_are_copied(alloc: Global) -> bool {
    is_copied(alloc, Ok(UnionMode::Dense))
        && is_copied(alloc, Ok(TimeUnit::Microsecond))
        && is_copied(alloc, Ok(IntervalUnit::DayTime))
        && is_copied(alloc, Ok(IntegerType::UInt8))
        && is_copied(alloc, Ok(PrimitiveType::DaysMs))
        && is_copied(alloc, Ok(PhysicalType::Dictionary(IntegerType::Int8)))
}

/// The same of plain values.
fn values_are_copied(alloc: Global) -> bool {
    is_copied(alloc, Ok(Dimension::new(2)))
        && is_copied(alloc, Ok(ReshapeDimension::Infer))
        && is_copied(alloc, Ok(PolarsError::ComputeError(Reason::MaskLength)))
        && is_copied(alloc, Ok(DaysMs(-1, 2)))
        && is_copied(alloc, Ok(MonthDayNano(-1, 2, 3)))
}

fn string(alloc: Global) -> Mem<PlSmallStr> {
    PlSmallStr::try_from_str(alloc, "a")
}

fn field(alloc: Global) -> Mem<Field> {
    Ok(Field::new(string(alloc)?, ArrowDataType::Utf8, true))
}

fn fields(alloc: Global) -> Mem<Fields> {
    Ok(Fields::from_vec(vec![in alloc; field(alloc)?]?))
}

fn schema(alloc: Global) -> Mem<ArrowSchema> {
    let fields = fields(alloc)?;
    Ok(ArrowSchema { fields })
}

fn union(alloc: Global) -> Mem<UnionType> {
    let ids = Ids::from_slice(alloc, &[5])?;
    let fields = fields(alloc)?;
    Ok(UnionType {
        fields,
        ids: Some(ids),
        mode: UnionMode::Sparse,
    })
}

fn extension(alloc: Global) -> Mem<ExtensionType> {
    let name = string(alloc)?;
    let metadata = string(alloc)?;
    Ok(ExtensionType {
        name,
        inner: ArrowDataType::Binary,
        metadata: Some(metadata),
    })
}

/// Notes one value.
fn note(alloc: Global, map: &mut Metadata) -> Mem<()> {
    let key = string(alloc)?;
    let value = string(alloc)?;
    map.insert(key, value)?;
    Ok(())
}

fn metadata(alloc: Global) -> Mem<SharedMetadata> {
    let mut map = BTreeMap::new(alloc);
    note(alloc, &mut map)?;
    SharedMetadata::new(alloc, map)
}

/// The same of types and their parts.
fn types_are_copied(alloc: Global) -> bool {
    is_copied(alloc, string(alloc))
        && is_copied(alloc, Ok(ArrowDataType::Date32))
        && is_copied(alloc, field(alloc))
        && is_copied(alloc, schema(alloc))
        && is_copied(alloc, union(alloc))
        && is_copied(alloc, extension(alloc))
        && is_copied(alloc, metadata(alloc))
}

#[test]
fn each_type_is_copied(rt: HostRuntime) {
    let alloc = rt.alloc();
    assert!(rt; kinds_are_copied(alloc) && values_are_copied(alloc) && types_are_copied(alloc));
}
