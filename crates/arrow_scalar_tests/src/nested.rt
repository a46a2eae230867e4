//! Arrays with children, of slots that say nothing: each has the layout of another one that is made
//! alike, and of none that differs in type, in a child, or in its count of slots.
use arrow_meaning::{ArrayRef, new_null_array};
use arrow_scalar::same_layout;
use arrow_types::{
    ArrowDataType, Boxed, Field, Fields, IntegerType, Mem, PlSmallStr, PolarsResult, UnionMode,
    UnionType,
};
use std::alloc::Global;
use std::test::Fail;

/// A type of a table: each differs from the first of its kind in one part.
#[derive(Clone, Copy, PartialEq)]
enum Kind {
    Nulls,
    Lists,
    ListsOfOtherItems,
    LargeLists,
    Pairs,
    Triples,
    Structs,
    StructsOfOtherFields,
    Sparse,
    Dense,
    Keys,
    OtherKeys,
    KeysOfOtherValues,
}

const KINDS: [Kind; 13] = [
    Kind::Nulls,
    Kind::Lists,
    Kind::ListsOfOtherItems,
    Kind::LargeLists,
    Kind::Pairs,
    Kind::Triples,
    Kind::Structs,
    Kind::StructsOfOtherFields,
    Kind::Sparse,
    Kind::Dense,
    Kind::Keys,
    Kind::OtherKeys,
    Kind::KeysOfOtherValues,
];

/// A nullable field under the name `item`.
fn item_of(alloc: Global, dtype: ArrowDataType) -> Mem<Field> {
    Ok(Field::new(PlSmallStr::try_from_str(alloc, "item")?, dtype, true))
}

fn boxed_item(alloc: Global, dtype: ArrowDataType) -> Mem<Boxed<Field>> {
    Boxed::new(alloc, item_of(alloc, dtype)?)
}

/// One field, of the type.
fn fields_of(alloc: Global, dtype: ArrowDataType) -> Mem<Fields> {
    let mut fields = Fields::new(alloc);
    fields.push(item_of(alloc, dtype)?)?;
    Ok(fields)
}

/// A union of one field of numbers.
fn union_of(alloc: Global, mode: UnionMode) -> Mem<ArrowDataType> {
    let fields = fields_of(alloc, ArrowDataType::Int32)?;
    let union = UnionType {
        fields,
        ids: None,
        mode,
    };
    Ok(ArrowDataType::Union(Boxed::new(alloc, union)?))
}

fn dictionary_of(alloc: Global, key: IntegerType, values: ArrowDataType) -> Mem<ArrowDataType> {
    Ok(ArrowDataType::Dictionary(key, Boxed::new(alloc, values)?, false))
}

fn list_of(alloc: Global, items: ArrowDataType) -> Mem<ArrowDataType> {
    Ok(ArrowDataType::List(boxed_item(alloc, items)?))
}

fn fixed_list_of(alloc: Global, size: usize) -> Mem<ArrowDataType> {
    let item = boxed_item(alloc, ArrowDataType::Int32)?;
    Ok(ArrowDataType::FixedSizeList(item, size))
}

fn large_list(alloc: Global) -> Mem<ArrowDataType> {
    Ok(ArrowDataType::LargeList(boxed_item(alloc, ArrowDataType::Int32)?))
}

fn struct_of(alloc: Global, dtype: ArrowDataType) -> Mem<ArrowDataType> {
    Ok(ArrowDataType::Struct(fields_of(alloc, dtype)?))
}

fn type_of(alloc: Global, kind: Kind) -> Mem<ArrowDataType> {
    match kind {
        Kind::Nulls => Ok(ArrowDataType::Null),
        Kind::Lists => list_of(alloc, ArrowDataType::Int32),
        Kind::ListsOfOtherItems => list_of(alloc, ArrowDataType::Date32),
        Kind::LargeLists => large_list(alloc),
        Kind::Pairs => fixed_list_of(alloc, 2),
        Kind::Triples => fixed_list_of(alloc, 3),
        Kind::Structs => struct_of(alloc, ArrowDataType::Int32),
        Kind::StructsOfOtherFields => struct_of(alloc, ArrowDataType::Date32),
        Kind::Sparse => union_of(alloc, UnionMode::Sparse),
        Kind::Dense => union_of(alloc, UnionMode::Dense),
        Kind::Keys => dictionary_of(alloc, IntegerType::Int8, ArrowDataType::Utf8),
        Kind::OtherKeys => dictionary_of(alloc, IntegerType::UInt8, ArrowDataType::Utf8),
        Kind::KeysOfOtherValues => dictionary_of(alloc, IntegerType::Int8, ArrowDataType::Binary),
    }
}

/// This many slots of the kind that say nothing.
fn slots_of(alloc: Global, kind: Kind, length: usize) -> PolarsResult<ArrayRef> {
    let dtype = type_of(alloc, kind)?;
    new_null_array(alloc, dtype, length)
}

/// Whether an array has the layout of this many slots of the kind.
fn has_layout_of(alloc: Global, array: &ArrayRef, kind: Kind, length: usize) -> PolarsResult<bool> {
    let other = slots_of(alloc, kind, length)?;
    let is_same = same_layout(array, &other);
    drop(other);
    Ok(is_same)
}

/// Whether two slots of one kind and `length` of another have one layout exactly where kind and
/// count are the same.
fn are_told_apart(alloc: Global, lhs: Kind, rhs: Kind, length: usize) -> PolarsResult<bool> {
    let array = slots_of(alloc, lhs, 2)?;
    let is_same = has_layout_of(alloc, &array, rhs, length);
    drop(array);
    Ok(is_same? == (lhs == rhs && length == 2))
}

#[test]
fn kinds_have_their_own_layouts_alone(rt: HostRuntime) -> Result<(), Fail> {
    let alloc = rt.alloc();
    for lhs in KINDS {
        for rhs in KINDS {
            assert!(rt; are_told_apart(alloc, lhs, rhs, 2)?);
        }
        assert!(rt; are_told_apart(alloc, lhs, lhs, 3)?);
    }
    Ok(())
}
