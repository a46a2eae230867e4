//! The types, the offsets and the children that the tests of lists and maps share.
use crate::struct_fixtures::numbers as numbers_of;
use arrow_buffers::{Offset, OffsetError, Offsets, OffsetsBuffer};
use arrow_meaning::ArrayRef;
use arrow_types::{ArrowDataType, Boxed, ExtensionType, Field, Fields, Mem, PlSmallStr};
use std::alloc::Global;
use std::test::Fail;

/// The types that cases declare.
#[derive(Clone, Copy)]
pub(crate) enum Declared {
    Int32,
    List,
    LargeList,
    ListOfInt64,
    ExtensionOfList,
    MapOfInt32,
    MapOfOne,
    MapOfPair,
}

/// A nullable field of this name and type.
fn field_of(alloc: Global, name: &str, dtype: ArrowDataType) -> Mem<Field> {
    Ok(Field::new(PlSmallStr::try_from_str(alloc, name)?, dtype, true))
}

/// The field of items or of entries.
fn boxed_field(alloc: Global, dtype: ArrowDataType) -> Mem<Boxed<Field>> {
    let field = field_of(alloc, "item", dtype)?;
    Boxed::new(alloc, field)
}

fn list_of(alloc: Global, dtype: ArrowDataType) -> Mem<ArrowDataType> {
    Ok(ArrowDataType::List(boxed_field(alloc, dtype)?))
}

fn extension_of(alloc: Global, inner: ArrowDataType) -> Mem<ArrowDataType> {
    let extension = ExtensionType {
        name: PlSmallStr::try_from_str(alloc, "x")?,
        inner,
        metadata: None,
    };
    Ok(ArrowDataType::Extension(Boxed::new(alloc, extension)?))
}

/// A struct of this many fields of 32 bits.
pub(crate) fn struct_of(alloc: Global, count: usize) -> Mem<ArrowDataType> {
    let mut fields = Fields::new(alloc);
    for _ in 0..count {
        let field = field_of(alloc, "a", ArrowDataType::Int32)?;
        fields.push(field)?;
    }
    Ok(ArrowDataType::Struct(fields))
}

fn map_of(alloc: Global, entries: ArrowDataType) -> Mem<ArrowDataType> {
    Ok(ArrowDataType::Map(boxed_field(alloc, entries)?, false))
}

fn map_of_struct(alloc: Global, count: usize) -> Mem<ArrowDataType> {
    let entries = struct_of(alloc, count)?;
    map_of(alloc, entries)
}

fn extension_of_list(alloc: Global) -> Mem<ArrowDataType> {
    let list = list_of(alloc, ArrowDataType::Int32)?;
    extension_of(alloc, list)
}

fn large_list(alloc: Global) -> Mem<ArrowDataType> {
    Ok(ArrowDataType::LargeList(boxed_field(alloc, ArrowDataType::Int32)?))
}

/// The type that a case declares.
pub(crate) fn type_of(alloc: Global, declared: Declared) -> Mem<ArrowDataType> {
    match declared {
        Declared::Int32 => Ok(ArrowDataType::Int32),
        Declared::List => list_of(alloc, ArrowDataType::Int32),
        Declared::LargeList => large_list(alloc),
        Declared::ListOfInt64 => list_of(alloc, ArrowDataType::Int64),
        Declared::ExtensionOfList => extension_of_list(alloc),
        Declared::MapOfInt32 => map_of(alloc, ArrowDataType::Int32),
        Declared::MapOfOne => map_of_struct(alloc, 1),
        Declared::MapOfPair => map_of_struct(alloc, 2),
    }
}

/// The numbers from 0 on, this many of them.
pub(crate) fn numbers(alloc: Global, count: usize) -> Result<ArrayRef, Fail> {
    let all = [0, 1, 2, 3];
    if count > all.len() {
        return Err("more numbers than there are".into());
    }
    Ok(numbers_of(alloc, &all[..count])?)
}

/// Appends a slot of one item that none reads, and slots of one, no and one items.
fn push_slots<O: Offset>(offsets: &mut Offsets<O>) -> Result<(), OffsetError> {
    offsets.try_extend_from_lengths(&[1, 1, 0, 1])
}

/// The offsets 1, 2, 2 and 3, behind which the first item of the child isn't read.
pub(crate) fn three_slots<O: Offset>(alloc: Global) -> Result<OffsetsBuffer<O>, Fail> {
    let mut offsets = Offsets::<O>::new(alloc)?;
    let pushed = push_slots(&mut offsets);
    let frozen = offsets.freeze();
    pushed?;
    let mut window = frozen?;
    if window.len_proxy() != 4 {
        return Err("another count of slots".into());
    }
    window.slice(1, 3);
    Ok(window)
}
