//! The types and the parts of unions that the tests share.
use arrow_buffers::Buffer;
use arrow_choice::UnionArray;
use arrow_flat::PrimitiveArray;
use arrow_meaning::{ArrayRef, Node, PrimitiveNode};
use arrow_types::{
    ArrowDataType, Boxed, Field, Fields, Ids, Mem, PlSmallStr, PolarsResult, UnionMode, UnionType,
};
use flat_fixtures::buffer_of;
use std::alloc::Global;

/// A type of unions: the count of its fields, which are of 32 bits or of 64, its ids and its mode.
#[derive(Clone, Copy)]
pub(crate) struct Declared<'a> {
    pub fields: usize,
    pub is_large: bool,
    pub ids: Option<&'a [i32]>,
    pub is_sparse: bool,
}

/// This many numbers of 32 bits.
fn numbers(alloc: Global, length: usize) -> PolarsResult<ArrayRef> {
    let mut values = Vec::new(alloc);
    for _ in 0..length {
        values.push(7i32)?;
    }
    let values = Buffer::from_vec(alloc, values)?;
    let numbers = PrimitiveArray::try_new(ArrowDataType::Int32, values, None)?;
    Ok(ArrayRef::from_node(alloc, Node::Primitive(PrimitiveNode::Int32(numbers)))?)
}

/// An array of numbers for each length.
fn children_of(alloc: Global, lengths: &[usize]) -> PolarsResult<Vec<ArrayRef>> {
    let mut children = Vec::new(alloc);
    for length in lengths {
        let child = numbers(alloc, *length)?;
        children.push(child)?;
    }
    Ok(children)
}

/// Fields of 32 bits or of 64.
fn fields_of(alloc: Global, count: usize, is_large: bool) -> Mem<Fields> {
    let mut fields = Fields::new(alloc);
    for _ in 0..count {
        let name = PlSmallStr::try_from_str(alloc, "field")?;
        let dtype = if is_large {
            ArrowDataType::Int64
        } else {
            ArrowDataType::Int32
        };
        fields.push(Field::new(name, dtype, true))?;
    }
    Ok(fields)
}

fn ids_of(alloc: Global, ids: Option<&[i32]>) -> Mem<Option<Ids>> {
    match ids {
        None => Ok(None),
        Some(ids) => Ok(Some(Ids::from_slice(alloc, ids)?)),
    }
}

/// The type of unions that is declared, or another one.
fn type_of(alloc: Global, declared: Option<Declared<'_>>) -> Mem<ArrowDataType> {
    let Some(declared) = declared else {
        return Ok(ArrowDataType::Int32);
    };
    let ids = ids_of(alloc, declared.ids)?;
    let fields = fields_of(alloc, declared.fields, declared.is_large)?;
    let mode = UnionMode::sparse(declared.is_sparse);
    let union = UnionType { fields, ids, mode };
    Ok(ArrowDataType::Union(Boxed::new(alloc, union)?))
}

fn offsets_of(alloc: Global, offsets: Option<&[i32]>) -> Mem<Option<Buffer<i32>>> {
    match offsets {
        None => Ok(None),
        Some(offsets) => Ok(Some(buffer_of(alloc, offsets)?)),
    }
}

/// The union of these parts: the type, another one where none is declared, the type numbers, the
/// counts of slots of the fields, which are of 32 bits, and the offsets.
pub(crate) fn try_union(
    alloc: Global,
    declared: Option<Declared<'_>>,
    types: &[i8],
    lengths: &[usize],
    offsets: Option<&[i32]>,
) -> PolarsResult<UnionArray> {
    let dtype = type_of(alloc, declared)?;
    let types = buffer_of(alloc, types)?;
    let offsets = offsets_of(alloc, offsets)?;
    let children = children_of(alloc, lengths)?;
    UnionArray::try_new(alloc, dtype, types, children, offsets)
}
